// A shadow set over the disk of its master.
ghost use Rattle.std.specs.Prelude.{◌≡◌, ◌<◌, ◌≤◌, IfOk, IfErr, None, Some, is_some, length};
ghost use Rattle.std.specs.Option.{option_map};
ghost use Rattle.avs_dev.specs.Seen.{Seen};
ghost use Rattle.avs_chunks.specs.States.{code_of};
ghost use Rattle.avs_chunks.specs.ChunkSet.{IsKept, chunks_of, state_of};
ghost use Rattle.avs_chunks.specs.Making.{Makes, MakeRefused, Loads, LoadRefused, Fits, areas_on};
ghost use Rattle.avs_chunks.specs.Finding.{Finds, FindRefused};

use crate::counting::Counts;
use crate::formats::{Room, area_len, find, format, make_room};
use crate::states::{ChunkState, state_in};
use avs_dev::{Back, Closed2, Disk, Why};
use avs_flip::Flip;
use avs_model::Kind;
use avs_seg::{Failed, seg_count};
use std::alloc::Global;
use std::marker::Model;

// How many blocks a disk has that may be there.
fn size_of<D: Disk>(disk: &Option<D>) -> Option<u32>
    ensures { result ≡ option_map (λ (d : Seen). d.size) (option_map D.seen disk.now) }
{
    match disk {
        Some(disk) => Some(disk.blocks()),
        None => None,
    }
}

/// A shadow set: the shadow's disk, and the states of its chunks in memory and on the bitmap's disk. Each call that
/// needs the master's disk is given it.
#[derive(Drop)]
pub struct Chunks<D: Disk> {
    pub(crate) kind: Kind,
    pub(crate) shadow: Option<D>,
    pub(crate) flip: Flip<D>,
    // The live states, as they lie on the disk, and how many chunks are in each.
    pub(crate) memory: Vec<u8>,
    pub(crate) counts: Counts,
    // The staged states, as they lie on the disk once all parts are staged, and how many chunks are in each.
    pub(crate) next: Vec<u8>,
    pub(crate) next_counts: Counts,
    pub(crate) blocks: u32,
    // No chunk below this one is to be copied.
    pub(crate) low: u32,
    // Room for a chunk.
    pub(crate) buffer: Vec<u8>,
}

impl<D: Disk> Model for Chunks<D> {
    ghost use Rattle.std.specs.Prelude.{◌≡◌, length};
    ghost use Rattle.std.specs.Option.{option_map};
    ghost use Rattle.avs_seg.specs.Segment.{seg_count};
    ghost use Rattle.avs_chunks.specs.States.{state_in};
    ghost use Rattle.avs_chunks.specs.Due.{NoneDue, is_independent};
    ghost use Rattle.avs_chunks.specs.Counted.{AreCounted};
    ghost use Rattle.avs_chunks.specs.ChunkSet.{ChunkSet, IsKept};

    ghost Value = { ChunkSet };

    ghost view = { λ s. record { kind = s.kind; shadow = option_map D.seen s.shadow; areas = s.flip; memory = s.memory.items; next = s.next.items; blocks = s.blocks } };

    ghost invariant = { λ s. IsKept (option_map D.seen s.shadow) s.flip s.memory.items s.next.items s.blocks
        × AreCounted (state_in s.memory.items) (seg_count s.blocks) s.counts
        × AreCounted (state_in s.next.items) (seg_count s.blocks) s.next_counts
        × NoneDue (state_in s.memory.items) (is_independent s.kind) s.low
        × (length s.buffer.items ≡ 32768) };
}

impl<D: Disk> Chunks<D> {
    /// A new set of so many blocks: each chunk stands on the master alone. Nothing of the shadow is written.
    pub fn make(
        alloc: Global,
        kind: Kind,
        shadow: D,
        mut bitmap: D,
        blocks: u32,
    ) -> Result<Chunks<D>, Closed2<D>>
        requires { 0 < blocks }
        ensures made { IfOk result (λ s. Makes kind (D.seen shadow) (D.seen bitmap) blocks s) }
        ensures refused { IfErr result (λ e. MakeRefused (D.seen shadow) (D.seen bitmap) blocks e.why (D.seen e.parts.0) (D.seen e.parts.1)) }
    {
        let room = match make_room(alloc, Some(shadow.blocks()), bitmap.blocks(), blocks) {
            Ok(room) => room,
            Err(why) => {
                return Err(Back {
                    parts: (shadow, bitmap),
                    why,
                });
            }
        };
        match format(&mut bitmap, blocks, &room.memory) {
            Ok(()) => Ok(Chunks::over(kind, Some(shadow), bitmap, blocks, false, room)),
            Err(Failed) => Err(Back {
                parts: (shadow, bitmap),
                why: Why::Fault,
            }),
        }
    }

    /// The set of so many blocks that stands on these disks, with area B live where `live_b` says so. `BadRecord`
    /// names the field of the label that breaks its rule, or by which it is another one.
    pub fn load(
        alloc: Global,
        kind: Kind,
        shadow: Option<D>,
        mut bitmap: D,
        blocks: u32,
        live_b: bool,
    ) -> Result<Chunks<D>, Back<(Option<D>, D), Why>>
        requires { 0 < blocks }
        ensures loaded { IfOk result (λ s. Loads kind (option_map D.seen shadow) (D.seen bitmap) blocks live_b s) }
        ensures refused { IfErr result (λ e. LoadRefused (option_map D.seen shadow) (D.seen bitmap) blocks e.why (D.seen e.parts.1)) }
        ensures shadow_back { IfErr result (λ e. option_map D.seen e.parts.0 ≡ option_map D.seen shadow) }
    {
        match find(alloc, size_of(&shadow), &mut bitmap, blocks, live_b) {
            Ok(room) => Ok(Chunks::over(kind, shadow, bitmap, blocks, live_b, room)),
            Err(why) => Err(Back {
                parts: (shadow, bitmap),
                why,
            }),
        }
    }

    /// The set of so many blocks on these disks, with area A live. Nothing is read of its states, and each stands in
    /// memory as on the master alone.
    pub fn found(
        alloc: Global,
        kind: Kind,
        shadow: D,
        bitmap: D,
        blocks: u32,
    ) -> Result<Chunks<D>, Closed2<D>>
        ensures found { IfOk result (λ s. Finds kind (D.seen shadow) (D.seen bitmap) blocks s) }
        ensures refused { IfErr result (λ e. FindRefused (D.seen shadow) (D.seen bitmap) blocks e.why) }
        ensures shadow_back { IfErr result (λ e. D.seen e.parts.0 ≡ D.seen shadow) }
        ensures bitmap_back { IfErr result (λ e. D.seen e.parts.1 ≡ D.seen bitmap) }
    {
        match make_room(alloc, Some(shadow.blocks()), bitmap.blocks(), blocks) {
            Ok(room) => Ok(Chunks::over(kind, Some(shadow), bitmap, blocks, false, room)),
            Err(why) => Err(Back {
                parts: (shadow, bitmap),
                why,
            }),
        }
    }

    // The set over disks and what was read of them.
    fn over(
        kind: Kind,
        shadow: Option<D>,
        bitmap: D,
        blocks: u32,
        live_b: bool,
        room: Room,
    ) -> Chunks<D>
        requires kept { IsKept (option_map D.seen shadow) (areas_on (D.seen bitmap) blocks live_b) room.memory.items room.next.items blocks }
        requires buffer { length room.buffer.items ≡ 32768 }
        ensures { result ≡ record { kind = kind; shadow = option_map D.seen shadow; areas = areas_on (D.seen bitmap) blocks live_b; memory = room.memory.items; next = room.next.items; blocks = blocks } }
    {
        let Room {
            memory,
            next,
            buffer,
        } = room;
        Chunks {
            kind,
            shadow,
            flip: Flip::load(bitmap, 1, area_len(blocks), live_b),
            counts: Counts::of(&memory, seg_count(blocks)),
            memory,
            next_counts: Counts::of(&next, seg_count(blocks)),
            next,
            blocks,
            low: 0,
            buffer,
        }
    }

    /// What the set is.
    pub fn kind(&self) -> Kind
        ensures { result ≡ self.now.kind }
    {
        self.kind
    }

    /// How many blocks the set has.
    pub fn blocks(&self) -> u32
        ensures { result ≡ self.now.blocks }
    {
        self.blocks
    }

    /// How many chunks the set has.
    pub fn chunks(&self) -> u32
        ensures { result ≡ chunks_of self.now }
    {
        seg_count(self.blocks)
    }

    /// Whether the shadow's disk is there.
    pub fn has_shadow(&self) -> bool
        ensures { result ≡ is_some self.now.shadow }
    {
        self.shadow.is_some()
    }

    /// The state of a chunk.
    pub fn state(&self, chunk: u32) -> ChunkState
        requires { chunk < chunks_of self.now }
        ensures { code_of result ≡ state_of self.now chunk }
    {
        state_in(&self.memory, chunk)
    }

    /// Takes the shadow's disk out, where it is there.
    pub fn take_shadow(&mut self) -> Option<D>
        ensures taken { option_map D.seen result ≡ self.old.shadow }
        ensures rest { self.new ≡ record self.old { shadow = None } }
    {
        self.shadow.take()
    }

    /// Puts a shadow's disk in, where none is there.
    pub fn give_shadow(&mut self, shadow: D)
        requires none { self.old.shadow ≡ None }
        requires room { self.old.blocks ≤ (D.seen shadow).size }
        ensures { self.new ≡ record self.old { shadow = Some (D.seen shadow) } }
    {
        self.shadow = Some(shadow);
    }

    /// Hands the disks back: the shadow's, where it is there, and the bitmap's.
    pub fn into_disks(self) -> (Option<D>, D)
        ensures shadow { option_map D.seen result.0 ≡ self.shadow }
        ensures bitmap { D.seen result.1 ≡ self.areas.disk }
        ensures fits { Fits self.shadow self.areas.disk self.blocks }
        ensures areas { self.areas ≡ areas_on self.areas.disk self.blocks self.areas.live_b }
    {
        let Chunks { shadow, flip, .. } = self;
        (shadow, flip.into_disk())
    }
}
