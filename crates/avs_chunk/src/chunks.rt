// A shadow set over the disk of its master.
ghost use Rattle.std.specs.Prelude.{◌≡◌, ◌⊎◌, ◌+◌, ◌*◌, ◌/◌, ◌^◌, ◌<◌, ◌≤◌, IsTrue, IfOk, IfErr, Some, is_some, length};
ghost use Rattle.std.specs.Option.{option_map};
ghost use Rattle.avs_seg.specs.Segment.{seg_count};
ghost use Rattle.avs_dev.specs.Seen.{Seen};
ghost use Rattle.avs_chunk.specs.ChunkSet.{ChunkSet, CanSave, IsOnePlace, IsKept, chunks_of};
ghost use Rattle.avs_chunk.specs.Calls.{Saves, ReadsShadow, WritesShadow};
ghost use Rattle.avs_chunk.specs.Making.{Makes, MakeRefused, Loads, LoadRefused, Fits, areas_on};
ghost use Rattle.avs_chunk.specs.Finding.{Finds, FindRefused, back_of, left_of};
ghost use Rattle.avs_chunk.specs.Arming.{ArmsOne, written_of};

use crate::copies::{copy_chunk, read_one, write_there};
use crate::formats::{Room, area_len, find, format, make_room};
use crate::put::put_state;
use crate::states::{ON_MASTER, ON_SHADOW, SPLIT, count_in, run_end, state_in};
use avs_dev::{Arm, Back, Closed2, Disk, Tear, Why};
use avs_flip::Flip;
use avs_model::Kind;
use avs_seg::{BLOCK, Failed, SEGMENT, seg_count, seg_span};
use std::alloc::Global;
use std::marker::Model;

// How many blocks a disk has that may be there.
fn size_of<D: Disk>(disk: &Option<D>) -> Option<u32>
    ensures { result ≡ option_map (λ (d : Seen). d.size) (option_map D.seen disk.now) }
{
    match disk {
        Some(disk) => Some(disk.blocks()),
        None => None,
    }
}

/// A shadow set: the shadow's disk, and the states of its chunks in memory and on the bitmap's disk. Each call that
/// needs the master's disk is given it.
#[derive(Drop)]
pub struct Chunks<D: Disk> {
    kind: Kind,
    shadow: Option<D>,
    flip: Flip<D>,
    // The live states, as they lie on the disk.
    memory: Vec<u8>,
    blocks: u32,
    // Room for a chunk.
    buffer: Vec<u8>,
}

impl<D: Disk> Model for Chunks<D> {
    ghost use Rattle.std.specs.Option.{option_map};
    ghost use Rattle.avs_chunk.specs.ChunkSet.{ChunkSet, IsKept};

    ghost Value = { ChunkSet };

    ghost view = { λ s. record { kind = s.kind; shadow = option_map D.seen s.shadow; areas = s.flip; memory = s.memory.items; blocks = s.blocks } };

    ghost invariant = { λ s. IsKept (option_map D.seen s.shadow) s.flip s.memory.items s.buffer.items s.blocks };
}

impl<D: Disk> Chunks<D> {
    /// A new set of so many blocks: each chunk stands on the master alone. Nothing of the shadow is written.
    pub fn make(
        alloc: Global,
        kind: Kind,
        shadow: D,
        mut bitmap: D,
        blocks: u32,
    ) -> Result<Chunks<D>, Closed2<D>>
        requires { 0 < blocks }
        ensures made { IfOk result (λ s. Makes kind (D.seen shadow) (D.seen bitmap) blocks s) }
        ensures refused { IfErr result (λ e. MakeRefused (D.seen shadow) (D.seen bitmap) blocks e.why (D.seen e.parts.0) (D.seen e.parts.1)) }
    {
        let room = match make_room(alloc, Some(shadow.blocks()), bitmap.blocks(), blocks) {
            Ok(room) => room,
            Err(why) => {
                return Err(Back {
                    parts: (shadow, bitmap),
                    why,
                });
            }
        };
        match format(&mut bitmap, blocks, &room.memory) {
            Ok(()) => Ok(Chunks::over(kind, Some(shadow), bitmap, blocks, false, room)),
            Err(Failed) => Err(Back {
                parts: (shadow, bitmap),
                why: Why::Fault,
            }),
        }
    }

    /// The set of so many blocks that stands on these disks, with area B live where `live_b` says so. `BadRecord`
    /// names the field of the label that breaks its rule, or by which it is another one.
    pub fn load(
        alloc: Global,
        kind: Kind,
        shadow: Option<D>,
        mut bitmap: D,
        blocks: u32,
        live_b: bool,
    ) -> Result<Chunks<D>, Back<(Option<D>, D), Why>>
        requires { 0 < blocks }
        ensures loaded { IfOk result (λ s. Loads kind (option_map D.seen shadow) (D.seen bitmap) blocks live_b s) }
        ensures refused { IfErr result (λ e. LoadRefused (option_map D.seen shadow) (D.seen bitmap) blocks e.why (D.seen e.parts.1)) }
        ensures shadow_back { IfErr result (λ e. option_map D.seen e.parts.0 ≡ option_map D.seen shadow) }
        ensures bitmap_back { IfErr result (λ e. D.seen e.parts.1 ≡ record (D.seen bitmap) { faults = (D.seen e.parts.1).faults }) }
        ensures later { IfErr result (λ e. (D.seen bitmap).faults ≤ (D.seen e.parts.1).faults) }
    {
        match find(alloc, size_of(&shadow), &mut bitmap, blocks, live_b) {
            Ok(room) => Ok(Chunks::over(kind, shadow, bitmap, blocks, live_b, room)),
            Err(why) => Err(Back {
                parts: (shadow, bitmap),
                why,
            }),
        }
    }

    /// The set of so many blocks on these disks, with area A live. Nothing is read of its states, and each stands in
    /// memory as on the master alone.
    pub fn found(
        alloc: Global,
        kind: Kind,
        shadow: D,
        bitmap: D,
        blocks: u32,
    ) -> Result<Chunks<D>, Closed2<D>>
        ensures found { IfOk result (λ s. Finds kind (D.seen shadow) (D.seen bitmap) blocks s) }
        ensures refused { IfErr result (λ e. FindRefused (D.seen shadow) (D.seen bitmap) blocks e.why) }
        ensures shadow_back { IfErr result (λ e. D.seen e.parts.0 ≡ D.seen shadow) }
        ensures bitmap_back { IfErr result (λ e. D.seen e.parts.1 ≡ D.seen bitmap) }
    {
        match make_room(alloc, Some(shadow.blocks()), bitmap.blocks(), blocks) {
            Ok(room) => Ok(Chunks::over(kind, Some(shadow), bitmap, blocks, false, room)),
            Err(why) => Err(Back {
                parts: (shadow, bitmap),
                why,
            }),
        }
    }

    // The set over disks and what was read of them.
    fn over(
        kind: Kind,
        shadow: Option<D>,
        bitmap: D,
        blocks: u32,
        live_b: bool,
        room: Room,
    ) -> Chunks<D>
        requires { IsKept (option_map D.seen shadow) (areas_on (D.seen bitmap) blocks live_b) room.memory.items room.buffer.items blocks }
        ensures { result ≡ record { kind = kind; shadow = option_map D.seen shadow; areas = areas_on (D.seen bitmap) blocks live_b; memory = room.memory.items; blocks = blocks } }
    {
        let Room { memory, buffer } = room;
        Chunks {
            kind,
            shadow,
            flip: Flip::load(bitmap, 1, area_len(blocks), live_b),
            memory,
            blocks,
            buffer,
        }
    }

    /// Saves a chunk before the master changes there: where its contents stand on one disk alone they are copied to
    /// the other, and then its state is written.
    pub fn save_before(&mut self, master: &mut D, chunk: u32) -> Result<(), Failed>
        requires chunk { chunk < chunks_of self.old }
        requires blocks { (D.seen master.old).size ≡ self.old.blocks }
        requires can { CanSave self.old }
        ensures { Saves self.old (D.seen master.old) chunk (chunk + 1) result self.new (D.seen master.new) }
    {
        let state = state_in(&self.memory, chunk);
        if state == SPLIT {
            return Ok(());
        }
        let span = seg_span(chunk, self.blocks);
        copy_chunk(state, master, &mut self.shadow, span, &mut self.buffer)?;
        put_state(&mut self.flip, &mut self.memory, chunk, SPLIT)
    }

    /// Saves the chunks from one up to another, one after another. Where it fails, some of them are saved, from the
    /// first on.
    pub fn save_range(&mut self, master: &mut D, first: u32, end: u32) -> Result<(), Failed>
        requires ordered { first ≤ end }
        requires inside { end ≤ chunks_of self.old }
        requires blocks { (D.seen master.old).size ≡ self.old.blocks }
        requires can { CanSave self.old }
        ensures { Saves self.old (D.seen master.old) first end result self.new (D.seen master.new) }
    {
        for chunk in first..end {
            self.save_before(master, chunk)?;
        }
        Ok(())
    }

    // How many of so many blocks from one on stand on one disk, by the states of their chunks.
    fn run_len(&self, at: u32, count: u32) -> u32
        requires some { 0 < count }
        requires inside { at + count ≤ self.now.blocks }
        ensures some { 0 < result }
        ensures within { result ≤ count }
        ensures one { IsOnePlace self.now at result }
    {
        let states = &self.memory;
        let last = seg_count(at + count);
        let end = run_end(states, at / SEGMENT, last);
        if end == last {
            count
        } else {
            SEGMENT * end - at
        }
    }

    // Reads blocks of the shadow that stand on one disk.
    fn read_part(&mut self, master: &mut D, at: u32, out: &mut [u8]) -> Result<(), Failed>
        requires some { 0 < length out.old }
        requires whole { 512 * (length out.old / 512) ≡ length out.old }
        requires inside { at + length out.old / 512 ≤ self.old.blocks }
        requires blocks { (D.seen master.old).size ≡ self.old.blocks }
        requires there { IsTrue (is_some self.old.shadow) }
        requires one { IsOnePlace self.old at (length out.old / 512) }
        ensures reads { ReadsShadow self.old (D.seen master.old) at out.new result self.new (D.seen master.new) }
        ensures len { length out.new ≡ length out.old }
    {
        let alone = state_in(&self.memory, at / SEGMENT) == ON_MASTER;
        read_one(alone, master, &mut self.shadow, at, out)
    }

    /// Reads blocks of the shadow. A failed read may have changed `out`.
    pub fn read(&mut self, master: &mut D, at: u32, out: &mut [u8]) -> Result<(), Failed>
        requires some { 0 < length out.old }
        requires whole { 512 * (length out.old / 512) ≡ length out.old }
        requires inside { at + length out.old / 512 ≤ self.old.blocks }
        requires blocks { (D.seen master.old).size ≡ self.old.blocks }
        requires there { IsTrue (is_some self.old.shadow) }
        ensures { ReadsShadow self.old (D.seen master.old) at out.new result self.new (D.seen master.new) }
    {
        let count = (out.len() / BLOCK) as u32;
        let mut done = 0;
        while done < count {
            let from = at + done;
            let len = self.run_len(from, count - done);
            let part = &mut out[BLOCK * done as usize..BLOCK * (done + len) as usize];
            self.read_part(master, from, part)?;
            done += len;
        }
        Ok(())
    }

    /// Writes blocks of the shadow: the chunks of the range are saved, and then it is written on the shadow's disk.
    pub fn write(&mut self, master: &mut D, at: u32, bytes: &[u8]) -> Result<(), Failed>
        requires some { 0 < length bytes.now }
        requires whole { 512 * (length bytes.now / 512) ≡ length bytes.now }
        requires inside { at + length bytes.now / 512 ≤ self.old.blocks }
        requires blocks { (D.seen master.old).size ≡ self.old.blocks }
        requires there { IsTrue (is_some self.old.shadow) }
        ensures { WritesShadow self.old (D.seen master.old) at bytes.now result self.new (D.seen master.new) }
    {
        let len = (bytes.len() / BLOCK) as u32;
        self.save_range(master, at / SEGMENT, seg_count(at + len))?;
        write_there(&mut self.shadow, at, bytes)
    }

    /// How many chunks stand on the shadow alone.
    pub fn back(&self) -> u32
        ensures counted { result ≡ back_of self.now }
        ensures most { result ≤ 2 ^ 26 }
    {
        count_in(&self.memory, seg_count(self.blocks), ON_SHADOW)
    }

    /// How many chunks of an independent set stand on the master alone. Of a set of another kind none counts.
    pub fn left(&self) -> u32
        ensures counted { result ≡ left_of self.now }
        ensures most { result ≤ 2 ^ 26 }
    {
        match self.kind {
            Kind::Ind => count_in(&self.memory, seg_count(self.blocks), ON_MASTER),
            Kind::Dep | Kind::Compact => 0,
        }
    }

    /// What the set is.
    pub fn kind(&self) -> Kind
        ensures { result ≡ self.now.kind }
    {
        self.kind
    }

    /// Hands the disks back: the shadow's, where it is there, and the bitmap's.
    pub fn into_disks(self) -> (Option<D>, D)
        ensures shadow { option_map D.seen result.0 ≡ self.shadow }
        ensures bitmap { D.seen result.1 ≡ self.areas.disk }
        ensures fits { Fits self.shadow self.areas.disk self.blocks }
        ensures areas { self.areas ≡ areas_on self.areas.disk self.blocks self.areas.live_b }
    {
        let Chunks { shadow, flip, .. } = self;
        (shadow, flip.into_disk())
    }

    /// How many blocks have been written on a disk. The disks that are there are numbered from 0, first the
    /// shadow's and then the bitmap's.
    pub fn written(&self, disk: u32) -> Option<u64>
        ensures { result ≡ written_of self.now disk }
    {
        match &self.shadow {
            Some(shadow) if disk == 0 => Some(shadow.written()),
            Some(_) => self.flip.written(disk - 1),
            None => self.flip.written(disk),
        }
    }

    /// Arms a tear on a disk, which is numbered as in `written`.
    pub fn arm(&mut self, disk: u32, tear: Tear) -> bool
    where
        D: Arm,
        ensures { ArmsOne self.old disk tear result self.new }
    {
        match &mut self.shadow {
            Some(shadow) if disk == 0 => shadow.arm(tear),
            Some(_) => self.flip.arm(disk - 1, tear),
            None => self.flip.arm(disk, tear),
        }
    }
}
