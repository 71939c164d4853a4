// A compact set over the disk of its master.
ghost use Rattle.std.specs.Prelude.{◌≡◌, ◌+◌, ◌*◌, ◌/◌, ◌<◌, ◌≤◌, ◌^◌, IfOk, IfErr, None, Some, is_some, length};
ghost use Rattle.std.specs.Option.{option_map};
ghost use Rattle.avs_seg.specs.Segment.{seg_count};
ghost use Rattle.avs_entries.specs.Entries.{entry_in};
ghost use Rattle.avs_entries.specs.Slots.{AreEntries, Marks};
ghost use Rattle.avs_entries.specs.Bitmap.{LoadRefused, Fits, areas_on};
ghost use Rattle.avs_compact.specs.CompactSet.{chunks_of, entry_of};
ghost use Rattle.avs_compact.specs.Kept.{IsKept, AreHeld};
ghost use Rattle.avs_compact.specs.Making.{Makes, MakeRefused, Loads, own_of};

use avs_dev::{Back, Closed2, Disk, Why};
use avs_entries::{Counts, Found, Room, Tally, area_len, find, format, make_room, map_anew};
use avs_flip::Flip;
use avs_seg::{Failed, SEGMENT, seg_count};
use std::alloc::Global;
use std::marker::Model;

// How many slots a disk has that may be there.
fn own_of<D: Disk>(disk: &Option<D>) -> u32
    ensures is { result ≡ own_of (option_map D.seen disk.now) }
    ensures few { result < 2 ^ 26 }
{
    match disk {
        Some(disk) => disk.blocks() / SEGMENT,
        None => 0,
    }
}

/// A compact set: the shadow's disk, and the entries of its chunks in memory and on the bitmap's disk. Each call that
/// needs the master's disk, or the overflow volume, is given it.
#[derive(Drop)]
pub struct Compact<D: Disk> {
    pub(crate) set: u32,
    pub(crate) own: u32,
    pub(crate) shadow: Option<D>,
    pub(crate) flip: Flip<D>,
    // The live entries, as they lie on the disk.
    pub(crate) memory: Vec<u8>,
    // The staged entries, as they lie on the disk once all parts are staged.
    pub(crate) next: Vec<u8>,
    // For each own slot the chunk that has it.
    pub(crate) table: Vec<Option<u32>>,
    pub(crate) counts: Counts,
    // What the live entries come to.
    pub(crate) tally: Tally,
    // Each own slot below this one has a chunk, or is kept for one that was copied ahead.
    pub(crate) low: u32,
    // How many of them are kept.
    pub(crate) ahead: u32,
    // No chunk below this one stands in its slot alone.
    pub(crate) due: u32,
    // A bit for each chunk, which is set where it does.
    pub(crate) map: Vec<u8>,
    pub(crate) blocks: u32,
    // Room for a chunk.
    pub(crate) buffer: Vec<u8>,
}

impl<D: Disk> Model for Compact<D> {
    ghost use Rattle.std.specs.Prelude.{◌≡◌, length};
    ghost use Rattle.std.specs.Option.{option_map};
    ghost use Rattle.avs_seg.specs.Segment.{seg_count};
    ghost use Rattle.avs_entries.specs.Entries.{entry_in};
    ghost use Rattle.avs_entries.specs.Counting.{IsMapped};
    ghost use Rattle.avs_entries.specs.Slots.{Marks};
    ghost use Rattle.avs_entries.specs.Tallied.{AreTallied};
    ghost use Rattle.avs_compact.specs.CompactSet.{CompactSet};
    ghost use Rattle.avs_compact.specs.Kept.{IsKept, AreHeld, ArePassed};

    ghost Value = { CompactSet };

    ghost view = { λ s. record { set = s.set; own = s.own; shadow = option_map D.seen s.shadow; areas = s.flip; memory = s.memory.items; next = s.next.items; blocks = s.blocks; low = s.low; ahead = s.ahead } };

    ghost invariant = { λ s. IsKept (option_map D.seen s.shadow) s.own s.flip s.blocks
        × Marks (entry_in s.memory.items) s.own (seg_count s.blocks) s.table.items s.counts
        × ArePassed (entry_in s.memory.items) (seg_count s.blocks) s.table.items s.low s.ahead s.due
        × AreTallied (entry_in s.memory.items) s.own (seg_count s.blocks) s.tally
        × AreHeld s.flip s.memory.items s.next.items s.blocks
        × (length s.buffer.items ≡ 32768)
        × IsMapped (entry_in s.memory.items) (seg_count s.blocks) s.map.items };
}

impl<D: Disk> Compact<D> {
    /// A new set of so many blocks, which takes slots of an overflow volume by the number `set`: no chunk has a slot.
    /// Nothing of the shadow is written.
    pub fn make(
        alloc: Global,
        set: u32,
        shadow: D,
        mut bitmap: D,
        blocks: u32,
    ) -> Result<Compact<D>, Closed2<D>>
        requires { 0 < blocks }
        ensures made { IfOk result (λ s. Makes set (D.seen shadow) (D.seen bitmap) blocks s) }
        ensures refused { IfErr result (λ e. MakeRefused (D.seen bitmap) blocks e.why (D.seen e.parts.1)) }
        ensures shadow_back { IfErr result (λ e. D.seen e.parts.0 ≡ D.seen shadow) }
    {
        let own = shadow.blocks() / SEGMENT;
        let room = match make_room(alloc, own, bitmap.blocks(), blocks) {
            Ok(room) => room,
            Err(why) => {
                return Err(Back {
                    parts: (shadow, bitmap),
                    why,
                });
            }
        };
        match format(&mut bitmap, blocks, &room.memory) {
            Ok(()) => Ok(Compact::over(
                set,
                own,
                Some(shadow),
                bitmap,
                blocks,
                false,
                Found {
                    room,
                    counts: Counts { own: 0, over: 0 },
                },
            )),
            Err(Failed) => Err(Back {
                parts: (shadow, bitmap),
                why: Why::Fault,
            }),
        }
    }

    /// The set of so many blocks that stands on these disks, with area B live where `live_b` says so. `BadRecord`
    /// names the field of the label that breaks its rule, or by which it is another one; 64 tells that an entry has no
    /// form of one, or that two have the same of the set's own slots. Without a shadow's disk the set has no own slots.
    pub fn load(
        alloc: Global,
        set: u32,
        shadow: Option<D>,
        mut bitmap: D,
        blocks: u32,
        live_b: bool,
    ) -> Result<Compact<D>, Back<(Option<D>, D), Why>>
        requires { 0 < blocks }
        ensures loaded { IfOk result (λ s. Loads set (option_map D.seen shadow) (D.seen bitmap) blocks live_b s) }
        ensures refused { IfErr result
            (λ e. LoadRefused (own_of (option_map D.seen shadow)) (D.seen bitmap) blocks live_b e.why (D.seen e.parts.1)) }
        ensures shadow_back { IfErr result (λ e. option_map D.seen e.parts.0 ≡ option_map D.seen shadow) }
    {
        let own = own_of(&shadow);
        match find(alloc, own, &mut bitmap, blocks, live_b) {
            Ok(found) => Ok(Compact::over(set, own, shadow, bitmap, blocks, live_b, found)),
            Err(why) => Err(Back {
                parts: (shadow, bitmap),
                why,
            }),
        }
    }

    // The set over disks and what was read of them.
    fn over(
        set: u32,
        own: u32,
        shadow: Option<D>,
        bitmap: D,
        blocks: u32,
        live_b: bool,
        found: Found,
    ) -> Compact<D>
        requires kept { IsKept (option_map D.seen shadow) own (areas_on (D.seen bitmap) blocks live_b) blocks }
        requires held { AreHeld (areas_on (D.seen bitmap) blocks live_b) found.room.memory.items found.room.next.items blocks }
        requires buffer { length found.room.buffer.items ≡ 32768 }
        requires map { length found.room.map.items ≡ (seg_count blocks + 7) / 8 }
        requires marked { Marks (entry_in found.room.memory.items) own (seg_count blocks) found.room.table.items found.counts }
        ensures { result ≡ record {
          set = set;
          own = own;
          shadow = option_map D.seen shadow;
          areas = areas_on (D.seen bitmap) blocks live_b;
          memory = found.room.memory.items;
          next = found.room.next.items;
          blocks = blocks;
          low = 0;
          ahead = 0;
        } }
    {
        let Found { room, counts } = found;
        let Room {
            memory,
            next,
            table,
            buffer,
            mut map,
        } = room;
        map_anew(&mut map, &memory, seg_count(blocks));
        Compact {
            set,
            own,
            shadow,
            flip: Flip::load(bitmap, 1, area_len(blocks), live_b),
            tally: Tally::of(&memory, own, seg_count(blocks)),
            memory,
            next,
            table,
            counts,
            low: 0,
            ahead: 0,
            due: 0,
            map,
            blocks,
            buffer,
        }
    }

    /// How many blocks the set has.
    pub fn blocks(&self) -> u32
        ensures { result ≡ self.now.blocks }
    {
        self.blocks
    }

    /// How many chunks the set has.
    pub fn chunks(&self) -> u32
        ensures { result ≡ chunks_of self.now }
    {
        seg_count(self.blocks)
    }

    /// How many slots of its own the set has.
    pub fn own(&self) -> u32
        ensures { result ≡ self.now.own }
    {
        self.own
    }

    /// A law: entries in memory keep their form, and no own slot stands in two. It makes no call of a disk.
    pub fn keeps_form(&self)
        ensures { AreEntries (entry_of self.now) self.now.own (chunks_of self.now) }
    {
        let _own = self.own;
    }

    /// Whether the shadow's disk is there.
    pub fn has_shadow(&self) -> bool
        ensures { result ≡ is_some self.now.shadow }
    {
        self.shadow.is_some()
    }

    /// Takes the shadow's disk out, where it is there.
    pub fn take_shadow(&mut self) -> Option<D>
        ensures taken { option_map D.seen result ≡ self.old.shadow }
        ensures rest { self.new ≡ record self.old { shadow = None } }
    {
        self.shadow.take()
    }

    /// Puts a shadow's disk in, where none is there.
    pub fn give_shadow(&mut self, shadow: D)
        requires none { self.old.shadow ≡ None }
        requires room { 64 * self.old.own ≤ (D.seen shadow).size }
        ensures { self.new ≡ record self.old { shadow = Some (D.seen shadow) } }
    {
        self.shadow = Some(shadow);
    }

    /// Hands the disks back: the shadow's, where it is there, and the bitmap's.
    pub fn into_disks(self) -> (Option<D>, D)
        ensures shadow { option_map D.seen result.0 ≡ self.shadow }
        ensures bitmap { D.seen result.1 ≡ self.areas.disk }
        ensures fits { Fits self.areas.disk.size self.blocks }
        ensures areas { self.areas ≡ areas_on self.areas.disk self.blocks self.areas.live_b }
    {
        let Compact { shadow, flip, .. } = self;
        (shadow, flip.into_disk())
    }
}
