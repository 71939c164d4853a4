// The mirror sets of a half with their bits.
ghost use Rattle.std.specs.Prelude.{◌≡◌, ◌<◌, IfOk, IfErr, All, map, length, filter};
ghost use Rattle.std.specs.List.{range_with_len};
ghost use Rattle.avs_halves.specs.SetBits.{part_of, set_at, has_bit};
ghost use Rattle.avs_halves.specs.Loading.{HasVolume, LoadsSets, SetsRefused};
ghost use Rattle.avs_halves.specs.Found.{is_filled};

use crate::listing::{list, volumes};
use crate::loading::{close_all, make_room, open_all};
use avs_bits::Bits;
use avs_dev::{Back, Below, Disk, Why};
use avs_seg::{NoMemory, SegList};
use avs_sync::{HalfSet, HalfSets};
use std::alloc::Global;
use std::marker::Model;

// A mirror set: its volume below the half, its slot in the note, and its bits.
#[derive(Drop)]
pub(crate) struct Mirror<D: Disk> {
    pub(crate) vol: u32,
    pub(crate) slot: u32,
    pub(crate) bits: Bits<D>,
}

/// The mirror sets of a half, in byte order of their names, with their bits in memory. A set is named by its place. No
/// call but `load`, `vols` and `listed` takes memory.
#[derive(Drop)]
pub struct MirrorSets<D: Disk> {
    pub(crate) sets: Vec<Mirror<D>>,
    // Empty, with room to take the sets apart.
    room: Vec<HalfSet<D>>,
}

impl<D: Disk> Model for MirrorSets<D> {
    ghost use Rattle.std.specs.Prelude.{◌≡◌, ◌≤◌, List, map, vec_len, vec_capacity};
    ghost use Rattle.avs_halves.specs.SetBits.{SetBits};

    ghost Value = { List SetBits };

    ghost use Rattle.avs_halves.specs.MirrorView.{set_bits};

    ghost view = { λ m. map set_bits m.sets.items };

    ghost invariant = { λ m. (vec_len m.room ≡ 0) × (vec_len m.sets ≤ vec_capacity m.room) };
}

impl<D: Disk> MirrorSets<D> {
    /// The sets of a half as they are found on their disks. `BadRecord` names the field of a bitmap's label that breaks its
    /// rule, and is 64 where a disk is too small.
    pub fn load<B: Below>(
        alloc: Global,
        sets: HalfSets<D>,
        below: &B,
    ) -> Result<MirrorSets<D>, Back<HalfSets<D>, Why>>
        requires { All (HasVolume (B.seen below.now).sizes) sets }
        ensures loads { IfOk result (λ m. LoadsSets (B.seen below.now).sizes sets m) }
        ensures refused { IfErr result (λ e. SetsRefused (B.seen below.now).sizes sets e.why e.parts) }
    {
        let mut room = sets.into_vec();
        let mut sets = match make_room(alloc, room.len()) {
            Ok(sets) => sets,
            Err(NoMemory) => {
                return Err(Back {
                    parts: HalfSets::new(room),
                    why: Why::NoMemory,
                });
            }
        };
        room.reverse();
        match open_all(alloc, &mut room, &mut sets, below) {
            Ok(()) => Ok(MirrorSets { sets, room }),
            Err(why) => Err(Back {
                parts: HalfSets::new(close_all(sets, room)),
                why,
            }),
        }
    }

    /// Takes the sets apart.
    pub fn into_sets(self) -> HalfSets<D>
        ensures { result ≡ map part_of self }
    {
        let MirrorSets { sets, room } = self;
        HalfSets::new(close_all(sets, room))
    }

    /// The volumes of the sets, in order.
    pub fn vols(&self, alloc: Global) -> Result<Vec<u32>, NoMemory>
        ensures { IfOk result (λ v. v.items ≡ map (λ s. s.vol) self.now) }
    {
        volumes(alloc, &self.sets)
    }

    /// How many sets there are.
    pub fn count(&self) -> usize
        ensures { result ≡ length self.now }
    {
        self.sets.len()
    }

    /// The volume of a set.
    pub fn vol(&self, set: u32) -> u32
        requires { set < length self.now }
        ensures { result ≡ (set_at self.now set).vol }
    {
        self.sets[set as usize].vol
    }

    /// The slot of a set in the note.
    pub fn slot(&self, set: u32) -> u32
        requires { set < length self.now }
        ensures { result ≡ (set_at self.now set).slot }
    {
        self.sets[set as usize].slot
    }

    /// Whether the slot of a set is not one of those without contents.
    pub fn is_filled(&self, empty: u16, set: u32) -> bool
        requires set { set < length self.now }
        requires slot { (set_at self.now set).slot < 16 }
        ensures { result ≡ is_filled empty (set_at self.now set).slot }
    {
        empty >> self.slot(set) & 1 != 1
    }

    /// How many segments a set has.
    pub fn segs(&self, set: u32) -> u32
        requires { set < length self.now }
        ensures { result ≡ (set_at self.now set).bits.segs }
    {
        self.sets[set as usize].bits.segs()
    }

    /// Whether a segment of a set has a bit.
    pub fn has(&self, set: u32, seg: u32) -> bool
        requires set { set < length self.now }
        requires seg { seg < (set_at self.now set).bits.segs }
        ensures { result ≡ has_bit (set_at self.now set) seg }
    {
        self.sets[set as usize].bits.has(seg)
    }

    /// The segments of a set that have bits, rising.
    pub fn listed(&self, alloc: Global, set: u32) -> Result<SegList, NoMemory>
        requires { set < length self.now }
        ensures { IfOk result (λ l. l ≡ filter (has_bit (set_at self.now set)) (range_with_len 0 (set_at self.now set).bits.segs)) }
    {
        list(alloc, &self.sets[set as usize].bits)
    }
}
