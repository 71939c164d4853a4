// How many slots a set needs and has, and how many of its chunks are in a state.
ghost use Rattle.std.specs.Prelude.{◌≡◌, ◌-◌, ◌<◌, ◌≤◌, ◌^◌, IsTrue, not, IsOk, IfOk};
ghost use Rattle.avs_over.specs.Over.{slots, used};
ghost use Rattle.avs_entries.specs.Entries.{code_of, state_by, on_shadow, split};
ghost use Rattle.avs_entries.specs.Counting.{count_of, FindsOver, is_in};
ghost use Rattle.avs_compact.specs.CompactSet.{chunks_of, entry_of, over_of, need_of, over_used, room_of, room_by_rule, HasTaken};
ghost use Rattle.avs_compact.specs.Calls.{AreThere, LacksSlot};
ghost use Rattle.avs_compact.specs.Keeping.{UsesOwnFirst};

use crate::compact::Compact;
use avs_dev::Disk;
use avs_entries::{ChunkState, entry_in, first_over, state_by};
use avs_over::Over;
use avs_seg::{Failed, seg_count};

// The free slots of an overflow volume that may be there.
fn free_of<D: Disk>(over: &Option<Over<D>>) -> u32
    ensures is { result ≡ slots (over_of over.now) - used (over_of over.now) }
    ensures few { result < 2 ^ 26 }
{
    match over {
        Some(over) => over.slots() - over.used(),
        None => 0,
    }
}

// How many slots an overflow volume has that may be there.
fn slots_of<D: Disk>(over: &Option<Over<D>>) -> u32
    ensures { result ≡ slots (over_of over.now) }
{
    match over {
        Some(over) => over.slots(),
        None => 0,
    }
}

impl<D: Disk> Compact<D> {
    /// Whether the slots that stand in the set's entries are there, in this overflow volume.
    pub fn is_served(&self, over: &Option<Over<D>>) -> bool
        ensures served { IsTrue result → AreThere self.now (over_of over.now) }
        ensures lacks { IsTrue (not result) → LacksSlot self.now (over_of over.now) }
    {
        self.tally.fits(slots_of(over))
    }

    /// How many slots the set needs: one for each chunk that was touched. Where its own ones come first and none is kept, it
    /// uses of the overflow volume what it needs beyond them.
    pub fn need(&self) -> u32
        ensures counted { result ≡ need_of self.now }
        ensures most { result ≤ chunks_of self.now }
        ensures beyond { UsesOwnFirst self.now → self.now.ahead ≡ 0 → over_used self.now ≡ result - self.now.own }
    {
        self.counts.own + self.counts.over
    }

    /// How many slots the set has room for: its own, and those of its overflow volume that no other set has taken. Slots
    /// that are kept for chunks copied ahead are not among them.
    pub fn room(&self, over: &Option<Over<D>>) -> u32
        ensures is { result ≡ room_of self.now (over_of over.now) }
        ensures by_rule { HasTaken self.now (over_of over.now) → result ≡ room_by_rule self.now (over_of over.now) }
    {
        self.own - self.ahead + self.counts.over + free_of(over)
    }

    /// How many chunks stand in their slots alone.
    pub fn back(&self) -> u32
        ensures counted { result ≡ count_of (is_in on_shadow) (entry_of self.now) (chunks_of self.now) }
        ensures most { result ≤ chunks_of self.now }
    {
        self.tally.back
    }

    /// How many chunks are split.
    pub fn moved(&self) -> u32
        ensures counted { result ≡ count_of (is_in split) (entry_of self.now) (chunks_of self.now) }
        ensures most { result ≤ chunks_of self.now }
    {
        self.tally.split
    }

    /// How many chunks are still to be copied to the shadow: none of a dependent set.
    pub fn left(&self) -> u32
        ensures { result ≡ 0 }
    {
        0
    }

    /// Where the contents of a chunk stand.
    pub fn state(&self, chunk: u32) -> ChunkState
        requires { chunk < chunks_of self.now }
        ensures { code_of result ≡ state_by (entry_of self.now chunk) }
    {
        state_by(entry_in(&self.memory, chunk))
    }

    /// The least chunk from one on that has a slot of the overflow volume, with that slot.
    pub fn next_over(&self, from: u32) -> Result<Option<(u32, u32)>, Failed>
        ensures ok { IsOk result }
        ensures found { IfOk result (λ found. FindsOver (entry_of self.now) self.now.own from (chunks_of self.now) found) }
    {
        let end = seg_count(self.blocks);
        Ok(first_over(&self.memory, self.own, from, end))
    }
}
