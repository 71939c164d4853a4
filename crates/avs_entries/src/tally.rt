// Sums over the entries of a set, which are kept beside them.
ghost use Rattle.std.specs.Prelude.{◌≡◌, ◌+◌, ◌*◌, ◌<◌, ◌≤◌, ◌^◌, IsTrue, not, true, if◌then◌else◌, length};
ghost use Rattle.avs_entries.specs.Entries.{entry_in, code_of};
ghost use Rattle.avs_entries.specs.Counting.{count_of, is_in};
ghost use Rattle.avs_entries.specs.Tallied.{AreTallied, AreFew, HasOne, Changes, IsReach, reach_of};

use crate::entries::{ChunkState, entry_in, slot_by, state_by};

/// How many chunks of a set stand in their slots alone, how many are split, and how many slots an overflow volume has at
/// least that has those in its entries.
#[derive(Clone, Copy)]
pub struct Tally {
    pub back: u32,
    pub split: u32,
    pub reach: u32,
}

// 1 where an entry tells a state.
fn one_in(entry: u32, state: ChunkState) -> u32
    ensures { result ≡ (if is_in (code_of state) entry then 1 else 0) }
{
    if state_by(entry) == state { 1 } else { 0 }
}

// How many of the first entries tell a state.
fn count_in(bytes: &[u8], end: u32, state: ChunkState) -> u32
    requires { 4 * end ≤ length bytes.now }
    ensures { result ≡ count_of (is_in (code_of state)) (entry_in bytes.now) end }
{
    let mut count = 0;
    for chunk in 0..end {
        count += one_in(entry_in(bytes, chunk), state);
    }
    count
}

// A count of chunks in a state once the entry of one is another.
fn recounted(count: u32, state: ChunkState, from: u32, to: u32) -> u32
    requires some { is_in (code_of state) from ≡ true → 0 < count }
    requires few { count < 2 ^ 31 }
    ensures { result + (if is_in (code_of state) from then 1 else 0) ≡ count + (if is_in (code_of state) to then 1 else 0) }
{
    count - one_in(from, state) + one_in(to, state)
}

// How many slots an overflow volume has at least that has the one of an entry.
fn reach_of(entry: u32, own: u32) -> u32
    ensures { result ≡ reach_of own entry }
{
    if entry == 0 {
        return 0;
    }
    let slot = slot_by(entry);
    if slot < own {
        return 0;
    }
    slot - own + 1
}

// How many it has at least that has those of the first entries.
fn reach_in(bytes: &[u8], own: u32, end: u32) -> u32
    requires { 4 * end ≤ length bytes.now }
    ensures { IsReach (entry_in bytes.now) own end result }
{
    let mut reach = 0;
    for chunk in 0..end {
        reach = reach_of(entry_in(bytes, chunk), own).max(reach);
    }
    reach
}

impl Tally {
    /// That of the first entries.
    pub fn of(bytes: &[u8], own: u32, end: u32) -> Tally
        requires { 4 * end ≤ length bytes.now }
        ensures { AreTallied (entry_in bytes.now) own end result }
    {
        Tally {
            back: count_in(bytes, end, ChunkState::OnShadow),
            split: count_in(bytes, end, ChunkState::Split),
            reach: reach_in(bytes, own, end),
        }
    }

    /// Whether so many slots of an overflow volume are enough.
    pub fn fits(self, slots: u32) -> bool
        ensures enough { IsTrue result → self.reach ≤ slots }
        ensures few { IsTrue (not result) → slots < self.reach }
    {
        self.reach <= slots
    }

    /// The tally once the entry of a chunk is another.
    pub fn changed(self, own: u32, from: u32, to: u32) -> Tally
        requires one { HasOne self from }
        requires few { AreFew self }
        ensures { Changes self own from to result }
    {
        Tally {
            back: recounted(self.back, ChunkState::OnShadow, from, to),
            split: recounted(self.split, ChunkState::Split, from, to),
            reach: reach_of(to, own).max(self.reach),
        }
    }
}
