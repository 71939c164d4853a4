// Entries that are held in memory until they are known as applied.
ghost use Rattle.std.specs.Prelude.{◌≡◌, ◌+◌, ◌*◌, ◌^◌, ◌<◌, ◌≤◌, ◌↔◌, [], IsSome, OnOk, OnErr, IfOk, IfErr, IfSome, is_err, is_some, false, length};
ghost use Rattle.std.specs.Option.{option_copied};
ghost use Rattle.avs_mqueue.specs.Queue.{next_place, entry_at, IsHeld, blocks_of_entry, is_full, is_full_for, full_of, KeepsLimits, Pushes, Advances};

use avs_model::{Entry, Full, Limits};
use avs_seg::{BLOCK, NoMemory};
use std::alloc::Global;
use std::collections::VecDeque;
use std::marker::Model;

/// A queue in memory: entries with consecutive places, within limits. Its room is reserved when it is made, so that
/// no later call takes memory.
#[derive(Debug, Drop)]
pub struct MemQueue {
    first: u64,
    entries: VecDeque<Entry>,
    blocks: u32,
    limits: Limits,
}

impl Model for MemQueue {
    ghost use Rattle.std.specs.Prelude.{◌≡◌, ◌+◌, ◌^◌, ◌≤◌, sum_by, length};
    ghost use Rattle.std.specs.VecDeque.{deque_len, deque_capacity};
    ghost use Rattle.avs_mqueue.specs.Queue.{Queue, blocks_of_entry};

    ghost Value = { Queue };

    ghost view = { λ q. record { first = q.first; entries = q.entries.items; limits = q.limits } };

    ghost invariant = { λ q. (q.blocks ≡ sum_by blocks_of_entry q.entries.items)
        × (deque_len q.entries ≤ q.limits.writes)
        × (q.limits.writes ≤ deque_capacity q.entries)
        × (q.blocks ≤ q.limits.blocks)
        × (q.first + deque_len q.entries ≤ 2 ^ 62 + 1) };
}

impl MemQueue {
    /// An empty queue with room for as many entries as the limits allow. `block_mode` is not looked at: a full
    /// queue in memory refuses in either mode.
    pub fn new(alloc: Global, limits: Limits) -> Result<MemQueue, NoMemory>
        ensures empty { IfOk result (λ q. q.entries ≡ []) }
        ensures limits { IfOk result (λ q. q.limits ≡ limits) }
        ensures within { IfOk result KeepsLimits }
    {
        Ok(MemQueue {
            first: 1,
            entries: VecDeque::with_capacity(alloc, limits.writes as usize)?,
            blocks: 0,
            limits,
        })
    }

    /// What the queue holds, where it is full for an entry of so many blocks; `None` exactly where such an entry fits.
    pub fn full_for(&self, blocks: usize) -> Option<Full>
        requires { 512 * blocks < 2 ^ 64 }
        ensures full { is_some result ≡ is_full_for self.now blocks }
        ensures numbers { IfSome result (λ full. full ≡ full_of self.now) }
        ensures within { KeepsLimits self.now }
    {
        let held = self.entries.len();
        if held >= self.limits.writes as usize
            || self.blocks as usize + blocks > self.limits.blocks as usize
        {
            return Some(Full {
                writes: held as u32,
                blocks: self.blocks,
            });
        }
        None
    }

    /// Adds an entry that fits at the next place, or at any place where none is held.
    pub fn add(&mut self, place: u64, entry: Entry)
        requires next { 0 < length self.old.entries → place ≡ next_place self.old }
        requires place { place ≤ 2 ^ 62 }
        requires fits { is_full self.old entry ≡ false }
        ensures pushes { Pushes self.old place entry self.new }
        ensures within { KeepsLimits self.new }
    {
        let count = block_count(&entry);
        let held = self.entries.len();
        // Where some are held, the first place stays.
        self.first = place - held as u64;
        self.entries.push_back_reserved(entry);
        self.blocks += count as u32;
    }

    /// Adds an entry at the next place, or at any place where none is held. A full queue hands the entry back, with how
    /// much it holds.
    pub fn push(&mut self, place: u64, entry: Entry) -> Result<(), (Entry, Full)>
        requires next { 0 < length self.old.entries → place ≡ next_place self.old }
        requires place { place ≤ 2 ^ 62 }
        ensures ok { OnOk result (Pushes self.old place entry self.new) }
        ensures within { KeepsLimits self.new }
        ensures full { is_err result ≡ is_full self.old entry }
        ensures numbers { IfErr result (λ e. e.1 ≡ full_of self.old) }
        ensures handed_back { IfErr result (λ e. e.0 ≡ entry) }
        ensures unchanged { OnErr result (self.new ≡ self.old) }
    {
        let count = block_count(&entry);
        if let Some(full) = self.full_for(count) {
            return Err((entry, full));
        }
        self.add(place, entry);
        Ok(())
    }

    /// The entry of a place.
    pub fn get(&self, place: u64) -> Option<&Entry>
        ensures entry { option_copied result ≡ entry_at self.now place }
        ensures held { IsSome result ↔ IsHeld self.now place }
    {
        if place < self.first {
            return None;
        }
        self.entries.get((place - self.first) as usize)
    }

    /// Lets go of each entry at or below a place. The work grows with these entries alone.
    pub fn advance(&mut self, upto: u64)
        ensures advances { Advances self.old upto self.new }
        ensures within { KeepsLimits self.new }
    {
        while self.first <= upto {
            let Some(entry) = self.entries.pop_front() else {
                return;
            };
            self.blocks -= block_count(&entry) as u32;
            self.first += 1;
        }
    }
}

// How many blocks an entry has.
fn block_count(entry: &Entry) -> usize
    ensures count { result ≡ blocks_of_entry entry.now }
    ensures small { 512 * result < 2 ^ 64 }
{
    entry.bytes.as_slice().len() / BLOCK
}
