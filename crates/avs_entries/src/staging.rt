// The entries that an update stages.
ghost use Rattle.std.specs.Prelude.{◌≡◌, ℕ, ◌+◌, ◌*◌, ◌<◌, ◌≤◌, ◌^◌, length};
ghost use Rattle.avs_entries.specs.Entries.{entry_in};
ghost use Rattle.avs_entries.specs.Staging.{AreSetTo, StagesNext, to_master, updated};

use crate::entries::{ChunkState, ENTRIES, entry_for, entry_in, set_entry, slot_by, state_by};
use avs_dev::Disk;
use avs_flip::Flip;
use avs_seg::{BLOCK, Failed};

/// What an update makes of the entries of a set.
#[derive(Clone, Copy)]
pub enum Update {
    /// The shadow becomes its master again.
    ToShadow,
    /// The master becomes its shadow.
    ToMaster,
}

// The entry of a chunk once the master is its shadow.
fn to_master(entry: u32) -> u32
    ensures { result ≡ to_master entry }
{
    if state_by(entry) == ChunkState::Split {
        return entry_for(ChunkState::OnShadow, slot_by(entry));
    }
    entry
}

// What an update makes of an entry.
fn updated(update: Update, entry: u32) -> u32
    ensures { result ≡ updated update entry }
{
    match update {
        Update::ToShadow => 0,
        Update::ToMaster => to_master(entry),
    }
}

/// Sets the entries of a block as an update makes them of those in memory.
pub fn fill_block(next: &mut [u8], memory: &[u8], at: u32, update: Update)
    requires inside { 512 * (at + 1) ≤ length memory.now }
    requires long { length next.old ≡ length memory.now }
    requires small { at < 2 ^ 19 }
    ensures len { length next.new ≡ length next.old }
    ensures set { AreSetTo (entry_in next.old) (entry_in next.new) (λ c. updated update (entry_in memory.now c))
        (128 * at) (128 * (at + 1)) }
{
    for chunk in ENTRIES * at..ENTRIES * (at + 1) {
        set_entry(next, chunk, updated(update, entry_in(memory, chunk)));
    }
}

/// Stages the block with 128 entries.
pub fn stage_next<D: Disk>(flip: &mut Flip<D>, next: &[u8], at: u32) -> Result<(), Failed>
    requires inside { at < flip.old.len }
    requires long { length next.now ≡ 512 * flip.old.len }
    requires first { flip.old.first ≡ 1 }
    ensures { StagesNext flip.old next.now at result flip.new }
{
    let start = BLOCK * at as usize;
    let mut block = [0; BLOCK];
    block.copy_from_slice(&next[start..start + BLOCK]);
    flip.stage(at, &block)
}
