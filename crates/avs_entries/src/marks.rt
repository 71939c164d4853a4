// The table of a set's own slots, which goes with the entries of its chunks.
ghost use Rattle.std.specs.Prelude.{◌≡◌, ℕ, ◌<◌, ◌≤◌, ◌+◌, ◌-◌, ◌*◌, ◌^◌, IfOk, IfErr, None, length, replicate};
ghost use Rattle.avs_entries.specs.Entries.{entry_in, IsEntry};
ghost use Rattle.avs_entries.specs.Slots.{Marks, MarksOne, MarksSlot, AreEntries, HasBadEntry, IsBadMark};

use crate::entries::{entry_in, has_form, slot_by};
use avs_code::BadRecord;

/// How many slots the entries of a set use: its own, and those of an overflow volume.
#[derive(Clone, Copy)]
pub struct Counts {
    pub own: u32,
    pub over: u32,
}

// A rule of the entries is broken.
const BROKEN: u32 = 64;

// Marks the slot of an entry, where it is one of the set's own.
fn mark_one(
    table: &mut [Option<u32>],
    counts: Counts,
    chunk: u32,
    entry: u32,
) -> Result<Counts, BadRecord>
    requires own { counts.own < 2 ^ 32 - 1 }
    requires over { counts.over < 2 ^ 32 - 1 }
    ensures marked { IfOk result (λ after. MarksOne table.old counts chunk entry table.new after) }
    ensures bad { IfErr result (λ e. (e.0 ≡ 64) × IsBadMark table.old entry) }
    ensures len { length table.new ≡ length table.old }
{
    if entry == 0 {
        return Ok(counts);
    }
    let slot = slot_by(entry) as usize;
    if !has_form(entry) {
        return Err(BadRecord(BROKEN));
    }
    if slot >= table.len() {
        return Ok(Counts {
            own: counts.own,
            over: counts.over + 1,
        });
    }
    if table[slot].is_some() {
        return Err(BadRecord(BROKEN));
    }
    table[slot] = Some(chunk);
    Ok(Counts {
        own: counts.own + 1,
        over: counts.over,
    })
}

/// Marks the own slots of the first entries. `BadRecord` tells that one has no form of an entry, or a slot that one before
/// it has too.
pub(crate) fn mark_all(
    table: &mut [Option<u32>],
    bytes: &[u8],
    end: u32,
) -> Result<Counts, BadRecord>
    requires inside { 4 * end ≤ length bytes.now }
    requires free { table.old ≡ replicate (length table.old) None }
    requires small { end < 2 ^ 31 }
    ensures marked { IfOk result (λ counts. Marks (entry_in bytes.now) (length table.old) end table.new counts) }
    ensures bad { IfErr result (λ e. (e.0 ≡ 64) × HasBadEntry (entry_in bytes.now) (length table.old) end) }
    ensures len { length table.new ≡ length table.old }
{
    let mut counts = Counts { own: 0, over: 0 };
    for chunk in 0..end {
        counts = mark_one(table, counts, chunk, entry_in(bytes, chunk))?;
    }
    Ok(counts)
}

/// Marks the own slots of the first entries anew. Where one breaks a rule, all are made zeros.
pub fn mark_anew(table: &mut [Option<u32>], bytes: &mut [u8], end: u32) -> Counts
    requires inside { 4 * end ≤ length bytes.old }
    requires small { end < 2 ^ 31 }
    ensures marked { Marks (entry_in bytes.new) (length table.old) end table.new result }
    ensures long { length bytes.new ≡ length bytes.old }
    ensures whole { AreEntries (entry_in bytes.old) (length table.old) end → bytes.new ≡ bytes.old }
    ensures broken { HasBadEntry (entry_in bytes.old) (length table.old) end → (c : ℕ) → entry_in bytes.new c ≡ 0 }
    ensures zeros { (c : ℕ) → entry_in bytes.old c ≡ 0 → entry_in bytes.new c ≡ 0 }
{
    table.fill(None);
    match mark_all(table, bytes, end) {
        Ok(counts) => counts,
        Err(BadRecord(_)) => {
            table.fill(None);
            bytes.fill(0);
            Counts { own: 0, over: 0 }
        }
    }
}

/// Marks a slot that a chunk takes, and counts it.
pub fn mark_slot(table: &mut [Option<u32>], counts: Counts, chunk: u32, slot: u32) -> Counts
    requires own { counts.own < 2 ^ 32 - 1 }
    requires over { counts.over < 2 ^ 32 - 1 }
    ensures { MarksSlot table.old counts chunk slot table.new result }
{
    if slot as usize >= table.len() {
        return Counts {
            own: counts.own,
            over: counts.over + 1,
        };
    }
    table[slot as usize] = Some(chunk);
    Counts {
        own: counts.own + 1,
        over: counts.over,
    }
}
