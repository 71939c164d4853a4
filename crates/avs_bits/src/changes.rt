// Bits that are changed in memory and on a disk, block by block.
ghost use Rattle.std.specs.Prelude.{◌≡◌, ◌⊎◌, ◌+◌, ◌-◌, ◌*◌, ◌/◌, ◌<◌, ◌≤◌, ◌^◌, ℕ, true, false, if◌then◌else◌, IsTrue, OnOk, OnErr, length};
ghost use Rattle.avs_seg.specs.Image.{block_at, ChangesWithin};
ghost use Rattle.avs_seg.specs.Causes.{HasCause};
ghost use Rattle.avs_dev.specs.Seen.{IsTold, UsesTear, GoesOn};
ghost use Rattle.avs_bits.specs.Bit.{bit_of, has_other, is_due, due_count, raised, IsPut, IsHeld, IsIdleChange, StopsAt};

use crate::bit_bytes::put_bits;
use avs_dev::Disk;
use avs_seg::{BLOCK, Failed};

// The bits of a block.
pub(crate) const BLOCK_BITS: u32 = 4096;

// Makes bits of one block as `on` says. It is written where one of them was not.
fn change_block<D: Disk>(
    disk: &mut D,
    bytes: &mut Vec<u8>,
    block: u32,
    from: u32,
    to: u32,
    on: bool,
) -> Result<(), Failed>
    requires ordered { from ≤ to }
    requires low { 4096 * block ≤ from }
    requires high { to ≤ 4096 * (block + 1) }
    requires bytes { 512 * (block + 1) ≤ length bytes.old.items }
    requires fits { block < (D.seen disk.old).size }
    ensures len { length bytes.new.items ≡ length bytes.old.items }
    ensures size { (D.seen disk.new).size ≡ (D.seen disk.old).size }
    ensures steady { (D.seen disk.new).steady ≡ (D.seen disk.old).steady }
    ensures told { IsTold (D.seen disk.old) → IsTold (D.seen disk.new) }
    ensures cause { HasCause (D.seen disk.old).faults (D.seen disk.new).faults result }
    ensures goes { GoesOn (D.seen disk.old) result (D.seen disk.new) }
    ensures within { IsTold (D.seen disk.old) → ChangesWithin block 1 (D.seen disk.old).image (D.seen disk.new).image }
    ensures put { IsPut (bit_of bytes.old.items) (bit_of bytes.new.items) from to on }
    ensures written { OnOk result ((D.seen disk.new).written
        ≡ raised (D.seen disk.old).written (if has_other (bit_of bytes.old.items) from to on then 1 else 0)) }
    ensures unwritten { OnErr result ((D.seen disk.new).written ≡ (D.seen disk.old).written) }
    ensures still_armed { OnOk result ((D.seen disk.new).armed ≡ (D.seen disk.old).armed) }
    ensures spent { IsTrue (D.seen disk.old).steady → OnErr result (UsesTear (D.seen disk.old) (D.seen disk.new)) }
    ensures due { OnErr result (has_other (bit_of bytes.old.items) from to on ≡ true) }
    ensures idle { has_other (bit_of bytes.old.items) from to on ≡ false
        → (D.seen disk.new ≡ D.seen disk.old) × (bytes.new.items ≡ bytes.old.items) }
    ensures done { IsTold (D.seen disk.old) → (n : ℕ) → IsHeld (D.seen disk.old).image n (bit_of bytes.old.items)
        → OnOk result (IsHeld (D.seen disk.new).image n (bit_of bytes.new.items)) }
    ensures failed { IsTold (D.seen disk.old) → (n : ℕ) → IsHeld (D.seen disk.old).image n (bit_of bytes.old.items)
        → OnErr result (IsHeld (D.seen disk.new).image n (bit_of bytes.old.items)
        ⊎ IsHeld (D.seen disk.new).image n (bit_of bytes.new.items)) }
{
    if !put_bits(bytes, from, to, on) {
        return Ok(());
    }
    let start = BLOCK * block as usize;
    disk.write(block, &bytes[start..start + BLOCK])
}

// Makes bits as `on` says, block by block, and writes the blocks in which one was not.
pub(crate) fn change<D: Disk>(
    disk: &mut D,
    bytes: &mut Vec<u8>,
    from: u32,
    to: u32,
    on: bool,
) -> Result<(), Failed>
    requires ordered { from ≤ to }
    requires bytes { to ≤ 8 * length bytes.old.items }
    requires whole { 512 * (length bytes.old.items / 512) ≡ length bytes.old.items }
    requires fits { length bytes.old.items / 512 ≤ (D.seen disk.old).size }
    requires small { to < 2 ^ 31 }
    ensures len { length bytes.new.items ≡ length bytes.old.items }
    ensures size { (D.seen disk.new).size ≡ (D.seen disk.old).size }
    ensures steady { (D.seen disk.new).steady ≡ (D.seen disk.old).steady }
    ensures told { IsTold (D.seen disk.old) → IsTold (D.seen disk.new) }
    ensures cause { HasCause (D.seen disk.old).faults (D.seen disk.new).faults result }
    ensures goes { GoesOn (D.seen disk.old) result (D.seen disk.new) }
    ensures within { IsTold (D.seen disk.old)
        → ChangesWithin (from / 4096) ((to + 4095) / 4096 - from / 4096) (D.seen disk.old).image (D.seen disk.new).image }
    ensures still { IsTold (D.seen disk.old) → (k : ℕ) → is_due (bit_of bytes.old.items) from to on k ≡ false
        → block_at (D.seen disk.new).image k ≡ block_at (D.seen disk.old).image k }
    ensures only { (p : ℕ) → (p < from) ⊎ (to ≤ p) → bit_of bytes.new.items p ≡ bit_of bytes.old.items p }
    ensures put { OnOk result (IsPut (bit_of bytes.old.items) (bit_of bytes.new.items) from to on) }
    ensures written { OnOk result ((D.seen disk.new).written
        ≡ raised (D.seen disk.old).written (due_count (bit_of bytes.old.items) from to on)) }
    ensures still_armed { OnOk result ((D.seen disk.new).armed ≡ (D.seen disk.old).armed) }
    ensures done { IsTold (D.seen disk.old) → (n : ℕ) → IsHeld (D.seen disk.old).image n (bit_of bytes.old.items)
        → OnOk result (IsHeld (D.seen disk.new).image n (bit_of bytes.new.items)) }
    ensures stopped { OnErr result (StopsAt (bit_of bytes.old.items) (bit_of bytes.new.items) from to on
        (D.seen disk.old) (D.seen disk.new)) }
    ensures spent { IsTrue (D.seen disk.old).steady → OnErr result (UsesTear (D.seen disk.old) (D.seen disk.new)) }
    ensures idle { ((p : ℕ) → from ≤ p → p < to → bit_of bytes.old.items p ≡ on)
        → IsIdleChange (D.seen disk.old) bytes.old.items result (D.seen disk.new) bytes.new.items }
{
    for block in from / BLOCK_BITS..to.div_ceil(BLOCK_BITS) {
        let low = from.max(BLOCK_BITS * block);
        let high = to.min(BLOCK_BITS * (block + 1));
        change_block(disk, bytes, block, low, high, on)?;
    }
    Ok(())
}
