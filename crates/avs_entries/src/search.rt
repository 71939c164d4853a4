// The first chunk of a set whose entry passes a test.
ghost use Rattle.std.specs.Prelude.{◌≡◌, ◌-◌, ◌*◌, ◌<◌, ◌≤◌, IfSome, IfNone, true, false, length};
ghost use Rattle.avs_entries.specs.Entries.{entry_in, slot_by};
ghost use Rattle.avs_entries.specs.Counting.{FindsOver, is_over};

use crate::entries::{entry_in, slot_by};

// The slot of the overflow volume that an entry tells.
fn over_slot(entry: u32, own: u32) -> Option<u32>
    ensures some { IfSome result (λ slot. (is_over own entry ≡ true) × (slot ≡ slot_by entry - own)) }
    ensures none { IfNone result (is_over own entry ≡ false) }
{
    if entry == 0 || slot_by(entry) < own {
        return None;
    }
    Some(slot_by(entry) - own)
}

/// The least chunk from one on, below an end, that has a slot of the overflow volume, with that slot.
pub fn first_over(bytes: &[u8], own: u32, from: u32, end: u32) -> Option<(u32, u32)>
    requires { 4 * end ≤ length bytes.now }
    ensures { FindsOver (entry_in bytes.now) own from end result }
{
    for chunk in from..end {
        if let Some(slot) = over_slot(entry_in(bytes, chunk), own) {
            return Some((chunk, slot));
        }
    }
    None
}
