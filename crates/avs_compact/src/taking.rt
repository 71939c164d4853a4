// The next slot that a set takes.
ghost use Rattle.std.specs.Prelude.{◌≡◌, ◌≢◌, ◌+◌, ◌<◌, ◌^◌, IsTrue, not, IfSome, None, is_some, length};
ghost use Rattle.avs_over.specs.Slots.{owner_at, FindsFree};
ghost use Rattle.avs_compact.specs.CompactSet.{over_of};
ghost use Rattle.avs_over.specs.Over.{Takes};
ghost use Rattle.avs_compact.specs.Steps.{TakesSlot};

use avs_dev::Disk;
use avs_over::Over;

// Whether no chunk has a slot.
fn is_free(table: &[Option<u32>], slot: usize) -> bool
    requires { slot < length table.now }
    ensures free { IsTrue result → owner_at table.now slot ≡ None }
    ensures other { IsTrue (not result) → owner_at table.now slot ≢ None }
{
    table[slot].is_none()
}

// The least slot of a table from one on that no chunk has.
fn first_free(table: &[Option<u32>], from: usize) -> Option<usize>
    ensures { FindsFree table.now from result }
{
    for slot in from..table.len() {
        if is_free(table, slot) {
            return Some(slot);
        }
    }
    None
}

// The least free slot of an overflow volume, which is given to a set.
fn take_over<D: Disk>(over: &mut Option<Over<D>>, set: u32) -> Option<u32>
    ensures taken { Takes (over_of over.old) set result (over_of over.new) }
    ensures small { IfSome result (λ slot. slot < 2 ^ 26) }
    ensures still { is_some over.new ≡ is_some over.old }
{
    match over {
        Some(over) => {
            let _few = over.slots();
            over.take(set)
        }
        None => None,
    }
}

/// Takes a slot for a set: the least one of its own from one on that no chunk has, and where each has one, the least free
/// one of its overflow volume.
pub(crate) fn take_slot<D: Disk>(
    table: &[Option<u32>],
    low: u32,
    set: u32,
    over: &mut Option<Over<D>>,
) -> Option<u32>
    requires few { length table.now < 2 ^ 26 }
    ensures takes { TakesSlot table.now low set (over_of over.old) result (over_of over.new) }
    ensures small { IfSome result (λ slot. slot < 2 ^ 27) }
    ensures still { is_some over.new ≡ is_some over.old }
{
    if let Some(slot) = first_free(table, low as usize) {
        return Some(slot as u32);
    }
    let slot = take_over(over, set)?;
    Some(table.len() as u32 + slot)
}
