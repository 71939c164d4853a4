// Places of the segments of all sets.
ghost use Rattle.std.specs.Prelude.{◌≡◌, ◌<◌, ◌≤◌, ℕ, false, IfOk, length, map, replicate, slice_index_or};
ghost use Rattle.avs_halves.specs.SetBits.{has_bit, set_at};
ghost use Rattle.avs_sender.specs.SenderView.{set_places};
ghost use Rattle.avs_sender.specs.Places.{NoneWaits, WaitsForBits, places_for};

use crate::tracked::Tracked;
use avs_dev::Disk;
use avs_halves::MirrorSets;
use avs_seg::NoMemory;
use std::alloc::Global;

// No segment of the sets is touched, and none waits; there is room for so many places of each.
pub(crate) fn track<D: Disk>(
    alloc: Global,
    sets: &MirrorSets<D>,
    places: u32,
) -> Result<Vec<Tracked>, NoMemory>
    requires { length sets.now ≤ 16 }
    ensures { IfOk result (λ t. map set_places t.items ≡ places_for places sets.now) }
{
    let mut tracked = Vec::new(alloc);
    for set in 0..sets.count() {
        let segs = sets.segs(set as u32);
        tracked.push(Tracked::new(alloc, segs, places)?)?;
    }
    Ok(tracked)
}

// Each segment of a set that has a bit waits.
fn wait<D: Disk>(sets: &MirrorSets<D>, set: u32, tracked: &mut Tracked)
    requires set { set < length sets.now }
    requires none { tracked.old.waiting ≡ replicate (set_at sets.now set).bits.segs false }
    ensures touched { tracked.new.touched ≡ tracked.old.touched }
    ensures segs { length tracked.new.waiting ≡ length tracked.old.waiting }
    ensures waits { (seg : ℕ) → slice_index_or tracked.new.waiting seg false ≡ has_bit (set_at sets.now set) seg }
{
    for seg in 0..sets.segs(set) {
        if sets.has(set, seg) {
            tracked.waiting.insert(seg);
        }
    }
}

// Each segment that has a bit waits.
pub(crate) fn wait_all<D: Disk>(sets: &MirrorSets<D>, tracked: &mut Vec<Tracked>)
    requires few { length sets.now ≤ 16 }
    requires none { NoneWaits sets.now (map set_places tracked.old.items) }
    ensures { WaitsForBits sets.now (map set_places tracked.old.items) (map set_places tracked.new.items) }
{
    for set in 0..sets.count() {
        wait(sets, set as u32, &mut tracked[set]);
    }
}
