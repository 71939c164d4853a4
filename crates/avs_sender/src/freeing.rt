// Segments that a known place frees.
ghost use Rattle.std.specs.Prelude.{◌≡◌, ◌<◌, ◌≤◌, ◌&&◌, ℕ, false, OnOk, length, map};
ghost use Rattle.avs_halves.specs.SetBits.{set_at};
ghost use Rattle.avs_halves.specs.Changing.{ChangesSets, keys_of};
ghost use Rattle.avs_sender.specs.SenderView.{set_places};
ghost use Rattle.avs_sender.specs.Waits.{waits_at};
ghost use Rattle.avs_sender.specs.Freeing.{AreSizedAs, CanFree, FreesEach, FreesPlaces, SizedAs, freed_keys, freed_segs, set_places_at};

use crate::tracked::Tracked;
use avs_dev::Disk;
use avs_halves::MirrorSets;
use avs_seg::Failed;

impl Tracked {
    // Whether a segment keeps its bit where a place frees it: one does that waits, while segments are copied.
    fn keeps(&self, copying: bool, seg: u32) -> bool
        requires { seg < length self.now.waiting }
        ensures { result ≡ (copying && waits_at self.now.waiting seg) }
    {
        copying && self.waiting.has(seg)
    }
}

// Frees the segments of a set whose greatest place is at or below this one: the bit of each goes, unless it waits to be
// copied.
fn free<D: Disk>(
    sets: &mut MirrorSets<D>,
    tracked: &mut Tracked,
    set: u32,
    copying: bool,
    upto: u64,
) -> Result<(), Failed>
    requires set { set < length sets.old }
    requires can { CanFree (set_at sets.old set) (set_places tracked.old) }
    ensures changes { ChangesSets (keys_of set (freed_segs copying (set_places tracked.old) upto)) false sets.old result sets.new }
    ensures frees { OnOk result (FreesPlaces (set_places tracked.old) upto (set_places tracked.new)) }
    ensures sized { SizedAs (set_places tracked.old) (set_places tracked.new) }
{
    tracked.touched.retire(upto);
    while let Some(seg) = tracked.touched.next_idle() {
        if !tracked.keeps(copying, seg) {
            sets.clear(set, seg)?;
        }
    }
    Ok(())
}

// Frees the segments of all sets.
pub(crate) fn free_all<D: Disk>(
    sets: &mut MirrorSets<D>,
    tracked: &mut [Tracked],
    copying: bool,
    upto: u64,
) -> Result<(), Failed>
    requires count { length tracked.old ≡ length sets.old }
    requires few { length sets.old ≤ 16 }
    requires can { (set : ℕ) → set < length sets.old → CanFree (set_at sets.old set) (set_places_at (map set_places tracked.old) set) }
    ensures changes { ChangesSets (freed_keys copying (map set_places tracked.old) upto) false sets.old result sets.new }
    ensures frees { OnOk result (FreesEach (map set_places tracked.old) upto (map set_places tracked.new)) }
    ensures sized { AreSizedAs (map set_places tracked.old) (map set_places tracked.new) }
{
    for set in 0..tracked.len() {
        free(sets, &mut tracked[set], set as u32, copying, upto)?;
    }
    Ok(())
}
