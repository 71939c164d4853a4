// Which sets have contents.
ghost use Rattle.std.specs.Prelude.{◌≤◌, length};
ghost use Rattle.avs_sender.specs.Kept.{HaveSlots};
ghost use Rattle.avs_sender.specs.Beginning.{TellsFilled};

use avs_dev::Disk;
use avs_halves::MirrorSets;

// Whether all sets have contents.
pub(crate) fn are_filled<D: Disk>(sets: &MirrorSets<D>, empty: u16) -> bool
    requires few { length sets.now ≤ 16 }
    requires slots { HaveSlots sets.now }
    ensures { TellsFilled sets.now empty result }
{
    for set in 0..sets.count() {
        if !sets.is_filled(empty, set as u32) {
            return false;
        }
    }
    true
}
