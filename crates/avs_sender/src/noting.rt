// Bits of segments that are named in lists.
ghost use Rattle.std.specs.Prelude.{◌≤◌, true, length};
ghost use Rattle.avs_halves.specs.Changing.{ChangesSets};
ghost use Rattle.avs_sender.specs.Noting.{AreLists, in_lists};

use avs_dev::Disk;
use avs_halves::{MirrorSets, note_list};
use avs_seg::{Failed, SegList};

// Sets the bits of segments of each set.
pub(crate) fn note_lists<D: Disk>(sets: &mut MirrorSets<D>, lists: &[SegList]) -> Result<(), Failed>
    requires few { length sets.old ≤ 16 }
    requires lists { AreLists sets.old lists.now }
    ensures { ChangesSets (in_lists lists.now) true sets.old result sets.new }
{
    for (set, list) in lists.iter().enumerate() {
        note_list(sets, set as u32, list.as_slice())?;
    }
    Ok(())
}
