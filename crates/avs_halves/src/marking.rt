// Bits of segments that are named in lists, and the slots of named sets.
ghost use Rattle.std.specs.Prelude.{◌≡◌, ◌<◌, ℕ, true, length};
ghost use Rattle.avs_halves.specs.Changing.{ChangesSets, keys_of};
ghost use Rattle.avs_halves.specs.Marks.{AreMarks, AreNamedFilled, AreSegments, in_list, marked};
ghost use Rattle.avs_halves.specs.SetBits.{set_at};

use crate::mirrors::MirrorSets;
use avs_dev::Disk;
use avs_seg::{Failed, SegList};

/// Sets the bits of segments of a set.
pub fn note_list<D: Disk>(sets: &mut MirrorSets<D>, set: u32, list: &[u32]) -> Result<(), Failed>
    requires set { set < length sets.old }
    requires list { AreSegments sets.old set list.now }
    ensures { ChangesSets (keys_of set (in_list list.now)) true sets.old result sets.new }
{
    for seg in list {
        sets.note(set, *seg, 1)?;
    }
    Ok(())
}

/// Sets the bits of segments of several sets.
pub fn note_marks<D: Disk>(sets: &mut MirrorSets<D>, marks: &[(u32, SegList)]) -> Result<(), Failed>
    requires { AreMarks sets.old marks.now }
    ensures { ChangesSets (marked marks.now) true sets.old result sets.new }
{
    for (set, list) in marks {
        note_list(sets, *set, list.as_slice())?;
    }
    Ok(())
}

/// The slots without contents, but for those of the named sets.
pub fn filled_slots<D: Disk>(sets: &MirrorSets<D>, marks: &[(u32, SegList)], empty: u16) -> u16
    requires marks { AreMarks sets.now marks.now }
    requires slots { (set : ℕ) → set < length sets.now → (set_at sets.now set).slot < 16 }
    ensures { AreNamedFilled sets.now marks.now empty result }
{
    let mut slots = empty;
    for (set, _) in marks {
        slots &= !(1 << sets.slot(*set));
    }
    slots
}
