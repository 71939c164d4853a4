// The slots of a note whose sets have no contents.
ghost use Rattle.avs_receiver.specs.Slots.{HaveSlots, AreEmpty, AreFilled};

use avs_dev::Disk;
use avs_halves::MirrorSets;

// The slots without contents, with those of these sets.
pub(crate) fn emptied<D: Disk>(sets: &MirrorSets<D>, empty: u16) -> u16
    requires { HaveSlots sets.now }
    ensures { AreEmpty sets.now empty result }
{
    let mut slots = empty;
    for set in 0..sets.count() {
        slots |= 1 << sets.slot(set as u32);
    }
    slots
}

// The slots without contents, but for those of these sets.
pub(crate) fn filled<D: Disk>(sets: &MirrorSets<D>, empty: u16) -> u16
    requires { HaveSlots sets.now }
    ensures { AreFilled sets.now empty result }
{
    let mut slots = empty;
    for set in 0..sets.count() {
        slots &= !(1 << sets.slot(set as u32));
    }
    slots
}
