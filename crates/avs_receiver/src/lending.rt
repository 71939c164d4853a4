// What the layer above does to what lies below.
ghost use Rattle.std.specs.Prelude.{◌≡◌, Bool, OnErr, is_ok};
ghost use Rattle.avs_dev.specs.Devices.{OneRose};
ghost use Rattle.avs_receiver.specs.Held.{seen_of};
ghost use Rattle.avs_receiver.specs.Lending.{IsLent, KeepsVolumes};

use crate::receiver::Receiver;
use avs_dev::{Below, Disk, Errand};
use avs_seg::Failed;

impl<D: Disk, B: Below> Receiver<D, B> {
    /// Runs an errand on what lies below, with the present note. The errand keeps the note, and the volumes of the sets: the half
    /// stays what it is, and is found as it was. `Failed` is the errand's own.
    pub fn lend<E: Errand<B>>(&mut self, errand: &mut E) -> Result<(), Failed>
        requires { (ok : Bool) (e : E) (b : B) → E.ran errand.old self.old.below (B.seen self.old.below).note ok e b → KeepsVolumes self.old.half.sets (B.seen self.old.below) (B.seen b) }
        ensures lent { IsLent (B.IsSound self.old.below) (B.IsSound self.new.below) (seen_of B.seen self.old) (seen_of B.seen self.new) }
        ensures ran { E.ran errand.old self.old.below (B.seen self.old.below).note (is_ok result) errand.new self.new.below }
        ensures cause { OnErr result (OneRose (B.seen self.old.below).faults (B.seen self.new.below).faults) }
    {
        let note = self.below.note();
        errand.run(&mut self.below, &note)
    }
}
