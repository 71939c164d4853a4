// What a sender lends of what lies below it.
ghost use Rattle.std.specs.Prelude.{◌≡◌, Bool, OnErr, is_ok};
ghost use Rattle.avs_dev.specs.Devices.{OneRose};
ghost use Rattle.avs_sender.specs.Held.{seen_of};
ghost use Rattle.avs_sender.specs.Lending.{KeepsSets, Lends};

use crate::sender::Sender;
use avs_dev::{Below, Disk, Errand};
use avs_seg::Failed;

impl<D: Disk, B: Below> Sender<D, B> {
    /// Runs an errand on what lies below, with the present note. It keeps the note, and the volumes of the half's sets with their
    /// blocks.
    pub fn lend<E: Errand<B>>(&mut self, errand: &mut E) -> Result<(), Failed>
        requires { (then : E) (below : B) (ok : Bool) → E.ran errand.old self.old.below (B.seen self.old.below).note ok then below
            → KeepsSets (B.IsSound self.old.below) (B.IsSound below) ok self.old.half.sets (B.seen self.old.below) (B.seen below) }
        ensures ran { E.ran errand.old self.old.below (B.seen self.old.below).note (is_ok result) errand.new self.new.below }
        ensures lends { Lends (B.IsSound self.old.below) (B.IsSound self.new.below) (seen_of B.seen self.old) result (seen_of B.seen self.new) }
        ensures cause { OnErr result (OneRose (B.seen self.old.below).faults (B.seen self.new.below).faults) }
    {
        let note = self.below.note();
        errand.run(&mut self.below, &note)
    }
}
