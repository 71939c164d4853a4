// What the layer above does to what lies below, while another owns that.
ghost use Rattle.std.specs.Prelude.{ℕ, Bool, List, OnErr, is_ok};
ghost use Rattle.avs_dev.specs.Devices.{OneRose};

use crate::below::Below;
use avs_seg::Failed;

/// What the owner of something below runs on it for the layer above.
pub trait Errand<B: Below> {
    /// What a run makes of the errand and of what is below, with its rest: by the note, and by whether it answered Ok.
    ghost ran: { Self → B → List ℕ → Bool → Self → B → Type 0 };

    /// Runs with the present note. `Failed` is for a device below alone: every other outcome, also a fault of a disk that
    /// the errand itself holds, it keeps in itself and answers Ok.
    fn run(&mut self, below: &mut B, note: &[u8; 64]) -> Result<(), Failed>
        ensures ran { ran self.old below.old note.now (is_ok result) self.new below.new }
        ensures cause { OnErr result (OneRose (B.seen below.old).faults (B.seen below.new).faults) };
}
