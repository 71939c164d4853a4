// How a receiver leaves its session.
ghost use Rattle.std.specs.Prelude.{◌≡◌, IfErr};
ghost use Rattle.avs_model.specs.declared.answer.Refusal.TheVariants as refusal;
ghost use Rattle.avs_receiver.specs.Held.{seen_of};
ghost use Rattle.avs_receiver.specs.Leaving.{Leaves, note_left};

use crate::receiver::Receiver;
use crate::telling::receives;
use avs_dev::{Below, Disk};
use avs_halves::write_note;
use avs_model::{Refusal, State};
use avs_seg::Failed;
use avs_sync::Note;

// The note of a half that has left.
fn left_note(note: &Note) -> Note
    ensures { result ≡ note_left note.now }
{
    Note {
        state: State::Logging,
        ..*note
    }
}

impl<D: Disk, B: Below> Receiver<D, B> {
    // Leaves to logging, by one note.
    pub(crate) fn leave(&mut self) -> Result<(), Failed>
        ensures leaves { Leaves (B.IsSound self.old.below) (B.IsSound self.new.below) (seen_of B.seen self.old) result (seen_of B.seen self.new) }
        ensures rest { B.rest self.new.below ≡ B.rest self.old.below }
    {
        if !receives(&self.half.note) {
            return Ok(());
        }
        let note = left_note(&self.half.note);
        write_note(&mut self.below, &note)?;
        self.half.note = note;
        Ok(())
    }

    /// Leaves the session to logging. In logging it does nothing.
    pub fn log(&mut self) -> Result<(), Refusal>
        ensures leaves { Leaves (B.IsSound self.old.below) (B.IsSound self.new.below) (seen_of B.seen self.old) result (seen_of B.seen self.new) }
        ensures rest { B.rest self.new.below ≡ B.rest self.old.below }
        ensures fault { IfErr result (λ why. why ≡ refusal.Fault) }
    {
        match self.leave() {
            Ok(()) => Ok(()),
            Err(Failed) => Err(Refusal::Fault),
        }
    }
}
