// How a sender leaves its session.
ghost use Rattle.std.specs.Prelude.{◌≡◌, IfOk, IfErr, true};
ghost use Rattle.avs_model.specs.declared.answer.Refusal.TheVariants as refusal;
ghost use Rattle.avs_model.specs.declared.half.State.TheVariants as state;
ghost use Rattle.avs_mirrors.specs.Half.{is_session};
ghost use Rattle.avs_sync.specs.Note.{NoteKeeps};
ghost use Rattle.avs_sender.specs.Held.{seen_of};
ghost use Rattle.avs_sender.specs.Kept.{IsKept};
ghost use Rattle.avs_sender.specs.Leaving.{Leaves, half_left, known_mark, left_note};

use crate::half::Half;
use crate::sender::Sender;
use avs_dev::{Below, Disk};
use avs_halves::{is_session, write_note};
use avs_model::{Refusal, State};
use avs_seg::Failed;
use avs_sync::{Note, Session};

// The mark that a note says: one that is known as applied.
fn known_mark(session: &Session) -> u64
    ensures { result ≡ known_mark session.now }
{
    if session.mark <= session.known {
        session.mark
    } else {
        0
    }
}

impl<D: Disk> Half<D> {
    // Whether it is in a session.
    pub(crate) fn in_session(&self) -> bool
        ensures { result ≡ is_session self.now.session.state }
    {
        is_session(self.session.state)
    }

    // The note of a half that has left.
    fn left_note(&self) -> Note
        ensures note { result ≡ left_note self.now.note (known_mark self.now.session) }
        ensures keeps { NoteKeeps result }
        ensures kept { IsKept self.now }
    {
        Note {
            state: State::Logging,
            mark: known_mark(&self.session),
            ..self.note
        }
    }

    // It has left with this note, and gives its entries up.
    fn leave(&mut self, note: Note)
        requires session { is_session self.old.session.state ≡ true }
        requires note { note ≡ left_note self.old.note (known_mark self.old.session) }
        ensures left { self.new ≡ half_left self.old (known_mark self.old.session) self.new.queue }
        ensures limits { self.new.queue.limits ≡ self.old.queue.limits }
    {
        self.queue.advance(self.session.last);
        self.session = self.session.left(State::Logging);
        self.note = note;
    }
}

impl<D: Disk, B: Below> Sender<D, B> {
    // Leaves to logging, by one note.
    pub(crate) fn leave(&mut self) -> Result<(), Failed>
        ensures leaves { Leaves (B.IsSound self.old.below) (B.IsSound self.new.below) (seen_of B.seen self.old) result (seen_of B.seen self.new) }
        ensures rest { B.rest self.new.below ≡ B.rest self.old.below }
    {
        if !self.half.in_session() {
            return Ok(());
        }
        let note = self.half.left_note();
        write_note(&mut self.below, &note)?;
        self.half.leave(note);
        Ok(())
    }

    /// Leaves the session to logging. In logging it does nothing.
    pub fn log(&mut self) -> Result<(), Refusal>
        ensures leaves { Leaves (B.IsSound self.old.below) (B.IsSound self.new.below) (seen_of B.seen self.old) result (seen_of B.seen self.new) }
        ensures rest { B.rest self.new.below ≡ B.rest self.old.below }
        ensures fault { IfErr result (λ why. why ≡ refusal.Fault) }
    {
        match self.leave() {
            Ok(()) => Ok(()),
            Err(Failed) => Err(Refusal::Fault),
        }
    }

    /// Drops the session: its receiver can't be reached, or has left it. The answer is the state that it is in then, which without
    /// a queue on disk is logging. In logging it does nothing.
    pub fn broken(&mut self) -> Result<State, Refusal>
        ensures leaves { Leaves (B.IsSound self.old.below) (B.IsSound self.new.below) (seen_of B.seen self.old) result (seen_of B.seen self.new) }
        ensures rest { B.rest self.new.below ≡ B.rest self.old.below }
        ensures state { IfOk result (λ s. s ≡ state.Logging) }
        ensures fault { IfErr result (λ why. why ≡ refusal.Fault) }
    {
        match self.leave() {
            Ok(()) => Ok(State::Logging),
            Err(Failed) => Err(Refusal::Fault),
        }
    }
}
