// How a receiver is asked into a session.
ghost use Rattle.std.specs.Prelude.{◌≡◌, ◌<◌, ◌≤◌, ◌^◌};
ghost use Rattle.avs_receiver.specs.Held.{seen_of};
ghost use Rattle.avs_sync.specs.Note.{NoteKeeps};
ghost use Rattle.avs_receiver.specs.Asking.{Asks, IsAskedNote, is_reverse};
ghost use Rattle.avs_receiver.specs.Held.{half_noted};
ghost use Rattle.avs_receiver.specs.Slots.{HaveSlots};

use crate::half::Half;
use crate::receiver::Receiver;
use crate::slots::emptied;
use avs_dev::{Below, Disk};
use avs_halves::write_note;
use avs_model::{HalfRole, Host, Refusal, State};
use avs_seg::Failed;
use avs_sync::Note;

// Whether a receiver on this host receives from host `s`.
fn is_reverse(host: Host) -> bool
    ensures { result ≡ is_reverse host }
{
    match host {
        Host::P => true,
        Host::S => false,
    }
}

impl<D: Disk> Half<D> {
    // The number of its session.
    fn number(&self) -> u64
        ensures { result ≡ self.now.note.session }
    {
        self.note.session
    }

    // It is in the session of a note, in which nothing was applied.
    fn enter(&mut self, note: Note)
        requires { NoteKeeps note }
        ensures { self.new ≡ half_noted self.old note 0 }
    {
        self.note = note;
        self.applied = 0;
    }

    // The note of a session that it is asked into: its sets have no contents from then on.
    fn asked_note(&self, session: u64) -> Note
        requires session { session ≤ 2 ^ 62 }
        requires later { self.now.note.session < session }
        requires slots { HaveSlots self.now.sets }
        ensures note { IsAskedNote self.now session result }
        ensures keeps { NoteKeeps result }
    {
        Note {
            session,
            role: HalfRole::Receiver,
            state: State::Receiving,
            empty: emptied(&self.sets, self.note.empty),
            reverse: is_reverse(self.host),
            mark: 0,
        }
    }
}

impl<D: Disk, B: Below> Receiver<D, B> {
    /// Enters a session as its receiver, by one note: no set has contents from then on, until the mark of the session is applied.
    /// `Stale` exactly where the session's number is not greater than that of the half.
    pub fn ask(&mut self, session: u64) -> Result<(), Refusal>
        requires { session ≤ 2 ^ 62 }
        ensures asks { Asks (B.IsSound self.old.below) (B.IsSound self.new.below) (seen_of B.seen self.old) session result (seen_of B.seen self.new) }
        ensures rest { B.rest self.new.below ≡ B.rest self.old.below }
    {
        let ours = self.half.number();
        if session <= ours {
            return Err(Refusal::Stale {
                ours,
                theirs: session,
            });
        }
        let note = self.half.asked_note(session);
        if let Err(Failed) = write_note(&mut self.below, &note) {
            return Err(Refusal::Fault);
        }
        self.half.enter(note);
        Ok(())
    }
}
