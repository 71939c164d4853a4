// How a sender learns that places were applied.
ghost use Rattle.std.specs.Prelude.{◌≡◌, ◌≤◌, true, OnOk, OnErr};
ghost use Rattle.avs_mirrors.specs.Half.{is_session};
ghost use Rattle.avs_sync.specs.Note.{NoteKeeps};
ghost use Rattle.avs_halves.specs.Writing.{PutsNote};
ghost use Rattle.avs_sender.specs.Held.{seen_of};
ghost use Rattle.avs_sender.specs.Learning.{IsStopped, Learns, is_syncing, turns};
ghost use Rattle.avs_sender.specs.Ticking.{Knows, MayLearn, Ticks, half_noted, note_marked};

use crate::freeing::free_all;
use crate::half::Half;
use crate::sender::Sender;
use avs_dev::{Below, Disk};
use avs_halves::write_note;
use avs_model::{Refusal, State, Word};
use avs_seg::Failed;
use avs_sync::Note;

fn is_syncing(state: State) -> bool
    ensures { result ≡ is_syncing state }
{
    match state {
        State::Syncing => true,
        State::Logging | State::Receiving | State::Replicating | State::Queuing => false,
    }
}

// Whether a sender has gone from syncing to another state.
fn turns(before: State, after: State) -> bool
    ensures { result ≡ turns before after }
{
    is_syncing(before) && !is_syncing(after)
}

impl<D: Disk> Half<D> {
    // A disk failed: it is in no session any more, and gives its entries up.
    pub(crate) fn stop(&mut self)
        ensures { IsStopped self.old self.new }
    {
        self.queue.advance(self.session.last);
        self.session = self.session.left(State::Logging);
    }

    // It knows that a place was applied. Whether its state has changed.
    fn learn(&mut self, applied: u64) -> Result<bool, Failed>
        requires session { is_session self.old.session.state ≡ true }
        requires given { applied ≤ self.old.session.last }
        ensures { Learns self.old applied result self.new }
    {
        let known = self.session.known.max(applied);
        let copying = self.session.mark == 0;
        if let Err(Failed) = free_all(&mut self.sets, &mut self.tracked, copying, known) {
            self.queue.advance(self.session.last);
            self.session = self.session.left(State::Logging);
            return Err(Failed);
        }
        let state = self.session.state;
        self.queue.advance(known);
        self.session = self.session.ticked(applied);
        Ok(turns(state, self.session.state))
    }

    // The note of a half that knows the mark of its session as applied.
    fn marked_note(&self) -> Note
        requires { is_session self.now.session.state ≡ true }
        ensures note { result ≡ note_marked self.now.note self.now.session.mark }
        ensures keeps { NoteKeeps result }
    {
        Note {
            state: State::Replicating,
            mark: self.session.mark,
            ..self.note
        }
    }

    // It has written this note.
    fn take_note(&mut self, note: Note)
        requires note { note ≡ note_marked self.old.note self.old.session.mark }
        requires session { is_session self.old.session.state ≡ true }
        ensures { self.new ≡ half_noted self.old note }
    {
        self.note = note;
    }
}

impl<D: Disk, B: Below> Sender<D, B> {
    // Notes that the mark of the session is known as applied.
    fn note_mark(&mut self) -> Result<(), Failed>
        requires { is_session self.old.half.session.state ≡ true }
        ensures puts { PutsNote (B.IsSound self.old.below) (B.seen self.old.below) (note_marked self.old.half.note self.old.half.session.mark) result (B.seen self.new.below) }
        ensures ok { OnOk result (self.new.half ≡ half_noted self.old.half (note_marked self.old.half.note self.old.half.session.mark)) }
        ensures err { OnErr result (IsStopped self.old.half self.new.half) }
        ensures sound { B.IsSound self.old.below → OnOk result (B.IsSound self.new.below) }
        ensures rest { B.rest self.new.below ≡ B.rest self.old.below }
    {
        let note = self.half.marked_note();
        if let Err(Failed) = write_note(&mut self.below, &note) {
            self.half.stop();
            return Err(Failed);
        }
        self.half.take_note(note);
        Ok(())
    }

    // It knows a place, and notes where that makes the mark known.
    fn know(&mut self, applied: u64) -> Result<(), Failed>
        requires { MayLearn (seen_of B.seen self.old) applied }
        ensures knows { Knows (B.IsSound self.old.below) (B.IsSound self.new.below) (seen_of B.seen self.old) applied result (seen_of B.seen self.new) }
        ensures rest { B.rest self.new.below ≡ B.rest self.old.below }
    {
        if self.half.learn(applied)? {
            return self.note_mark();
        }
        Ok(())
    }

    /// Learns that the places up to this one were applied, and answers the greatest one that it knows, which is never a smaller
    /// one than before. The entries up to it leave, and the bit of a segment goes exactly where the greatest place that touched it
    /// is known and the segment does not wait to be copied. Once the mark is known the sender replicates. `WrongState` exactly
    /// where it is in no session, else `NoPlace` exactly where the place is above the last one that was given. Takes no memory.
    pub fn tick(&mut self, applied: u64) -> Result<u64, Refusal>
        ensures ticks { Ticks (B.IsSound self.old.below) (B.IsSound self.new.below) (seen_of B.seen self.old) applied result (seen_of B.seen self.new) }
        ensures rest { B.rest self.new.below ≡ B.rest self.old.below }
    {
        if !self.half.in_session() {
            return Err(Refusal::WrongState(Word::Logging));
        }
        let last = self.half.session.last;
        if applied > last {
            return Err(Refusal::NoPlace(last));
        }
        match self.know(applied) {
            Ok(()) => Ok(self.half.session.known),
            Err(Failed) => Err(Refusal::Fault),
        }
    }
}
