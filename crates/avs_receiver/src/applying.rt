// How a receiver applies the places of its session.
ghost use Rattle.std.specs.Prelude.{◌≡◌, ◌≤◌, ◌^◌, true, OnOk, is_ok};
ghost use Rattle.avs_mirrors.specs.Entries.{is_mark};
ghost use Rattle.avs_mirrors.specs.Half.{is_receiver};
ghost use Rattle.avs_sync.specs.Note.{NoteKeeps};
ghost use Rattle.avs_receiver.specs.Held.{seen_of};
ghost use Rattle.avs_receiver.specs.Slots.{HaveSlots};
ghost use Rattle.avs_receiver.specs.Marking.{IsMarkNote, Marks, PutsEntry};
ghost use Rattle.avs_receiver.specs.Applying.{Applies, AppliesNext, CanApply, IsNext, RestPut, RestApplied};

use crate::half::Half;
use crate::receiver::Receiver;
use crate::slots::filled;
use crate::telling::{receives, state_in};
use avs_dev::{Below, Disk};
use avs_halves::{word_of, write_note};
use avs_model::{Entry, EntryKind, Refusal, State};
use avs_seg::Failed;
use avs_sync::Note;

pub(crate) fn is_mark(kind: EntryKind) -> bool
    ensures { result ≡ is_mark kind }
{
    match kind {
        EntryKind::Mark => true,
        EntryKind::Write | EntryKind::Copied => false,
    }
}

impl<D: Disk> Half<D> {
    // The note of a half that has applied the mark at this place: its sets have contents.
    fn marked_note(&self, place: u64) -> Note
        requires place { place ≤ 2 ^ 62 }
        requires slots { HaveSlots self.now.sets }
        requires role { is_receiver self.now.note.role ≡ true }
        ensures note { IsMarkNote self.now place result }
        ensures keeps { NoteKeeps result }
    {
        Note {
            state: State::Replicating,
            empty: filled(&self.sets, self.note.empty),
            mark: place,
            ..self.note
        }
    }
}

impl<D: Disk, B: Below> Receiver<D, B> {
    // The mark at this place gives contents, by one note; the half's own bits go behind it.
    pub(crate) fn mark(&mut self, place: u64) -> Result<(), Failed>
        requires place { place ≤ 2 ^ 62 }
        requires role { is_receiver self.old.half.note.role ≡ true }
        ensures marks { Marks (B.IsSound self.old.below) (seen_of B.seen self.old) place result (seen_of B.seen self.new) }
        ensures sound { B.IsSound self.old.below → OnOk result (B.IsSound self.new.below) }
        ensures rest { B.rest self.new.below ≡ B.rest self.old.below }
    {
        let note = self.half.marked_note(place);
        write_note(&mut self.below, &note)?;
        self.half.note = note;
        self.half.sets.wipe()
    }

    // What an entry does that has landed: its blocks go below, or it is the mark.
    fn put(&mut self, place: u64, entry: &Entry) -> Result<(), Failed>
        requires can { CanApply (seen_of B.seen self.old) place entry.now }
        requires role { is_receiver self.old.half.note.role ≡ true }
        ensures puts { PutsEntry (B.IsSound self.old.below) (seen_of B.seen self.old) place entry.now result (seen_of B.seen self.new) }
        ensures sound { B.IsSound self.old.below → OnOk result (B.IsSound self.new.below) }
        ensures rest { RestPut B.wrote (B.rest self.old.below) (seen_of B.seen self.old) entry.now (is_ok result) (B.rest self.new.below) }
    {
        if is_mark(entry.kind) {
            return self.mark(place);
        }
        let vol = self.half.sets.vol(entry.set);
        self.below.write(vol, entry.at, entry.bytes.as_slice())
    }

    // Applies the next place: it lands, by which it stands, and is then done below.
    fn apply_next(&mut self, session: u64, place: u64, entry: &Entry) -> Result<(), Failed>
        requires next { IsNext (seen_of B.seen self.old) session place }
        requires can { CanApply (seen_of B.seen self.old) place entry.now }
        ensures applies { AppliesNext (B.IsSound self.old.below) (B.IsSound self.new.below) (seen_of B.seen self.old) session place entry.now result (seen_of B.seen self.new) }
        ensures last { OnOk result (self.new.half.applied ≡ place) }
        ensures rest { RestApplied B.wrote (B.rest self.old.below) (seen_of B.seen self.old) session place entry.now (is_ok result) (B.rest self.new.below) }
    {
        self.half.land.land(session, place, entry)?;
        self.put(place, entry)?;
        self.half.applied = place;
        Ok(())
    }

    /// Applies a place of the session, if it is the next one, and answers the last applied place. One that was applied already
    /// changes nothing. `Stale` exactly where the session is not that of the half, else `WrongState` exactly where the half has left,
    /// else `Early` exactly where the place is above the next one. What is asked of the entry is asked where it is applied.
    pub fn apply(&mut self, session: u64, place: u64, entry: &Entry) -> Result<u64, Refusal>
        requires { IsNext (seen_of B.seen self.old) session place → CanApply (seen_of B.seen self.old) place entry.now }
        ensures applies { Applies (B.IsSound self.old.below) (B.IsSound self.new.below) (seen_of B.seen self.old) session place entry.now result (seen_of B.seen self.new) }
        ensures rest { RestApplied B.wrote (B.rest self.old.below) (seen_of B.seen self.old) session place entry.now (is_ok result) (B.rest self.new.below) }
    {
        let ours = self.half.note.session;
        if session != ours {
            return Err(Refusal::Stale {
                ours,
                theirs: session,
            });
        }
        if !receives(&self.half.note) {
            return Err(Refusal::WrongState(word_of(state_in(&self.half.note))));
        }
        let next = self.half.applied + 1;
        if place > next {
            return Err(Refusal::Early { next });
        }
        if place < next {
            return Ok(self.half.applied);
        }
        match self.apply_next(session, place, entry) {
            Ok(()) => Ok(place),
            Err(Failed) => Err(Refusal::Fault),
        }
    }
}
