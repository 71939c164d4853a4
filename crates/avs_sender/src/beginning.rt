// How a sender begins a session.
ghost use Rattle.std.specs.Prelude.{◌≡◌, ◌<◌, ◌≤◌, ◌^◌, IfOk, true, false, map};
ghost use Rattle.avs_mirrors.specs.Half.{is_session};
ghost use Rattle.avs_sync.specs.Note.{NoteKeeps};
ghost use Rattle.avs_halves.specs.Changing.{ChangesSets};
ghost use Rattle.avs_sender.specs.Held.{seen_of};
ghost use Rattle.avs_sender.specs.Kept.{IsKept};
ghost use Rattle.avs_sender.specs.SenderView.{set_places};
ghost use Rattle.avs_sender.specs.Places.{WaitsForBits, places_for};
ghost use Rattle.avs_sender.specs.Beginning.{AreTheirs, Begins, Enters, MayBegin, TellsFilled, begun_keys, begun_note, beginning, half_begun};

use crate::contents::are_filled;
use crate::half::Half;
use crate::hosts::is_reverse;
use crate::noting::note_lists;
use crate::sender::Sender;
use crate::tracked::Tracked;
use crate::tracking::{track, wait_all};
use avs_dev::{Below, Disk};
use avs_halves::{word_of, write_note};
use avs_model::{HalfRole, Refusal, State};
use avs_seg::{Failed, NoMemory, SegList};
use avs_sync::{Note, Session};
use std::alloc::Global;

impl<D: Disk> Half<D> {
    // Whether all sets have contents.
    fn are_filled(&self) -> bool
        ensures { TellsFilled self.now.sets self.now.note.empty result }
    {
        are_filled(&self.sets, self.note.empty)
    }

    // Memory for the places of a session.
    fn track(&self, alloc: Global) -> Result<Vec<Tracked>, NoMemory>
        ensures places { IfOk result (λ t. map set_places t.items ≡ places_for self.now.queue.limits.writes self.now.sets) }
        ensures kept { IsKept self.now }
    {
        track(alloc, &self.sets, self.writes)
    }

    // Sets the bits of a beginning: all, or those of the other half.
    fn note_begun(&mut self, full: bool, theirs: &[SegList]) -> Result<(), Failed>
        requires away { is_session self.old.session.state ≡ false }
        requires theirs { AreTheirs full self.old.sets theirs.now }
        ensures bits { ChangesSets (begun_keys full self.old.sets theirs.now) true self.old.sets result self.new.sets }
        ensures rest { self.new ≡ record self.old { sets = self.new.sets } }
    {
        if full {
            return self.sets.fill();
        }
        note_lists(&mut self.sets, theirs)
    }

    // The note of a session that it begins.
    fn begun_note(&self, session: u64) -> Note
        requires { session ≤ 2 ^ 62 }
        ensures note { result ≡ begun_note self.now session }
        ensures keeps { NoteKeeps result }
    {
        Note {
            session,
            role: HalfRole::Sender,
            state: State::Syncing,
            reverse: is_reverse(self.host),
            mark: 0,
            ..self.note
        }
    }

    // It is in the session of its note, in which no place was given: each segment with a bit waits to be copied.
    fn enter(&mut self, note: Note, mut tracked: Vec<Tracked>)
        requires away { is_session self.old.session.state ≡ false }
        requires note { note ≡ begun_note self.old note.session }
        requires keeps { NoteKeeps note }
        requires places { map set_places tracked.items ≡ places_for self.old.queue.limits.writes self.old.sets }
        ensures begun { self.new ≡ half_begun self.old note.session self.new.places }
        ensures waits { WaitsForBits self.old.sets (places_for self.old.queue.limits.writes self.old.sets) self.new.places }
    {
        wait_all(&self.sets, &mut tracked);
        self.tracked = tracked;
        self.session = Session::begin(true, note.session, note.reverse);
        self.note = note;
    }
}

impl<D: Disk, B: Below> Sender<D, B> {
    // The bits first, and then the note.
    fn enter(
        &mut self,
        tracked: Vec<Tracked>,
        session: u64,
        full: bool,
        theirs: &[SegList],
    ) -> Result<(), Failed>
        requires may { MayBegin (seen_of B.seen self.old) }
        requires kept { IsKept self.old.half }
        requires session { session ≤ 2 ^ 62 }
        requires theirs { AreTheirs full self.old.half.sets theirs.now }
        requires places { map set_places tracked.items ≡ places_for self.old.half.queue.limits.writes self.old.half.sets }
        ensures enters { Enters (B.IsSound self.old.below) (B.IsSound self.new.below) (seen_of B.seen self.old) (beginning session full self.old.half.sets theirs.now) result (seen_of B.seen self.new) }
        ensures rest { B.rest self.new.below ≡ B.rest self.old.below }
    {
        self.half.note_begun(full, theirs)?;
        let note = self.half.begun_note(session);
        write_note(&mut self.below, &note)?;
        self.half.enter(note, tracked);
        Ok(())
    }

    /// Begins a session of this number as its sender, with the bits of the other half, or with all. `WrongState` exactly in a
    /// session, else `NoContents` exactly where a set has none. Without memory nothing has changed.
    pub fn begin(
        &mut self,
        alloc: Global,
        session: u64,
        full: bool,
        theirs: &[SegList],
    ) -> Result<(), Refusal>
        requires later { self.old.half.session.number < session }
        requires session { session ≤ 2 ^ 62 }
        requires theirs { AreTheirs full self.old.half.sets theirs.now }
        ensures begins { Begins (B.IsSound self.old.below) (B.IsSound self.new.below) (seen_of B.seen self.old) (beginning session full self.old.half.sets theirs.now) result (seen_of B.seen self.new) }
        ensures rest { B.rest self.new.below ≡ B.rest self.old.below }
    {
        if self.half.in_session() {
            return Err(Refusal::WrongState(word_of(self.half.session.state)));
        }
        if !self.half.are_filled() {
            return Err(Refusal::NoContents);
        }
        let tracked = match self.half.track(alloc) {
            Ok(tracked) => tracked,
            Err(NoMemory) => return Err(Refusal::NoMemory),
        };
        match self.enter(tracked, session, full, theirs) {
            Ok(()) => Ok(()),
            Err(Failed) => Err(Refusal::Fault),
        }
    }
}
