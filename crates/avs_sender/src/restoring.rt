// How the layer above gives sets other images, with contents.
ghost use Rattle.std.specs.Prelude.{◌≡◌, false, true, is_ok};
ghost use Rattle.avs_mirrors.specs.Half.{is_session};
ghost use Rattle.avs_sync.specs.Note.{IsNote, NoteFits, NoteKeeps};
ghost use Rattle.avs_halves.specs.Changing.{ChangesSets};
ghost use Rattle.avs_halves.specs.Marks.{AreMarks, marked};
ghost use Rattle.avs_halves.specs.Restoring.{IsRestoringNote, RanWith};
ghost use Rattle.avs_sender.specs.Held.{seen_of};
ghost use Rattle.avs_sender.specs.Kept.{IsKept};
ghost use Rattle.avs_sender.specs.Restoring.{MayRestore, Restores, RestoresNoted, RunsErrand, RunsOnce, half_noted};

use crate::half::Half;
use crate::sender::Sender;
use avs_dev::{Below, Disk, Errand};
use avs_halves::{filled_slots, note_marks, word_of};
use avs_model::Refusal;
use avs_seg::{Failed, SegList};
use avs_sync::{NOTE, Note, put_note};

// The bytes of a note.
fn bytes_of(note: &Note) -> [u8; NOTE]
    requires { NoteKeeps note.now }
    ensures { IsNote result note.now }
{
    let mut bytes = [0; NOTE];
    put_note(note, &mut bytes);
    bytes
}

impl<D: Disk> Half<D> {
    // Its note, by which the named sets have contents.
    fn restored_note(&self, marks: &[(u32, SegList)]) -> Note
        requires { AreMarks self.now.sets marks.now }
        ensures note { IsRestoringNote self.now.sets self.now.note marks.now result }
        ensures keeps { NoteKeeps result }
        ensures kept { IsKept self.now }
    {
        Note {
            empty: filled_slots(&self.sets, marks, self.note.empty),
            ..self.note
        }
    }

    // Sets the bits of marked segments, in no session.
    fn note_marks(&mut self, marks: &[(u32, SegList)]) -> Result<(), Failed>
        requires away { is_session self.old.session.state ≡ false }
        requires marks { AreMarks self.old.sets marks.now }
        ensures bits { ChangesSets (marked marks.now) true self.old.sets result self.new.sets }
        ensures rest { self.new ≡ record self.old { sets = self.new.sets } }
        ensures kept { IsKept self.old }
    {
        note_marks(&mut self.sets, marks)
    }

    // This is its note, of which the slots alone are others.
    fn fill_by(&mut self, note: Note)
        requires away { is_session self.old.session.state ≡ false }
        requires rest { note ≡ record self.old.note { empty = note.empty } }
        requires keeps { NoteKeeps note }
        requires fits { NoteFits note }
        ensures { self.new ≡ half_noted self.old note }
    {
        self.note = note;
    }
}

impl<D: Disk, B: Below> Sender<D, B> {
    // Runs the errand with the note in which the named sets have contents. Where that note stands then, it is the half's.
    fn restore_by<E: Errand<B>>(
        &mut self,
        marks: &[(u32, SegList)],
        errand: &mut E,
    ) -> Result<(), Failed>
        requires away { is_session self.old.half.session.state ≡ false }
        requires marks { AreMarks self.old.half.sets marks.now }
        requires errand { MayRestore B.seen (E.ran errand.old self.old.below) self.old marks.now }
        ensures runs { RunsErrand (seen_of B.seen self.old) marks.now result (seen_of B.seen self.new) }
        ensures ran { RanWith (λ bytes. E.ran errand.old self.old.below bytes (is_ok result) errand.new self.new.below)
            self.old.half.sets self.old.half.note marks.now }
    {
        let note = self.half.restored_note(marks);
        let bytes = bytes_of(&note);
        errand.run(&mut self.below, &bytes)?;
        if self.below.note() != bytes {
            return Ok(());
        }
        self.half.fill_by(note);
        Ok(())
    }

    // The bits first, and then the errand.
    fn restore_noted<E: Errand<B>>(
        &mut self,
        marks: &[(u32, SegList)],
        errand: &mut E,
    ) -> Result<(), Failed>
        requires away { is_session self.old.half.session.state ≡ false }
        requires marks { AreMarks self.old.half.sets marks.now }
        requires errand { MayRestore B.seen (E.ran errand.old self.old.below) self.old marks.now }
        ensures restores { RestoresNoted (B.IsSound self.old.below) (B.IsSound self.new.below)
            (seen_of B.seen self.old) marks.now result (seen_of B.seen self.new) }
        ensures ran { RunsOnce (λ bytes. E.ran errand.old self.old.below bytes (is_ok result) errand.new self.new.below)
            self.old.half marks.now (is_ok result) ((errand.new ≡ errand.old) × (self.new.below ≡ self.old.below)) }
    {
        self.half.note_marks(marks)?;
        self.restore_by(marks, errand)
    }

    /// Restores sets in no session: the bits of their marked segments are set, and then an errand runs with the note in which the
    /// named sets have contents. The errand leaves all images and the note as they were, or the named sets have other images inside
    /// the marked segments, and the note is the one that it was given. `WrongState` exactly where it is in a session.
    pub fn restore<E: Errand<B>>(
        &mut self,
        marks: &[(u32, SegList)],
        errand: &mut E,
    ) -> Result<(), Refusal>
        requires marks { AreMarks self.old.half.sets marks.now }
        requires errand { MayRestore B.seen (E.ran errand.old self.old.below) self.old marks.now }
        ensures restores { Restores (B.IsSound self.old.below) (B.IsSound self.new.below)
            (seen_of B.seen self.old) marks.now result (seen_of B.seen self.new) }
        ensures ran { RunsOnce (λ bytes. E.ran errand.old self.old.below bytes (is_ok result) errand.new self.new.below)
            self.old.half marks.now (is_ok result) ((errand.new ≡ errand.old) × (self.new.below ≡ self.old.below)) }
    {
        if self.half.in_session() {
            return Err(Refusal::WrongState(word_of(self.half.session.state)));
        }
        match self.restore_noted(marks, errand) {
            Ok(()) => Ok(()),
            Err(Failed) => Err(Refusal::Fault),
        }
    }
}
