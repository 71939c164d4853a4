// Writes of a half that is in no session, and its note.
ghost use Rattle.std.specs.Prelude.{◌≡◌, ◌<◌, OnOk, length, is_ok};
ghost use Rattle.avs_sync.specs.Note.{NoteKeeps};
ghost use Rattle.avs_halves.specs.SetBits.{set_at};
ghost use Rattle.avs_halves.specs.Writing.{IsRangeOfSet, WritesNoted, WroteOnce, PutsNote};

use crate::mirrors::MirrorSets;
use avs_dev::{Below, Disk};
use avs_seg::{BLOCK, Failed, Span, segments};
use avs_sync::{NOTE, Note, put_note};

impl<D: Disk> MirrorSets<D> {
    /// Writes blocks of a set's volume: the bits of their segments first, and then the volume.
    pub fn write_noted<B: Below>(
        &mut self,
        below: &mut B,
        set: u32,
        at: u32,
        bytes: &[u8],
    ) -> Result<(), Failed>
        requires set { set < length self.old }
        requires range { IsRangeOfSet (B.seen below.old) (set_at self.old set) at (length bytes.now) }
        ensures writes { WritesNoted (B.IsSound below.old) set at bytes.now self.old (B.seen below.old) result self.new (B.seen below.new) }
        ensures sound { B.IsSound below.old → OnOk result (B.IsSound below.new) }
        ensures wrote { WroteOnce B.wrote (B.rest below.old) (set_at self.old set).vol at bytes.now (is_ok result) (B.rest below.new) }
    {
        let (first, count) = segments(Span {
            at,
            len: (bytes.len() / BLOCK) as u32,
        });
        let vol = self.vol(set);
        self.note(set, first, count)?;
        below.write(vol, at, bytes)
    }
}

/// Sets the note of a half.
pub fn write_note<B: Below>(below: &mut B, note: &Note) -> Result<(), Failed>
    requires { NoteKeeps note.now }
    ensures puts { PutsNote (B.IsSound below.old) (B.seen below.old) note.now result (B.seen below.new) }
    ensures sound { B.IsSound below.old → OnOk result (B.IsSound below.new) }
    ensures rest { B.rest below.new ≡ B.rest below.old }
{
    let mut bytes = [0; NOTE];
    put_note(note, &mut bytes);
    below.set_note(&bytes)
}
