// What writes go to, and what may stand below it.
ghost use Rattle.std.specs.Prelude.{◌≡◌, ◌<◌, ℕ, Bool, List, OnOk, length, is_ok};
ghost use Rattle.avs_dev.specs.Below.{BelowSeen, Counts, IsRangeOf, ReadsBelow, WritesBelow, SetsNote, size_of};

use avs_seg::Failed;

/// Volumes by their numbers from 0 on, and a note. A range is given by a volume, its first block, and a slice of whole blocks.
pub trait Below: Drop {
    /// What contracts see of it.
    ghost seen: { Self → BelowSeen };

    /// What contracts see of it besides: data of a type of its own.
    ghost Rest: { Type 0 };

    ghost rest: { Self → Rest };

    /// What one write makes of the rest: of these bytes to a volume from a block on, and whether it answered Ok.
    ghost wrote: { Rest → ℕ → ℕ → List ℕ → Bool → Rest → Type 0 };

    /// Its disks are whole, and its memory is in step with them. What is below is so as it is made or loaded; a call that
    /// answers `Failed` may end it.
    ghost IsSound: { Self → Type 0 };

    /// How many volumes there are.
    fn count(&self) -> u32
        ensures { Counts (seen self.now) result };

    /// How many blocks a volume has.
    fn size(&self, vol: u32) -> u32
        requires { vol < length (seen self.now).sizes }
        ensures { result ≡ size_of (seen self.now) vol };

    /// Reads blocks into the slice. A failed read may have changed the slice.
    fn read(&mut self, vol: u32, at: u32, out: &mut [u8]) -> Result<(), Failed>
        requires { IsRangeOf (seen self.old) vol at (length out.old) }
        ensures reads { ReadsBelow (IsSound self.old) (seen self.old) vol at out.new result (seen self.new) }
        ensures sound { IsSound self.old → IsSound self.new }
        ensures rest { rest self.new ≡ rest self.old };

    /// Writes the blocks of the slice. A failed write leaves each of its blocks old or new.
    fn write(&mut self, vol: u32, at: u32, bytes: &[u8]) -> Result<(), Failed>
        requires { IsRangeOf (seen self.old) vol at (length bytes.now) }
        ensures writes { WritesBelow (IsSound self.old) (seen self.old) vol at bytes.now result (seen self.new) }
        ensures sound { IsSound self.old → OnOk result (IsSound self.new) }
        ensures wrote { wrote (rest self.old) vol at bytes.now (is_ok result) (rest self.new) };

    /// The note.
    fn note(&self) -> [u8; 64]
        ensures { result ≡ (seen self.now).note };

    /// Sets the note. After `Failed` it is the old or the new one, and so is the one that is found where this is loaded again.
    fn set_note(&mut self, note: &[u8; 64]) -> Result<(), Failed>
        ensures sets { SetsNote (IsSound self.old) (seen self.old) note.now result (seen self.new) }
        ensures sound { IsSound self.old → OnOk result (IsSound self.new) }
        ensures rest { rest self.new ≡ rest self.old };
}
