// Reads of the shadow, and writes of the shadow's blocks.
ghost use Rattle.std.specs.Prelude.{◌≡◌, ◌+◌, ◌*◌, ◌/◌, ◌<◌, ◌≤◌, IsTrue, is_some, length};
ghost use Rattle.avs_dev.specs.Seen.{Seen};
ghost use Rattle.avs_over.specs.Over.{OverSet};
ghost use Rattle.avs_held.specs.Held.{seen_of};
ghost use Rattle.avs_held.specs.Rooms.{on_disks};
ghost use Rattle.avs_held.specs.Calls.{IsSplit, ReadsShadow, WritesShadow};

use crate::held::HeldSet;
use avs_dev::Disk;
use avs_seg::Failed;

impl<D: Disk> HeldSet<D> {
    /// Reads blocks of the shadow. A failed read may have changed `out`.
    pub fn read(&mut self, master: &mut D, at: u32, out: &mut [u8]) -> Result<(), Failed>
        requires some { 0 < length out.old }
        requires whole { 512 * (length out.old / 512) ≡ length out.old }
        requires inside { at + length out.old / 512 ≤ (seen_of self.old).size.blocks }
        requires blocks { (D.seen master.old).size ≡ (seen_of self.old).size.blocks }
        requires there { IsTrue (is_some (seen_of self.old).shadow) }
        ensures { (o : OverSet) → ReadsShadow (on_disks (seen_of self.old) (D.seen master.old) o) at out.new result
            (on_disks (seen_of self.new) (D.seen master.new) o) }
    {
        self.chunks.read(master, at, out)
    }

    /// Writes blocks of the shadow, whose chunks are split before.
    pub fn put_shadow(&mut self, at: u32, bytes: &[u8]) -> Result<(), Failed>
        requires some { 0 < length bytes.now }
        requires whole { 512 * (length bytes.now / 512) ≡ length bytes.now }
        requires inside { at + length bytes.now / 512 ≤ (seen_of self.old).size.blocks }
        requires there { IsTrue (is_some (seen_of self.old).shadow) }
        requires split { IsSplit (seen_of self.old) at (length bytes.now / 512) }
        ensures { (m : Seen) (o : OverSet) → WritesShadow (on_disks (seen_of self.old) m o) at bytes.now result
            (on_disks (seen_of self.new) m o) }
    {
        self.chunks.put_shadow(at, bytes)
    }
}
