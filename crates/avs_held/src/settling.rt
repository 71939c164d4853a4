// Chunks that are settled and copied.
ghost use Rattle.std.specs.Prelude.{◌≡◌, ◌+◌, ◌≤◌, IsTrue, is_some, IfErr};
ghost use Rattle.avs_chunks.specs.States.{code_of};
ghost use Rattle.avs_over.specs.Over.{OverSet};
ghost use Rattle.avs_compact.specs.declared.fault.CompactFault.TheVariants as fault;
ghost use Rattle.avs_sets.specs.Sets.{chunks_of};
ghost use Rattle.avs_held.specs.Held.{seen_of};
ghost use Rattle.avs_held.specs.Rooms.{on_disks};
ghost use Rattle.avs_held.specs.Calls.{MaySettle, CanSave, SettlesSet, SavesChunks, CopiesOne};

use crate::held::HeldSet;
use avs_chunks::ChunkState;
use avs_compact::CompactFault;
use avs_dev::Disk;
use avs_seg::Failed;

impl<D: Disk> HeldSet<D> {
    /// Copies a chunk whose contents stand on one disk alone to the other, and then gives it the state.
    pub fn settle(&mut self, master: &mut D, chunk: u32, target: ChunkState) -> Result<(), Failed>
        requires may { MaySettle (seen_of self.old) chunk (code_of target) }
        requires blocks { (D.seen master.old).size ≡ (seen_of self.old).size.blocks }
        requires can { CanSave (seen_of self.old) }
        ensures { (o : OverSet) → SettlesSet (on_disks (seen_of self.old) (D.seen master.old) o) chunk (code_of target) result
            (on_disks (seen_of self.new) (D.seen master.new) o) }
    {
        self.chunks.settle(master, chunk, target)
    }

    /// Saves the chunks from one up to another, one after another: each is settled as split. Where it fails, some of them
    /// are saved, from the first on.
    pub fn save_range(&mut self, master: &mut D, first: u32, end: u32) -> Result<(), Failed>
        requires ordered { first ≤ end }
        requires inside { end ≤ chunks_of (seen_of self.old) }
        requires blocks { (D.seen master.old).size ≡ (seen_of self.old).size.blocks }
        requires can { CanSave (seen_of self.old) }
        ensures { (o : OverSet) → SavesChunks (on_disks (seen_of self.old) (D.seen master.old) o) first end result
            (on_disks (seen_of self.new) (D.seen master.new) o) }
    {
        self.chunks.save_range(master, first, end)
    }

    /// Saves so many chunks from one on. A set in chunks never lacks room.
    pub fn save_before(
        &mut self,
        master: &mut D,
        first: u32,
        count: u32,
    ) -> Result<(), CompactFault>
        requires inside { first + count ≤ chunks_of (seen_of self.old) }
        requires blocks { (D.seen master.old).size ≡ (seen_of self.old).size.blocks }
        requires can { CanSave (seen_of self.old) }
        ensures saves { (o : OverSet) → SavesChunks (on_disks (seen_of self.old) (D.seen master.old) o) first (first + count) result
            (on_disks (seen_of self.new) (D.seen master.new) o) }
        ensures cause { IfErr result (λ e. e ≡ fault.Failed) }
    {
        let _chunks = self.chunks();
        Ok(self.save_range(master, first, first + count)?)
    }

    /// Copies the least chunk that stands on the shadow alone, or of an independent set on the master alone, to the other
    /// disk. The answer is that chunk, and None exactly where there is none.
    pub fn copy_one(&mut self, master: &mut D) -> Result<Option<u32>, Failed>
        requires blocks { (D.seen master.old).size ≡ (seen_of self.old).size.blocks }
        requires there { IsTrue (is_some (seen_of self.old).shadow) }
        ensures { (o : OverSet) → CopiesOne (on_disks (seen_of self.old) (D.seen master.old) o) result
            (on_disks (seen_of self.new) (D.seen master.new) o) }
    {
        self.chunks.copy_one(master)
    }
}
