// Calls on the contents of a set of either kind.
ghost use Rattle.std.specs.Prelude.{◌≡◌, ◌+◌, ◌*◌, ◌/◌, ◌<◌, ◌≤◌, IsTrue, is_some, length, OnOk};
ghost use Rattle.avs_dev.specs.Seen.{Seen};
ghost use Rattle.avs_chunks.specs.States.{on_both, on_shadow};
ghost use Rattle.avs_over.specs.Over.{slots};
ghost use Rattle.avs_compact.specs.CompactSet.{over_of};
ghost use Rattle.avs_sets.specs.Sets.{chunks_of};
ghost use Rattle.avs_sets.specs.Owners.{IsServed};
ghost use Rattle.avs_held.specs.Rooms.{on_disks, lacking};
ghost use Rattle.avs_held.specs.Calls.{CanSave, IsSplit, SettlesSet, CopiesOne, ReadsShadow, WritesShadow};
ghost use Rattle.avs_held.specs.Any.{SavesAny, CountsMore, set_seen};

use crate::any::AnySet;
use avs_chunks::ChunkState;
use avs_compact::CompactFault;
use avs_dev::Disk;
use avs_over::Over;
use avs_seg::Failed;

impl<D: Disk> AnySet<D> {
    /// Copies the least chunk that stands on the shadow alone, or of an independent set on the master alone, to the other
    /// disk. The answer is that chunk, and None exactly where there is none.
    pub fn copy_one(
        &mut self,
        master: &mut D,
        over: &mut Option<Over<D>>,
    ) -> Result<Option<u32>, Failed>
        requires blocks { (D.seen master.old).size ≡ (set_seen self.old).size.blocks }
        requires there { IsTrue (is_some (set_seen self.old).shadow) }
        requires served { IsServed (slots (over_of over.old)) (set_seen self.old) }
        ensures copies { CopiesOne (on_disks (set_seen self.old) (D.seen master.old) (over_of over.old)) result
            (on_disks (set_seen self.new) (D.seen master.new) (over_of over.new)) }
        ensures counts { OnOk result (CountsMore self.old (over_of over.old) 0 self.new (over_of over.new)) }
    {
        match self {
            AnySet::Chunks(set) => set.copy_one(master),
            AnySet::Compact(set) => set.copy_one(master, over),
        }
    }

    /// Copies a chunk that stands on the shadow alone to the master, so that it is the same on both.
    pub fn bring_back(
        &mut self,
        master: &mut D,
        over: &mut Option<Over<D>>,
        chunk: u32,
    ) -> Result<(), Failed>
        requires chunk { chunk < chunks_of (set_seen self.old) }
        requires back { (set_seen self.old).memory.state chunk ≡ on_shadow }
        requires blocks { (D.seen master.old).size ≡ (set_seen self.old).size.blocks }
        requires there { IsTrue (is_some (set_seen self.old).shadow) }
        requires served { IsServed (slots (over_of over.old)) (set_seen self.old) }
        ensures settles { SettlesSet (on_disks (set_seen self.old) (D.seen master.old) (over_of over.old)) chunk on_both result
            (on_disks (set_seen self.new) (D.seen master.new) (over_of over.new)) }
        ensures counts { OnOk result (CountsMore self.old (over_of over.old) 0 self.new (over_of over.new)) }
    {
        match self {
            AnySet::Chunks(set) => set.settle(master, chunk, ChunkState::OnBoth),
            AnySet::Compact(set) => set.bring_back(master, over, chunk),
        }
    }

    /// Reads blocks of the shadow. A failed read may have changed `out`.
    pub fn read(
        &mut self,
        master: &mut D,
        over: &mut Option<Over<D>>,
        at: u32,
        out: &mut [u8],
    ) -> Result<(), Failed>
        requires some { 0 < length out.old }
        requires whole { 512 * (length out.old / 512) ≡ length out.old }
        requires inside { at + length out.old / 512 ≤ (set_seen self.old).size.blocks }
        requires blocks { (D.seen master.old).size ≡ (set_seen self.old).size.blocks }
        requires there { IsTrue (is_some (set_seen self.old).shadow) }
        requires served { IsServed (slots (over_of over.old)) (set_seen self.old) }
        ensures reads { ReadsShadow (on_disks (set_seen self.old) (D.seen master.old) (over_of over.old)) at out.new result
            (on_disks (set_seen self.new) (D.seen master.new) (over_of over.new)) }
        ensures counts { CountsMore self.old (over_of over.old) 0 self.new (over_of over.new) }
    {
        match self {
            AnySet::Chunks(set) => set.read(master, at, out),
            AnySet::Compact(set) => set.read(master, over, at, out),
        }
    }

    /// Saves so many chunks from one on before the master or the shadow changes there: each is settled as split. Where a
    /// compact set would need more slots than it has room for, nothing is done.
    pub fn save_before(
        &mut self,
        master: &mut D,
        over: &mut Option<Over<D>>,
        first: u32,
        count: u32,
    ) -> Result<(), CompactFault>
        requires inside { first + count ≤ chunks_of (set_seen self.old) }
        requires blocks { (D.seen master.old).size ≡ (set_seen self.old).size.blocks }
        requires can { CanSave (set_seen self.old) }
        requires served { IsServed (slots (over_of over.old)) (set_seen self.old) }
        ensures saves { SavesAny self.old (on_disks (set_seen self.old) (D.seen master.old) (over_of over.old)) first count result
            (on_disks (set_seen self.new) (D.seen master.new) (over_of over.new)) }
        ensures counts { OnOk result
            (CountsMore self.old (over_of over.old) (lacking (set_seen self.old) first count) self.new (over_of over.new)) }
    {
        match self {
            AnySet::Chunks(set) => set.save_before(master, first, count),
            AnySet::Compact(set) => set.save_before(master, over, first, count),
        }
    }

    /// Writes blocks of the shadow, whose chunks are split before.
    pub fn put_shadow(
        &mut self,
        over: &mut Option<Over<D>>,
        at: u32,
        bytes: &[u8],
    ) -> Result<(), Failed>
        requires some { 0 < length bytes.now }
        requires whole { 512 * (length bytes.now / 512) ≡ length bytes.now }
        requires inside { at + length bytes.now / 512 ≤ (set_seen self.old).size.blocks }
        requires there { IsTrue (is_some (set_seen self.old).shadow) }
        requires split { IsSplit (set_seen self.old) at (length bytes.now / 512) }
        requires served { IsServed (slots (over_of over.old)) (set_seen self.old) }
        ensures writes { (m : Seen) → WritesShadow (on_disks (set_seen self.old) m (over_of over.old)) at bytes.now result
            (on_disks (set_seen self.new) m (over_of over.new)) }
        ensures counts { CountsMore self.old (over_of over.old) 0 self.new (over_of over.new) }
    {
        match self {
            AnySet::Chunks(set) => set.put_shadow(at, bytes),
            AnySet::Compact(set) => set.put_shadow(over, at, bytes),
        }
    }
}
