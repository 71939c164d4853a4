// Saving chunks before the master or the shadow changes there.
ghost use Rattle.std.specs.Prelude.{◌≡◌, ◌+◌, ◌<◌, ◌≤◌, ◌==◌, IsTrue, is_some, if◌then◌else◌};
ghost use Rattle.avs_entries.specs.Entries.{entry_in};
ghost use Rattle.avs_compact.specs.CompactSet.{chunks_of, entry_of, need_of, over_of, room_of};
ghost use Rattle.avs_compact.specs.Calls.{AreThere};
ghost use Rattle.avs_compact.specs.Saving.{SavesOne, SavesAll, SavesRange, lacking, need_with};

use crate::compact::Compact;
use crate::fault::CompactFault;
use avs_dev::Disk;
use avs_entries::{ChunkState, entry_in, state_by};
use avs_over::Over;
use avs_seg::Failed;

// 1 where an entry tells no slot.
fn one_lacking(entry: u32) -> u32
    ensures { result ≡ (if entry == 0 then 1 else 0) }
{
    if entry == 0 { 1 } else { 0 }
}

impl<D: Disk> Compact<D> {
    // Saves a chunk: it is settled as split, unless it is split.
    fn save(&mut self, master: &mut D, over: &mut Option<Over<D>>, chunk: u32) -> Result<(), Failed>
        requires chunk { chunk < chunks_of self.old }
        requires room { entry_of self.old chunk ≡ 0 → need_of self.old < room_of self.old (over_of over.old) }
        requires blocks { (D.seen master.old).size ≡ self.old.blocks }
        requires there { IsTrue (is_some self.old.shadow) }
        requires slots { AreThere self.old (over_of over.old) }
        ensures saves { SavesOne self.old (over_of over.old) (D.seen master.old) chunk result
            self.new (over_of over.new) (D.seen master.new) }
        ensures still { is_some over.new ≡ is_some over.old }
    {
        let entry = entry_in(&self.memory, chunk);
        if entry == 0 {
            return self.settle_new(master, over, chunk);
        }
        if state_by(entry) == ChunkState::Split {
            return Ok(());
        }
        self.settle_old(master, over, chunk, ChunkState::Split)
    }

    // How many of so many chunks from one on have no slot.
    fn lacking(&self, first: u32, count: u32) -> u32
        requires { first + count ≤ chunks_of self.now }
        ensures counted { result ≡ lacking self.now first count }
        ensures most { result ≤ count }
    {
        let mut lacking = 0;
        for place in 0..count {
            lacking += one_lacking(entry_in(&self.memory, first + place));
        }
        lacking
    }

    // Saves so many chunks from one on, one after another. Where it fails, some of them are saved, from the first on.
    fn save_all(
        &mut self,
        master: &mut D,
        over: &mut Option<Over<D>>,
        first: u32,
        count: u32,
    ) -> Result<(), Failed>
        requires inside { first + count ≤ chunks_of self.old }
        requires room { need_with self.old first count ≤ room_of self.old (over_of over.old) }
        requires blocks { (D.seen master.old).size ≡ self.old.blocks }
        requires there { IsTrue (is_some self.old.shadow) }
        requires slots { AreThere self.old (over_of over.old) }
        ensures saves { SavesAll self.old (over_of over.old) (D.seen master.old) first count result
            self.new (over_of over.new) (D.seen master.new) }
        ensures still { is_some over.new ≡ is_some over.old }
    {
        for place in 0..count {
            self.save(master, over, first + place)?;
        }
        Ok(())
    }

    /// Saves so many chunks from one on before the master changes there: each is copied into a slot, where it has none, or
    /// to the master, where it stands in its slot alone, and is then split. Where the set would need more slots than it has
    /// room for, nothing is done. Where a disk fails, some of the chunks are saved, from the first on.
    pub fn save_before(
        &mut self,
        master: &mut D,
        over: &mut Option<Over<D>>,
        first: u32,
        count: u32,
    ) -> Result<(), CompactFault>
        requires inside { first + count ≤ chunks_of self.old }
        requires blocks { (D.seen master.old).size ≡ self.old.blocks }
        requires there { IsTrue (is_some self.old.shadow) }
        requires slots { AreThere self.old (over_of over.old) }
        ensures saves { SavesRange self.old (over_of over.old) (D.seen master.old) first count result
            self.new (over_of over.new) (D.seen master.new) }
        ensures still { is_some over.new ≡ is_some over.old }
    {
        let need = self.need() + self.lacking(first, count);
        let slots = self.room(over);
        if need > slots {
            return Err(CompactFault::Offline { need, slots });
        }
        self.save_all(master, over, first, count)?;
        Ok(())
    }
}
