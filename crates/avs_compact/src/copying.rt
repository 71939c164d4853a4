// Copy steps: chunks that stand in their slots alone are copied to the master.
ghost use Rattle.std.specs.Prelude.{◌≡◌, ◌<◌, IsTrue, IfSome, IfNone, is_some};
ghost use Rattle.avs_entries.specs.Entries.{entry_in, state_by};
ghost use Rattle.avs_entries.specs.Counting.{FindsDue};
ghost use Rattle.avs_compact.specs.CompactSet.{chunks_of, entry_of, over_of};
ghost use Rattle.avs_compact.specs.Calls.{AreThere};
ghost use Rattle.avs_compact.specs.Copying.{CopiesOne, BringsBack};

use crate::compact::Compact;
use avs_dev::Disk;
use avs_entries::{ChunkState, entry_in, first_due, state_by};
use avs_over::Over;
use avs_seg::{Failed, seg_count};

// The end of the chunks that were passed, below an end, until one was found.
fn passed(found: Option<u32>, end: u32) -> u32
    ensures some { IfSome found (λ chunk. result ≡ chunk) }
    ensures none { IfNone found (result ≡ end) }
{
    match found {
        Some(chunk) => chunk,
        None => end,
    }
}

impl<D: Disk> Compact<D> {
    // The least chunk that stands in its slot alone. Those below it are not looked at again, and words of chunks of
    // which none does are passed at once.
    fn next_due(&mut self) -> Option<u32>
        ensures finds { FindsDue (entry_of self.old) (chunks_of self.old) result }
        ensures same { self.new ≡ self.old }
    {
        if self.tally.back == 0 {
            return None;
        }
        let end = seg_count(self.blocks);
        let found = first_due(&self.memory, &self.map, self.due, end);
        self.due = passed(found, end);
        found
    }

    /// Copies the least chunk that stands in its slot alone to the master. The answer is that chunk, and None exactly where
    /// there is none.
    pub fn copy_one(
        &mut self,
        master: &mut D,
        over: &mut Option<Over<D>>,
    ) -> Result<Option<u32>, Failed>
        requires blocks { (D.seen master.old).size ≡ self.old.blocks }
        requires there { IsTrue (is_some self.old.shadow) }
        requires slots { AreThere self.old (over_of over.old) }
        ensures copies { CopiesOne self.old (over_of over.old) (D.seen master.old) result self.new (over_of over.new) (D.seen master.new) }
        ensures still { is_some over.new ≡ is_some over.old }
    {
        let Some(chunk) = self.next_due() else {
            return Ok(None);
        };
        self.settle_old(master, over, chunk, ChunkState::OnBoth)?;
        Ok(Some(chunk))
    }

    /// Copies a chunk to the master that stands in its slot alone, so that it does no more. Another chunk is left alone.
    pub fn bring_back(
        &mut self,
        master: &mut D,
        over: &mut Option<Over<D>>,
        chunk: u32,
    ) -> Result<(), Failed>
        requires chunk { chunk < chunks_of self.old }
        requires blocks { (D.seen master.old).size ≡ self.old.blocks }
        requires there { IsTrue (is_some self.old.shadow) }
        requires slots { AreThere self.old (over_of over.old) }
        ensures brings { BringsBack self.old (over_of over.old) (D.seen master.old) chunk result
            self.new (over_of over.new) (D.seen master.new) }
        ensures still { is_some over.new ≡ is_some over.old }
    {
        if state_by(entry_in(&self.memory, chunk)) != ChunkState::OnShadow {
            return Ok(());
        }
        self.settle_old(master, over, chunk, ChunkState::OnBoth)
    }
}
