// Writes to the shadow.
ghost use Rattle.std.specs.Prelude.{◌≡◌, ◌+◌, ◌*◌, ◌/◌, ◌%◌, ◌<◌, ◌≤◌, IsTrue, is_some, length};
ghost use Rattle.avs_seg.specs.Image.{blocks_of};
ghost use Rattle.avs_entries.specs.Entries.{split};
ghost use Rattle.avs_compact.specs.CompactSet.{over_of};
ghost use Rattle.avs_compact.specs.Calls.{AreThere};
ghost use Rattle.avs_compact.specs.Writing.{PutsShadow, WritesShadow, AreSplit};

use crate::compact::Compact;
use crate::fault::CompactFault;
use crate::slots::write_slot;
use avs_dev::Disk;
use avs_entries::{entry_in, slot_by};
use avs_over::Over;
use avs_seg::{BLOCK, Failed, SEGMENT, seg_count};

impl<D: Disk> Compact<D> {
    // Writes blocks of the shadow that lie in one chunk, which is split.
    fn put_part(&mut self, over: &mut Option<Over<D>>, at: u32, bytes: &[u8]) -> Result<(), Failed>
        requires some { 0 < length bytes.now }
        requires whole { 512 * (length bytes.now / 512) ≡ length bytes.now }
        requires inside { at + length bytes.now / 512 ≤ self.old.blocks }
        requires one { at % 64 + length bytes.now / 512 ≤ 64 }
        requires split { AreSplit self.old at (length bytes.now / 512) }
        requires there { IsTrue (is_some self.old.shadow) }
        requires slots { AreThere self.old (over_of over.old) }
        ensures puts { PutsShadow self.old (over_of over.old) at (blocks_of bytes.now) result self.new (over_of over.new) }
        ensures still { is_some over.new ≡ is_some over.old }
    {
        let slot = slot_by(entry_in(&self.memory, at / SEGMENT));
        write_slot(&mut self.shadow, over, self.own, slot, at % SEGMENT, bytes)
    }

    /// Writes blocks of the shadow whose chunks are split, chunk by chunk, and nothing else. An owner of several sets saves
    /// the chunks in all of them first.
    pub fn put_shadow(
        &mut self,
        over: &mut Option<Over<D>>,
        at: u32,
        bytes: &[u8],
    ) -> Result<(), Failed>
        requires some { 0 < length bytes.now }
        requires whole { 512 * (length bytes.now / 512) ≡ length bytes.now }
        requires inside { at + length bytes.now / 512 ≤ self.old.blocks }
        requires split { AreSplit self.old at (length bytes.now / 512) }
        requires there { IsTrue (is_some self.old.shadow) }
        requires slots { AreThere self.old (over_of over.old) }
        ensures puts { PutsShadow self.old (over_of over.old) at (blocks_of bytes.now) result self.new (over_of over.new) }
        ensures still { is_some over.new ≡ is_some over.old }
    {
        let _ = &self.blocks;
        let count = (bytes.len() / BLOCK) as u32;
        let mut done = 0;
        while done < count {
            let from = at + done;
            let len = (SEGMENT - from % SEGMENT).min(count - done);
            let part = &bytes[BLOCK * done as usize..BLOCK * (done + len) as usize];
            self.put_part(over, from, part)?;
            done += len;
        }
        Ok(())
    }

    /// Writes blocks of the shadow: the chunks of the range are saved, and then it is written in their slots. Where the set
    /// would need more slots than it has room for, nothing is done.
    pub fn write(
        &mut self,
        master: &mut D,
        over: &mut Option<Over<D>>,
        at: u32,
        bytes: &[u8],
    ) -> Result<(), CompactFault>
        requires some { 0 < length bytes.now }
        requires whole { 512 * (length bytes.now / 512) ≡ length bytes.now }
        requires inside { at + length bytes.now / 512 ≤ self.old.blocks }
        requires blocks { (D.seen master.old).size ≡ self.old.blocks }
        requires there { IsTrue (is_some self.old.shadow) }
        requires slots { AreThere self.old (over_of over.old) }
        ensures writes { WritesShadow self.old (over_of over.old) (D.seen master.old) at bytes.now result
            self.new (over_of over.new) (D.seen master.new) }
        ensures still { is_some over.new ≡ is_some over.old }
    {
        let first = at / SEGMENT;
        let count = seg_count(at + (bytes.len() / BLOCK) as u32) - first;
        self.save_before(master, over, first, count)?;
        self.put_shadow(over, at, bytes)?;
        Ok(())
    }
}
