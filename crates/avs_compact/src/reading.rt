// Reads of the shadow.
ghost use Rattle.std.specs.Prelude.{◌≡◌, ◌+◌, ◌*◌, ◌/◌, ◌%◌, ◌<◌, ◌≤◌, IsTrue, is_some, length};
ghost use Rattle.avs_compact.specs.CompactSet.{over_of};
ghost use Rattle.avs_compact.specs.Calls.{AreThere, ReadsShadow};

use crate::compact::Compact;
use crate::slots::read_slot;
use avs_dev::Disk;
use avs_entries::{entry_in, slot_by};
use avs_over::Over;
use avs_seg::{BLOCK, Failed, SEGMENT};

impl<D: Disk> Compact<D> {
    // Reads blocks of the shadow that lie in one chunk.
    fn read_part(
        &mut self,
        master: &mut D,
        over: &mut Option<Over<D>>,
        at: u32,
        out: &mut [u8],
    ) -> Result<(), Failed>
        requires some { 0 < length out.old }
        requires whole { 512 * (length out.old / 512) ≡ length out.old }
        requires inside { at + length out.old / 512 ≤ self.old.blocks }
        requires one { at % 64 + length out.old / 512 ≤ 64 }
        requires blocks { (D.seen master.old).size ≡ self.old.blocks }
        requires there { IsTrue (is_some self.old.shadow) }
        requires slots { AreThere self.old (over_of over.old) }
        ensures reads { ReadsShadow self.old (over_of over.old) (D.seen master.old) at out.new result
            self.new (over_of over.new) (D.seen master.new) }
        ensures still { is_some over.new ≡ is_some over.old }
        ensures len { length out.new ≡ length out.old }
    {
        let entry = entry_in(&self.memory, at / SEGMENT);
        if entry == 0 {
            return master.read(at, out);
        }
        let slot = slot_by(entry);
        read_slot(&mut self.shadow, over, self.own, slot, at % SEGMENT, out)
    }

    /// Reads blocks of the shadow. A failed read may have changed `out`.
    pub fn read(
        &mut self,
        master: &mut D,
        over: &mut Option<Over<D>>,
        at: u32,
        out: &mut [u8],
    ) -> Result<(), Failed>
        requires some { 0 < length out.old }
        requires whole { 512 * (length out.old / 512) ≡ length out.old }
        requires inside { at + length out.old / 512 ≤ self.old.blocks }
        requires blocks { (D.seen master.old).size ≡ self.old.blocks }
        requires there { IsTrue (is_some self.old.shadow) }
        requires slots { AreThere self.old (over_of over.old) }
        ensures reads { ReadsShadow self.old (over_of over.old) (D.seen master.old) at out.new result
            self.new (over_of over.new) (D.seen master.new) }
        ensures still { is_some over.new ≡ is_some over.old }
    {
        let count = (out.len() / BLOCK) as u32;
        let mut done = 0;
        while done < count {
            let from = at + done;
            let len = (SEGMENT - from % SEGMENT).min(count - done);
            let part = &mut out[BLOCK * done as usize..BLOCK * (done + len) as usize];
            self.read_part(master, over, from, part)?;
            done += len;
        }
        Ok(())
    }
}
