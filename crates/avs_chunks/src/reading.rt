// Reads of the shadow's blocks.
ghost use Rattle.std.specs.Prelude.{◌≡◌, ◌+◌, ◌*◌, ◌/◌, ◌<◌, ◌≤◌, IsTrue, is_some, length};
ghost use Rattle.avs_chunks.specs.ChunkSet.{IsOnePlace};
ghost use Rattle.avs_chunks.specs.Calls.{ReadsShadow};

use crate::chunks::Chunks;
use crate::copies::read_one;
use crate::states::{ChunkState, is_in, run_end};
use avs_dev::Disk;
use avs_seg::{BLOCK, Failed, SEGMENT, seg_count};

impl<D: Disk> Chunks<D> {
    // How many of so many blocks from one on stand on one disk, by the states of their chunks.
    fn run_len(&self, at: u32, count: u32) -> u32
        requires some { 0 < count }
        requires inside { at + count ≤ self.now.blocks }
        ensures some { 0 < result }
        ensures within { result ≤ count }
        ensures one { IsOnePlace self.now at result }
    {
        let states = &self.memory;
        let last = seg_count(at + count);
        let end = run_end(states, at / SEGMENT, last);
        if end == last {
            count
        } else {
            SEGMENT * end - at
        }
    }

    // Reads blocks of the shadow that stand on one disk.
    fn read_part(&mut self, master: &mut D, at: u32, out: &mut [u8]) -> Result<(), Failed>
        requires some { 0 < length out.old }
        requires whole { 512 * (length out.old / 512) ≡ length out.old }
        requires inside { at + length out.old / 512 ≤ self.old.blocks }
        requires blocks { (D.seen master.old).size ≡ self.old.blocks }
        requires there { IsTrue (is_some self.old.shadow) }
        requires one { IsOnePlace self.old at (length out.old / 512) }
        ensures reads { ReadsShadow self.old (D.seen master.old) at out.new result self.new (D.seen master.new) }
        ensures len { length out.new ≡ length out.old }
    {
        let alone = is_in(&self.memory, at / SEGMENT, ChunkState::OnMaster);
        read_one(alone, master, &mut self.shadow, at, out)
    }

    /// Reads blocks of the shadow. A failed read may have changed `out`.
    pub fn read(&mut self, master: &mut D, at: u32, out: &mut [u8]) -> Result<(), Failed>
        requires some { 0 < length out.old }
        requires whole { 512 * (length out.old / 512) ≡ length out.old }
        requires inside { at + length out.old / 512 ≤ self.old.blocks }
        requires blocks { (D.seen master.old).size ≡ self.old.blocks }
        requires there { IsTrue (is_some self.old.shadow) }
        ensures { ReadsShadow self.old (D.seen master.old) at out.new result self.new (D.seen master.new) }
    {
        let count = (out.len() / BLOCK) as u32;
        let mut done = 0;
        while done < count {
            let from = at + done;
            let len = self.run_len(from, count - done);
            let part = &mut out[BLOCK * done as usize..BLOCK * (done + len) as usize];
            self.read_part(master, from, part)?;
            done += len;
        }
        Ok(())
    }
}
