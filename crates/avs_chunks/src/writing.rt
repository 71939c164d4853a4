// Writes to the shadow.
ghost use Rattle.std.specs.Prelude.{◌≡◌, ◌+◌, ◌*◌, ◌/◌, ◌<◌, ◌≤◌, IsTrue, is_some, length};
ghost use Rattle.avs_chunks.specs.ChunkSet.{CanSave, chunks_of};
ghost use Rattle.avs_chunks.specs.Calls.{PutsShadow};
ghost use Rattle.avs_chunks.specs.Writing.{SavesRange, WritesShadow};

use crate::chunks::Chunks;
use crate::copies::write_there;
use avs_dev::Disk;
use avs_seg::{BLOCK, Failed, SEGMENT, seg_count};

impl<D: Disk> Chunks<D> {
    /// Saves the chunks from one up to another, one after another. Where it fails, some of them are saved, from the
    /// first on.
    pub fn save_range(&mut self, master: &mut D, first: u32, end: u32) -> Result<(), Failed>
        requires ordered { first ≤ end }
        requires inside { end ≤ chunks_of self.old }
        requires blocks { (D.seen master.old).size ≡ self.old.blocks }
        requires can { CanSave self.old }
        ensures { SavesRange self.old (D.seen master.old) first end result self.new (D.seen master.new) }
    {
        for chunk in first..end {
            self.save_before(master, chunk)?;
        }
        Ok(())
    }

    /// Writes blocks of the shadow: the chunks of the range are saved, and then it is written on the shadow's disk.
    pub fn write(&mut self, master: &mut D, at: u32, bytes: &[u8]) -> Result<(), Failed>
        requires some { 0 < length bytes.now }
        requires whole { 512 * (length bytes.now / 512) ≡ length bytes.now }
        requires inside { at + length bytes.now / 512 ≤ self.old.blocks }
        requires blocks { (D.seen master.old).size ≡ self.old.blocks }
        requires there { IsTrue (is_some self.old.shadow) }
        ensures { WritesShadow self.old (D.seen master.old) at bytes.now result self.new (D.seen master.new) }
    {
        let len = (bytes.len() / BLOCK) as u32;
        self.save_range(master, at / SEGMENT, seg_count(at + len))?;
        write_there(&mut self.shadow, at, bytes)
    }

    /// Writes blocks on the shadow's disk alone. Their chunks are split before.
    pub fn put_shadow(&mut self, at: u32, bytes: &[u8]) -> Result<(), Failed>
        requires some { 0 < length bytes.now }
        requires whole { 512 * (length bytes.now / 512) ≡ length bytes.now }
        requires inside { at + length bytes.now / 512 ≤ self.old.blocks }
        requires there { IsTrue (is_some self.old.shadow) }
        ensures { PutsShadow self.old at bytes.now result self.new }
    {
        write_there(&mut self.shadow, at, bytes)
    }
}
