// A write to a master of which a set is enabled.
ghost use Rattle.std.specs.Prelude.{◌≡◌, ◌+◌, ◌*◌, ◌/◌, ◌<◌, ◌≤◌, IsTrue, is_some, length};
ghost use Rattle.avs_ii.specs.Saved.{IsSettledInMemory, WritesMaster};

use avs_chunk::Chunks;
use avs_dev::Disk;
use avs_seg::{BLOCK, Failed, SEGMENT, seg_count};

/// Saves the chunks of a range in a set of the master, and last writes it.
pub(crate) fn write_saved<D: Disk>(
    chunks: &mut Chunks<D>,
    master: &mut D,
    at: u32,
    bytes: &[u8],
) -> Result<(), Failed>
    requires some { 0 < length bytes.now }
    requires whole { 512 * (length bytes.now / 512) ≡ length bytes.now }
    requires inside { at + length bytes.now / 512 ≤ chunks.old.blocks }
    requires blocks { (D.seen master.old).size ≡ chunks.old.blocks }
    requires there { IsTrue (is_some chunks.old.shadow) }
    requires settled { IsSettledInMemory chunks.old }
    ensures { WritesMaster chunks.old (D.seen master.old) at bytes.now result chunks.new (D.seen master.new) }
{
    let len = (bytes.len() / BLOCK) as u32;
    match chunks.save_range(master, at / SEGMENT, seg_count(at + len)) {
        Ok(()) => master.write(at, bytes),
        Err(Failed) => Err(Failed),
    }
}
