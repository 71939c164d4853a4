// An entry that is changed on the disk and in memory.
ghost use Rattle.std.specs.Prelude.{◌≡◌, ◌*◌, ◌<◌, length};
ghost use Rattle.avs_entries.specs.Putting.{WritesEntry};

use crate::entries::{ENTRIES, set_entry};
use avs_dev::Disk;
use avs_flip::Flip;
use avs_seg::{BLOCK, Failed};

/// Writes the block with the entry of a chunk, and then keeps it in memory.
pub fn put_entry<D: Disk>(
    flip: &mut Flip<D>,
    memory: &mut [u8],
    chunk: u32,
    entry: u32,
) -> Result<(), Failed>
    requires inside { chunk < 128 * flip.old.len }
    requires long { length memory.old ≡ 512 * flip.old.len }
    ensures { WritesEntry flip.old memory.old chunk entry result flip.new memory.new }
{
    let at = chunk / ENTRIES;
    let start = BLOCK * at as usize;
    let mut block = [0; BLOCK];
    block.copy_from_slice(&memory[start..start + BLOCK]);
    set_entry(&mut block, chunk % ENTRIES, entry);
    flip.put_live(at, &block)?;
    set_entry(memory, chunk, entry);
    Ok(())
}
