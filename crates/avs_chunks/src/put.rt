// A state that is changed on the disk and in memory.
ghost use Rattle.std.specs.Prelude.{◌≡◌, ◌*◌, ◌<◌, ◌^◌, length};
ghost use Rattle.avs_chunks.specs.States.{code_of, state_in};
ghost use Rattle.avs_chunks.specs.Counted.{AreCounted};
ghost use Rattle.avs_chunks.specs.Steps.{PutsState};

use crate::counting::{Counts, set_counted};
use crate::states::{ChunkState, STATES, set_state};
use avs_dev::Disk;
use avs_flip::Flip;
use avs_seg::{BLOCK, Failed};

/// Writes the block with the state of a chunk, and then keeps it in memory, where the first `end` chunks are counted.
pub(crate) fn put_state<D: Disk>(
    flip: &mut Flip<D>,
    memory: &mut [u8],
    counts: &mut Counts,
    end: u32,
    chunk: u32,
    state: ChunkState,
) -> Result<(), Failed>
    requires inside { chunk < 2048 * flip.old.len }
    requires long { length memory.old ≡ 512 * flip.old.len }
    requires few { end < 2 ^ 31 }
    requires counted { AreCounted (state_in memory.old) end counts.old }
    ensures puts { PutsState flip.old memory.old chunk (code_of state) result flip.new memory.new }
    ensures counted { AreCounted (state_in memory.new) end counts.new }
{
    let at = chunk / STATES;
    let start = BLOCK * at as usize;
    let mut block = [0; BLOCK];
    block.copy_from_slice(&memory[start..start + BLOCK]);
    set_state(&mut block, chunk % STATES, state);
    flip.put_live(at, &block)?;
    *counts = set_counted(memory, *counts, end, chunk, state);
    Ok(())
}
