// Why a set is refused.
ghost use Rattle.std.specs.Prelude.{◌≡◌, IfSome, IfNone, Some};
ghost use Rattle.avs_dev.specs.Seen.{Seen};
ghost use Rattle.avs_chunk.specs.Making.{Fits};
ghost use Rattle.avs_ii.specs.Calls.{IsSizeOf, faulted, refusal_of};

use avs_dev::{Disk, Why};
use avs_model::Refusal;
use avs_seg::{Failed, seg_count};

// The chunks whose states a block has.
const BLOCK_CHUNKS: u32 = 2048;

// The first of these disks that is too small for a set of so many blocks.
pub(crate) fn small<D: Disk>(shadow: &D, bitmap: &D, blocks: u32) -> Option<Refusal>
    ensures small { IfSome result (IsSizeOf (D.seen shadow.now) (D.seen bitmap.now) blocks) }
    ensures fits { IfNone result (Fits (Some (D.seen shadow.now)) (D.seen bitmap.now) blocks) }
{
    let have = shadow.blocks();
    if have < blocks {
        return Some(Refusal::Size { need: blocks, have });
    }
    let need = 1 + 2 * seg_count(blocks).div_ceil(BLOCK_CHUNKS);
    let have = bitmap.blocks();
    if have < need {
        return Some(Refusal::Size { need, have });
    }
    None
}

// The same as a refusal of a group.
pub(crate) fn refusal_of(why: Why) -> Refusal
    ensures { result ≡ refusal_of why }
{
    match why {
        Why::Size { need, have } => Refusal::Size { need, have },
        Why::NoMemory => Refusal::NoMemory,
        Why::BadRecord(_) | Why::Fault => Refusal::Fault,
    }
}

// What a disk answered, as the answer of a group.
pub(crate) fn faulted(answer: Result<(), Failed>) -> Result<(), Refusal>
    ensures { result ≡ faulted answer }
{
    match answer {
        Ok(()) => Ok(()),
        Err(Failed) => Err(Refusal::Fault),
    }
}
