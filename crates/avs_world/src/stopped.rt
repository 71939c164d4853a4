// A write in which a fault stopped the host, and which of its blocks read as written.
ghost use Rattle.std.specs.Prelude.{◌≡◌, ◌+◌, ◌*◌, ◌<◌, ◌≤◌, length, IfOk};
ghost use Rattle.std.specs.Str.{bytes_eq};
ghost use Rattle.avs_seg.specs.Image.{block_at, blocks_of};
ghost use Rattle.avs_world.specs.Torn.{filled_by};

use avs_model::{Name, Pattern};
use avs_seg::{BLOCK, NoMemory, SegList};
use avs_text::fill;
use std::alloc::Global;

/// The event in which a fault stopped the host, where something is told of it.
#[derive(Debug, Drop)]
pub enum Stopped {
    Write(StoppedWrite),
    /// A command, which stands or not.
    Command,
}

/// A write in which a fault stopped the host. It is what the script asked for, and no memory of the host.
#[derive(Debug, Drop)]
pub struct StoppedWrite {
    pub volume: Name,
    pub at: u32,
    pub len: u32,
    pub pattern: Pattern,
    ghost some: { 0 < len },
    ghost most: { len ≤ 256 },
}

impl StoppedWrite {
    ghost use Rattle.std.specs.Prelude.{◌≡◌, ◌<◌, ◌≤◌, IfOk};
    ghost use Rattle.avs_model.specs.declared.event.Host.TheVariants.{P};
    ghost use Rattle.avs_model.specs.declared.event.Event.TheVariants.{Write};
    ghost use Rattle.avs_world.specs.World.{event_of};

    pub fn new(
        alloc: Global,
        volume: &Name,
        at: u32,
        len: u32,
        pattern: &Pattern,
    ) -> Result<StoppedWrite, NoMemory>
        requires some { 0 < len }
        requires most { len ≤ 256 }
        ensures event { IfOk result (λ write. event_of write ≡ Write P volume.now at len pattern.now) }
    {
        Ok(StoppedWrite {
            volume: volume.copy(alloc)?,
            at,
            len,
            pattern: Pattern::new(pattern.as_slice()),
        })
    }
}

// Whether block i of these bytes is that block.
fn is_block(bytes: &[u8], i: u32, block: &[u8]) -> bool
    requires within { 512 * i + 512 ≤ length bytes.now }
    ensures { result ≡ bytes_eq (block_at (blocks_of bytes.now) i) block.now }
{
    let start = BLOCK * i as usize;
    &bytes[start..start + BLOCK] == block
}

/// Of these `len` blocks, counted from 0, those that the pattern fills.
pub fn filled_blocks(
    alloc: Global,
    bytes: &[u8],
    len: u32,
    pattern: &Pattern,
) -> Result<SegList, NoMemory>
    requires { length bytes.now ≡ 512 * len }
    ensures { IfOk result (λ blocks. blocks ≡ filled_by pattern.now (blocks_of bytes.now) len) }
{
    let mut block = [0; BLOCK];
    fill(pattern, &mut block);
    let mut blocks = SegList::new(alloc);
    for i in 0..len {
        if is_block(bytes, i, &block) {
            blocks.push(i)?;
        }
    }
    Ok(blocks)
}
