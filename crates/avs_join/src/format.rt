// The bitmap of an import is formatted: its label goes, its bits are cleared, and the label of the import comes.
ghost use Rattle.std.specs.Prelude.{◌≡◌, ◌+◌, ◌-◌, ◌*◌, ◌/◌, ◌<◌, ◌≤◌, ◌^◌, IfOk, IfErr, true, length, replicate};
ghost use Rattle.avs_seg.specs.Segment.{seg_count};
ghost use Rattle.avs_code.specs.Label.{LabelKeeps};
ghost use Rattle.avs_bits.specs.BitSet.{bitmap_label};
ghost use Rattle.avs_model.specs.Limits.{import_blocks};
ghost use Rattle.avs_join.specs.Formatting.{Formats, FormatsOrNot, WritesFirst, IsNoLabel, IsImportLabel, ClearsBits, NoImportRoom};

use avs_code::{Label, put_label};
use avs_dev::{Disk, Why};
use avs_seg::{BLOCK, Failed, NoMemory, seg_count};
use std::alloc::Global;

// The block of the label, and the first of the bits.
const LABEL: u32 = 0;

const BITS: u32 = 1;

// The bits of a block.
const BLOCK_BITS: u32 = 4096;

// So many bytes of zeros.
fn zeros(alloc: Global, count: usize) -> Result<Vec<u8>, NoMemory>
    ensures items { IfOk result (λ v. v.items ≡ replicate count 0) }
{
    Ok(vec![in alloc; 0; count]?)
}

// How many blocks have the bits of a volume of so many blocks.
fn bit_blocks(blocks: u32) -> u32
    ensures { 1 + result ≡ import_blocks blocks }
{
    seg_count(blocks).div_ceil(BLOCK_BITS)
}

// Clear bits for the segments of so many blocks, where the bitmap has room for them.
fn clear_bits<D: Disk>(alloc: Global, bitmap: &D, blocks: u32) -> Result<Vec<u8>, Why>
    ensures fits { IfOk result (λ _. import_blocks blocks ≤ (D.seen bitmap.now).size) }
    ensures zeros { IfOk result (λ v. v.items ≡ replicate (512 * (import_blocks blocks - 1)) 0) }
    ensures refused { IfErr result (λ why. NoImportRoom (D.seen bitmap.now) blocks why) }
{
    let have = bitmap.blocks();
    let count = bit_blocks(blocks);
    let need = BITS + count;
    if have < need {
        return Err(Why::Size { need, have });
    }
    Ok(zeros(alloc, BLOCK * count as usize)?)
}

// Takes away the label of a volume, whatever it served as.
fn unlabel<D: Disk>(bitmap: &mut D) -> Result<(), Failed>
    requires { 0 < (D.seen bitmap.old).size }
    ensures { WritesFirst IsNoLabel (D.seen bitmap.old) result (D.seen bitmap.new) }
{
    bitmap.write(LABEL, &[0; BLOCK])
}

// Writes clear bits, of which there are none for a volume without blocks.
fn write_bits<D: Disk>(bitmap: &mut D, zeros: &[u8], count: u32) -> Result<(), Failed>
    requires zeros { zeros.now ≡ replicate (512 * count) 0 }
    requires fits { count < (D.seen bitmap.old).size }
    ensures { ClearsBits (D.seen bitmap.old) count result (D.seen bitmap.new) }
{
    if zeros.is_empty() {
        return Ok(());
    }
    bitmap.write(BITS, zeros)
}

fn import_label(blocks: u32, stamp: u64) -> Label
    requires { stamp ≤ 2 ^ 62 }
    ensures is { result ≡ bitmap_label true blocks stamp }
    ensures keeps { LabelKeeps result }
{
    Label {
        version: 1,
        kind: Label::IMPORT_BITMAP,
        blocks,
        segments: seg_count(blocks),
        stamp,
    }
}

fn write_label<D: Disk>(bitmap: &mut D, blocks: u32, stamp: u64) -> Result<(), Failed>
    requires stamp { stamp ≤ 2 ^ 62 }
    requires fits { 0 < (D.seen bitmap.old).size }
    ensures { WritesFirst (IsImportLabel blocks stamp) (D.seen bitmap.old) result (D.seen bitmap.new) }
{
    let mut block = [0; BLOCK];
    put_label(&import_label(blocks, stamp), &mut block);
    bitmap.write(LABEL, &block)
}

// Its old label goes first and the new one comes last, so that a stop never leaves a label over the bits of another use.
fn write_all<D: Disk>(bitmap: &mut D, zeros: &[u8], blocks: u32, stamp: u64) -> Result<(), Failed>
    requires stamp { stamp ≤ 2 ^ 62 }
    requires zeros { zeros.now ≡ replicate (512 * (import_blocks blocks - 1)) 0 }
    requires fits { import_blocks blocks ≤ (D.seen bitmap.old).size }
    ensures { Formats (D.seen bitmap.old) blocks stamp result (D.seen bitmap.new) }
{
    unlabel(bitmap)?;
    write_bits(bitmap, zeros, bit_blocks(blocks))?;
    write_label(bitmap, blocks, stamp)
}

// Formats the bitmap of an import of a volume of so many blocks.
pub(crate) fn format<D: Disk>(
    alloc: Global,
    bitmap: &mut D,
    blocks: u32,
    stamp: u64,
) -> Result<(), Why>
    requires { stamp ≤ 2 ^ 62 }
    ensures { FormatsOrNot (D.seen bitmap.old) blocks stamp result (D.seen bitmap.new) }
{
    let zeros = clear_bits(alloc, bitmap, blocks)?;
    write_all(bitmap, &zeros, blocks, stamp)?;
    Ok(())
}
