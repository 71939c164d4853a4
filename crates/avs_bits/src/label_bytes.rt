// The bytes of a bitmap: its label, and behind it the bits.
ghost use Rattle.std.specs.Prelude.{◌≡◌, ◌+◌, ◌*◌, ◌/◌, ◌<◌, ◌≤◌, ◌^◌, IfOk, IfErr, OnOk, IsOk, IsTrue, nat_lt, length, replicate, take, ℕ};
ghost use Rattle.avs_seg.specs.Segment.{seg_count};
ghost use Rattle.avs_seg.specs.Image.{block_at, blocks_of};
ghost use Rattle.avs_seg.specs.Causes.{HasCause};
ghost use Rattle.avs_dev.specs.Seen.{IsTold, IsRange, GoesOn};
ghost use Rattle.avs_bits.specs.Bit.{bit_of, IsHeld};
ghost use Rattle.avs_code.specs.Label.{IsLabel, IsBadLabel, LabelKeeps, label_block};
ghost use Rattle.avs_bits.specs.BitSet.{blocks_for, bitmap_use, bitmap_label, NoRoom};

use crate::changes::BLOCK_BITS;
use avs_code::{BadRecord, Label, LabelUse, get_label_of, put_label};
use avs_dev::{Disk, Why};
use avs_seg::{BLOCK, Failed, NoMemory, seg_count};
use std::alloc::Global;

// So many bytes of zeros.
fn zeros(alloc: Global, count: usize) -> Result<Vec<u8>, NoMemory>
    ensures items { IfOk result (λ v. v.items ≡ replicate count 0) }
    ensures len { IfOk result (λ v. length v.items ≡ count) }
{
    Ok(vec![in alloc; 0; count]?)
}

// Room for the label and the bits of so many segments, where the disk has it too.
pub(crate) fn room<D: Disk>(alloc: Global, disk: &D, segs: u32) -> Result<Vec<u8>, Why>
    requires { segs ≤ 2 ^ 26 }
    ensures fits { IfOk result (λ _. blocks_for segs ≤ (D.seen disk.now).size) }
    ensures items { IfOk result (λ v. v.items ≡ replicate (512 * blocks_for segs) 0) }
    ensures len { IfOk result (λ v. length v.items ≡ 512 * blocks_for segs) }
    ensures refused { IfErr result (λ why. NoRoom (D.seen disk.now) segs why (D.seen disk.now)) }
{
    let have = disk.blocks();
    let need = 1 + segs.div_ceil(BLOCK_BITS);
    if have < need {
        return Err(Why::Size { need, have });
    }
    Ok(zeros(alloc, BLOCK * need as usize)?)
}

// Puts a label before the bits.
pub(crate) fn put_first(bytes: &mut [u8], label: &Label)
    requires room { 512 ≤ length bytes.old }
    requires keeps { LabelKeeps label.now }
    ensures len { length bytes.new ≡ length bytes.old }
    ensures label { block_at (blocks_of bytes.new) 0 ≡ label_block label.now }
    ensures bits { (p : ℕ) → 4096 ≤ p → bit_of bytes.new p ≡ bit_of bytes.old p }
{
    let mut block = [0; BLOCK];
    put_label(label, &mut block);
    bytes[..BLOCK].copy_from_slice(&block);
}

// What the label of a bitmap says of a volume of so many blocks.
fn bitmap_use(import: bool, blocks: u32) -> LabelUse
    ensures { result ≡ bitmap_use import blocks }
{
    let kind = if import {
        Label::IMPORT_BITMAP
    } else {
        Label::MIRROR_BITMAP
    };
    LabelUse {
        kind,
        blocks,
        segments: seg_count(blocks),
    }
}

// The label of a bitmap.
pub(crate) fn bitmap_label(blocks: u32, stamp: u64) -> Label
    requires { stamp ≤ 2 ^ 62 }
    ensures is { result ≡ bitmap_label (nat_lt 0 stamp) blocks stamp }
    ensures keeps { LabelKeeps result }
{
    let LabelUse {
        kind,
        blocks,
        segments,
    } = bitmap_use(stamp > 0, blocks);
    Label {
        version: 1,
        kind,
        blocks,
        segments,
        stamp,
    }
}

// Reads the label and the bits of a disk.
pub(crate) fn read_first<D: Disk>(disk: &mut D, bytes: &mut [u8]) -> Result<(), Failed>
    requires range { IsRange (D.seen disk.old) 0 (length bytes.old) }
    ensures rest { D.seen disk.new ≡ record (D.seen disk.old) { faults = (D.seen disk.new).faults } }
    ensures cause { HasCause (D.seen disk.old).faults (D.seen disk.new).faults result }
    ensures goes { GoesOn (D.seen disk.old) result (D.seen disk.new) }
    ensures sure { IsTrue (D.seen disk.old).steady → IsOk result }
    ensures len { length bytes.new ≡ length bytes.old }
    ensures label { IsTold (D.seen disk.old) → OnOk result (block_at (D.seen disk.old).image 0 ≡ take 512 bytes.new) }
    ensures held { IsTold (D.seen disk.old) → (n : ℕ) → n ≤ 8 * length bytes.old
        → OnOk result (IsHeld (D.seen disk.old).image n (bit_of bytes.new)) }
{
    disk.read(0, bytes)
}

// The stamp of the label before the bits, where it is the label of such a bitmap.
pub(crate) fn stamp_of(bytes: &[u8], import: bool, blocks: u32) -> Result<u64, BadRecord>
    requires { 512 ≤ length bytes.now }
    ensures ok { IfOk result (λ stamp. IsLabel (take 512 bytes.now) (bitmap_label import blocks stamp)) }
    ensures bad { IfErr result (λ e. IsBadLabel (take 512 bytes.now) (bitmap_use import blocks) e.0) }
    ensures exact { (stamp : ℕ) → IsLabel (take 512 bytes.now) (bitmap_label import blocks stamp) → IsOk result }
{
    let mut block = [0; BLOCK];
    block.copy_from_slice(&bytes[..BLOCK]);
    let label = get_label_of(&block, bitmap_use(import, blocks))?;
    Ok(label.stamp)
}
