// The label and the areas of a compact set's bitmap.
ghost use Rattle.std.specs.Prelude.{◌≡◌, ◌+◌, ◌*◌, ◌/◌, ◌<◌, ◌≤◌, ◌^◌, IfOk, IfErr, OnOk, OnErr, None, if◌then◌else◌, length, replicate};
ghost use Rattle.avs_seg.specs.Image.{block_at};
ghost use Rattle.avs_seg.specs.Segment.{seg_count};
ghost use Rattle.avs_dev.specs.Seen.{IsTold};
ghost use Rattle.avs_flip.specs.Areas.{live};
ghost use Rattle.avs_code.specs.Label.{IsLabel, LabelKeeps};
ghost use Rattle.avs_entries.specs.Entries.{area_len, blocks_for, entry_in};
ghost use Rattle.avs_entries.specs.Bitmap.{compact_use, compact_label, Fits, RoomRefused, Formats, FailsRead, ReadRefused, LoadRefused, HasArea, IsNotLabel, areas_on};
ghost use Rattle.avs_entries.specs.Slots.{IsClean, Marks};

use crate::entries::{ENTRIES, clear_from};
use crate::marks::{Counts, mark_all};
use avs_code::{BadRecord, Label, LabelUse, get_label_of, put_label};
use avs_dev::{Disk, Why};
use avs_seg::{BLOCK, Failed, NoMemory, SEGMENT, seg_count};
use std::alloc::Global;

/// Room for the entries of a set, for the table of its own slots, for a chunk, and for a map with a bit for each chunk.
#[derive(Drop)]
pub struct Room {
    pub memory: Vec<u8>,
    pub next: Vec<u8>,
    pub table: Vec<Option<u32>>,
    pub buffer: Vec<u8>,
    pub map: Vec<u8>,
}

/// What is read of a set.
#[derive(Drop)]
pub struct Found {
    pub room: Room,
    pub counts: Counts,
}

// So many bytes of zeros.
fn zeros(alloc: Global, count: usize) -> Result<Vec<u8>, NoMemory>
    ensures items { IfOk result (λ v. v.items ≡ replicate count 0) }
    ensures len { IfOk result (λ v. length v.items ≡ count) }
{
    Ok(vec![in alloc; 0; count]?)
}

// So many own slots, none of them given.
fn all_free(alloc: Global, slots: usize) -> Result<Vec<Option<u32>>, NoMemory>
    ensures items { IfOk result (λ v. v.items ≡ replicate slots None) }
    ensures len { IfOk result (λ v. length v.items ≡ slots) }
{
    Ok(vec![in alloc; None; slots]?)
}

/// The blocks of an area with the entries of a set of so many blocks.
pub fn area_len(blocks: u32) -> u32
    ensures is { result ≡ area_len (seg_count blocks) }
    ensures small { result ≤ 2 ^ 19 }
{
    seg_count(blocks).div_ceil(ENTRIES)
}

/// Room for a set of so many blocks with so many own slots, where a bitmap's disk of this size has it too.
pub fn make_room(alloc: Global, own: u32, bitmap: u32, blocks: u32) -> Result<Room, Why>
    ensures fits { IfOk result (λ _. Fits bitmap blocks) }
    ensures memory { IfOk result (λ r. r.memory.items ≡ replicate (512 * area_len (seg_count blocks)) 0) }
    ensures long { IfOk result (λ r. length r.memory.items ≡ 512 * area_len (seg_count blocks)) }
    ensures next { IfOk result (λ r. r.next.items ≡ replicate (512 * area_len (seg_count blocks)) 0) }
    ensures next_long { IfOk result (λ r. length r.next.items ≡ 512 * area_len (seg_count blocks)) }
    ensures table { IfOk result (λ r. r.table.items ≡ replicate own None) }
    ensures table_long { IfOk result (λ r. length r.table.items ≡ own) }
    ensures buffer { IfOk result (λ r. length r.buffer.items ≡ 32768) }
    ensures map { IfOk result (λ r. length r.map.items ≡ (seg_count blocks + 7) / 8) }
    ensures refused { IfErr result (λ why. RoomRefused bitmap blocks why) }
{
    let len = area_len(blocks);
    let need = 1 + 2 * len;
    if bitmap < need {
        return Err(Why::Size { need, have: bitmap });
    }
    Ok(Room {
        memory: zeros(alloc, BLOCK * len as usize)?,
        next: zeros(alloc, BLOCK * len as usize)?,
        table: all_free(alloc, own as usize)?,
        buffer: zeros(alloc, BLOCK * SEGMENT as usize)?,
        map: zeros(alloc, seg_count(blocks).div_ceil(8) as usize)?,
    })
}

// What the bitmap of a set of so many blocks serves as.
fn compact_use(blocks: u32) -> LabelUse
    ensures { result ≡ compact_use blocks }
{
    LabelUse {
        kind: Label::COMPACT_BITMAP,
        blocks,
        segments: seg_count(blocks),
    }
}

// The label of a set of so many blocks.
fn compact_label(blocks: u32) -> Label
    ensures is { result ≡ compact_label blocks }
    ensures keeps { LabelKeeps result }
{
    let LabelUse {
        kind,
        blocks,
        segments,
    } = compact_use(blocks);
    Label {
        version: 1,
        kind,
        blocks,
        segments,
        stamp: 0,
    }
}

/// Writes the label, and both areas with these entries.
pub fn format<D: Disk>(disk: &mut D, blocks: u32, memory: &[u8]) -> Result<(), Failed>
    requires some { 0 < blocks }
    requires fits { blocks_for (seg_count blocks) ≤ (D.seen disk.old).size }
    requires zeros { memory.now ≡ replicate (512 * area_len (seg_count blocks)) 0 }
    requires long { length memory.now ≡ 512 * area_len (seg_count blocks) }
    ensures { Formats (D.seen disk.old) blocks result (D.seen disk.new) }
{
    let mut block = [0; BLOCK];
    put_label(&compact_label(blocks), &mut block);
    disk.write(0, &block)?;
    disk.write(1, memory)?;
    disk.write(1 + area_len(blocks), memory)
}

// Refuses a block that is not the label of a set of so many blocks.
fn check_label(block: &[u8; BLOCK], blocks: u32) -> Result<(), BadRecord>
    ensures ok { OnOk result (IsLabel block.now (compact_label blocks)) }
    ensures bad { IfErr result (λ e. IsNotLabel block.now blocks e.0) }
{
    get_label_of(block, compact_use(blocks))?;
    Ok(())
}

// Reads the label of a set of so many blocks.
fn read_label<D: Disk>(disk: &mut D, blocks: u32) -> Result<(), Why>
    requires { 0 < (D.seen disk.old).size }
    ensures kept { OnOk result (D.seen disk.new ≡ D.seen disk.old) }
    ensures label { IsTold (D.seen disk.old) → OnOk result (IsLabel (block_at (D.seen disk.old).image 0) (compact_label blocks)) }
    ensures refused { IfErr result (λ why. ReadRefused (D.seen disk.old) blocks why (D.seen disk.new)) }
{
    let mut block = [0; BLOCK];
    disk.read(0, &mut block)?;
    match check_label(&block, blocks) {
        Ok(()) => Ok(()),
        Err(BadRecord(field)) => Err(Why::BadRecord(field)),
    }
}

// Where the live area begins.
fn live_first(blocks: u32, live_b: bool) -> u32
    ensures is { result ≡ (if live_b then 1 + area_len (seg_count blocks) else 1) }
    ensures small { result < 2 ^ 20 }
{
    if live_b { 1 + area_len(blocks) } else { 1 }
}

// Reads the entries of the live area.
fn read_entries<D: Disk>(
    disk: &mut D,
    blocks: u32,
    live_b: bool,
    memory: &mut [u8],
) -> Result<(), Failed>
    requires some { 0 < blocks }
    requires fits { blocks_for (seg_count blocks) ≤ (D.seen disk.old).size }
    requires long { length memory.old ≡ 512 * area_len (seg_count blocks) }
    ensures kept { OnOk result (D.seen disk.new ≡ D.seen disk.old) }
    ensures failed { OnErr result (FailsRead (D.seen disk.old) (D.seen disk.new)) }
    ensures len { length memory.new ≡ length memory.old }
    ensures clean { OnOk result (IsClean memory.new (seg_count blocks)) }
    ensures area { IsTold (D.seen disk.old)
        → OnOk result (HasArea (live (areas_on (D.seen disk.old) blocks live_b)) (seg_count blocks) memory.new) }
{
    disk.read(live_first(blocks, live_b), memory)?;
    clear_from(memory, seg_count(blocks));
    Ok(())
}

/// Reads the label and the entries of a set of so many blocks with so many own slots.
pub fn find<D: Disk>(
    alloc: Global,
    own: u32,
    disk: &mut D,
    blocks: u32,
    live_b: bool,
) -> Result<Found, Why>
    requires { 0 < blocks }
    ensures kept { IfOk result (λ _. D.seen disk.new ≡ D.seen disk.old) }
    ensures fits { IfOk result (λ _. Fits (D.seen disk.old).size blocks) }
    ensures long { IfOk result (λ f. length f.room.memory.items ≡ 512 * area_len (seg_count blocks)) }
    ensures next { IfOk result (λ f. f.room.next.items ≡ replicate (512 * area_len (seg_count blocks)) 0) }
    ensures next_long { IfOk result (λ f. length f.room.next.items ≡ 512 * area_len (seg_count blocks)) }
    ensures buffer { IfOk result (λ f. length f.room.buffer.items ≡ 32768) }
    ensures map { IfOk result (λ f. length f.room.map.items ≡ (seg_count blocks + 7) / 8) }
    ensures clean { IfOk result (λ f. IsClean f.room.memory.items (seg_count blocks)) }
    ensures marked { IfOk result (λ f. Marks (entry_in f.room.memory.items) own (seg_count blocks) f.room.table.items f.counts) }
    ensures label { IfOk result (λ _. IsTold (D.seen disk.old) → IsLabel (block_at (D.seen disk.old).image 0) (compact_label blocks)) }
    ensures area { IfOk result (λ f. IsTold (D.seen disk.old)
        → HasArea (live (areas_on (D.seen disk.old) blocks live_b)) (seg_count blocks) f.room.memory.items) }
    ensures refused { IfErr result (λ why. LoadRefused own (D.seen disk.old) blocks live_b why (D.seen disk.new)) }
{
    let mut room = make_room(alloc, own, disk.blocks(), blocks)?;
    read_label(disk, blocks)?;
    read_entries(disk, blocks, live_b, &mut room.memory)?;
    match mark_all(&mut room.table, &room.memory, seg_count(blocks)) {
        Ok(counts) => Ok(Found { room, counts }),
        Err(BadRecord(field)) => Err(Why::BadRecord(field)),
    }
}
