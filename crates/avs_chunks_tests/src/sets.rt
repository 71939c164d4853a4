// Sets on disks in memory, and calls on them. A call that may fail says whether it went well.

use avs_chunks::Chunks;
use avs_dev::{Back, Closed2, Disk, MemDisk, Why};
use avs_model::Kind;
use avs_seg::{BLOCK, Failed};
use std::alloc::Global;
use std::fmt::Debug;
use std::process::Abort;

/// Three chunks, the last of eight blocks.
pub const BLOCKS: u32 = 136;

pub fn same<T: PartialEq + Debug + Drop>(rt: &impl Abort, found: T, want: T) {
    assert_eq!(rt; found, want);
}

/// A disk of zeros of which the calls with these numbers fail.
pub fn disk(rt: &impl Abort, alloc: Global, blocks: u32, fails: &[u64]) -> MemDisk {
    let fails = fails.to_vec(alloc).expect(rt, "memory");
    MemDisk::new(alloc, blocks, fails).expect(rt, "memory")
}

fn some(rt: &impl Abort, made: Result<Chunks<MemDisk>, Closed2<MemDisk>>) -> Chunks<MemDisk> {
    match made {
        Ok(set) => set,
        Err(_) => panic!(rt; "a new set"),
    }
}

/// The blocks of a bitmap of a set of so many blocks: a label, and two areas.
pub fn bitmap_blocks(blocks: u32) -> u32 {
    1 + 2 * blocks.div_ceil(64).div_ceil(2048)
}

/// A new set of so many blocks.
pub fn made(rt: &impl Abort, alloc: Global, kind: Kind, blocks: u32) -> Chunks<MemDisk> {
    let shadow = disk(rt, alloc, blocks, &[]);
    let bitmap = disk(rt, alloc, bitmap_blocks(blocks), &[]);
    assert!(rt; 0 < blocks);
    some(rt, Chunks::make(alloc, kind, shadow, bitmap, blocks))
}

type Loaded = Result<Chunks<MemDisk>, Back<(Option<MemDisk>, MemDisk), Why>>;

fn found(rt: &impl Abort, loaded: Loaded) -> Chunks<MemDisk> {
    match loaded {
        Ok(set) => set,
        Err(_) => panic!(rt; "a set"),
    }
}

/// The set as it is found again on its disks, with area B live where `live_b` says so.
pub fn again(
    rt: &impl Abort,
    alloc: Global,
    set: Chunks<MemDisk>,
    live_b: bool,
) -> Chunks<MemDisk> {
    let kind = set.kind();
    let blocks = set.blocks();
    assert!(rt; 0 < blocks);
    let (shadow, bitmap) = set.into_disks();
    found(
        rt,
        Chunks::load(alloc, kind, shadow, bitmap, blocks, live_b),
    )
}

/// Writes blocks of a disk.
pub fn put_blocks(rt: &impl Abort, disk: &mut MemDisk, at: u32, bytes: &[u8]) -> bool {
    let count = bytes.len() / BLOCK;
    assert!(rt; 0 < count && bytes.len() == BLOCK * count);
    assert!(rt; count <= 4096 && at < 1 << 30 && at + count as u32 <= disk.blocks());
    disk.write(at, bytes).is_ok()
}

// Saves a chunk.
fn save(rt: &impl Abort, set: &mut Chunks<MemDisk>, master: &mut MemDisk, chunk: u32) -> bool {
    assert!(rt; set.has_shadow() && master.blocks() == set.blocks());
    assert!(rt; chunk < set.chunks());
    set.save_before(master, chunk).is_ok()
}

/// Saves the chunks of a range, one after another.
pub fn save_all(
    rt: &impl Abort,
    set: &mut Chunks<MemDisk>,
    master: &mut MemDisk,
    at: u32,
    count: u32,
) -> bool {
    for chunk in at / 64..at.saturating_add(count).div_ceil(64) {
        if !save(rt, set, master, chunk) {
            return false;
        }
    }
    true
}

/// Writes blocks of the shadow.
pub fn write(
    rt: &impl Abort,
    set: &mut Chunks<MemDisk>,
    master: &mut MemDisk,
    at: u32,
    bytes: &[u8],
) -> bool {
    let count = bytes.len() / BLOCK;
    assert!(rt; 0 < count && bytes.len() == BLOCK * count);
    assert!(rt; set.has_shadow() && master.blocks() == set.blocks());
    assert!(rt; count <= 4096 && at < 1 << 30 && at + count as u32 <= set.blocks());
    set.write(master, at, bytes).is_ok()
}

/// Reads blocks of the shadow.
pub fn read(
    rt: &impl Abort,
    set: &mut Chunks<MemDisk>,
    master: &mut MemDisk,
    at: u32,
    out: &mut [u8],
) {
    let count = out.len() / BLOCK;
    assert!(rt; 0 < count && out.len() == BLOCK * count);
    assert!(rt; set.has_shadow() && master.blocks() == set.blocks());
    assert!(rt; count <= 4096 && at < 1 << 30 && at + count as u32 <= set.blocks());
    assert!(rt; set.read(master, at, out).is_ok());
}

/// One copy step.
pub fn copy(
    rt: &impl Abort,
    set: &mut Chunks<MemDisk>,
    master: &mut MemDisk,
) -> Result<Option<u32>, Failed> {
    assert!(rt; set.has_shadow() && master.blocks() == set.blocks());
    set.copy_one(master)
}

/// Stages a part with this chunk split, where it is one of it, which is copied before where it stands on the master alone.
pub fn stage(
    rt: &impl Abort,
    set: &mut Chunks<MemDisk>,
    master: &mut MemDisk,
    part: u32,
    chunk: u32,
) {
    let mut split = [0; 256];
    if chunk / 2048 == part {
        split[chunk as usize % 2048 / 8] = 1 << (chunk % 8);
    }
    assert!(rt; part < 4 && 2048 * part < set.chunks());
    assert!(rt; set.has_shadow() && set.can_save() && master.blocks() == set.blocks());
    assert!(rt; set.stage_part(master, part, &split).is_ok());
}

/// Whether a bit stands for a chunk of a part.
pub fn has(bits: &[u8; 256], place: u32) -> bool {
    place < 2048 && bits[place as usize / 8] >> (place % 8) & 1 == 1
}

/// The chunks of a part that are split.
pub fn moved_part(rt: &impl Abort, set: &Chunks<MemDisk>, part: u32) -> [u8; 256] {
    let mut bits = [0x55; 256];
    assert!(rt; part < 4 && 2048 * part < set.chunks());
    assert!(rt; set.moved_part(part, &mut bits).is_ok());
    bits
}

/// The sizes of `left`, `back` and `moved`.
pub fn sizes(set: &Chunks<MemDisk>) -> (u32, u32, u32) {
    (set.left(), set.back(), set.moved())
}

/// Blocks that have one byte throughout: that byte of the block at a place.
pub fn byte_in(rt: &impl Abort, bytes: &[u8], place: u32) -> u8 {
    let start = BLOCK * place as usize;
    assert!(rt; start + BLOCK <= bytes.len());
    let block = &bytes[start..start + BLOCK];
    assert!(rt; block[0] == block[BLOCK - 1]);
    block[0]
}

/// Sees a byte in a block of the shadow.
pub fn sees(rt: &impl Abort, set: &mut Chunks<MemDisk>, master: &mut MemDisk, at: u32, want: u8) {
    let mut block = [0; BLOCK];
    read(rt, set, master, at, &mut block);
    same(rt, byte_in(rt, &block, 0), want);
}

/// Gives the shadow back.
pub fn give(rt: &impl Abort, set: &mut Chunks<MemDisk>, shadow: MemDisk) {
    assert!(rt; !set.has_shadow() && set.blocks() <= shadow.blocks());
    set.give_shadow(shadow);
}
