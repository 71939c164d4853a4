// Compact sets on disks in memory, and calls on them. Each is given the master's disk and the
// overflow volume.

use crate::tests::{disk, same};
use avs_compact::{ChunkState, Compact, CompactFault};
use avs_dev::{Back, Closed, Closed2, Disk, MemDisk, Why};
use avs_over::Over;
use avs_seg::{BLOCK, Failed};
use std::alloc::Global;
use std::process::Abort;

/// What came of a call.
#[derive(Clone, Copy, Debug, PartialEq, Eq, Drop)]
pub enum Came {
    Done,
    /// The slots that the set would need, and its room.
    Offline(u32, u32),
    Failed,
}

fn outcome(answer: Result<(), CompactFault>) -> Came {
    match answer {
        Ok(()) => Came::Done,
        Err(CompactFault::Offline { need, slots }) => Came::Offline(need, slots),
        Err(CompactFault::Failed) => Came::Failed,
    }
}

fn some(rt: &impl Abort, made: Result<Compact<MemDisk>, Closed2<MemDisk>>) -> Compact<MemDisk> {
    match made {
        Ok(set) => set,
        Err(_) => panic!(rt; "a new set"),
    }
}

/// A new set of so many blocks, with so many of the shadow's disk.
pub fn made(
    rt: &impl Abort,
    alloc: Global,
    number: u32,
    shadow: u32,
    blocks: u32,
) -> Compact<MemDisk> {
    assert!(rt; 0 < blocks && blocks < 1 << 20);
    let states = 1 + 2 * blocks.div_ceil(64).div_ceil(128);
    let (shadow, bitmap) = (disk(rt, alloc, shadow), disk(rt, alloc, states));
    some(rt, Compact::make(alloc, number, shadow, bitmap, blocks))
}

fn new_over(rt: &impl Abort, made: Result<Over<MemDisk>, Closed<MemDisk>>) -> Over<MemDisk> {
    match made {
        Ok(over) => over,
        Err(_) => panic!(rt; "an overflow volume"),
    }
}

/// A new overflow volume of so many slots, with a block to spare.
pub fn made_over(rt: &impl Abort, alloc: Global, slots: u32) -> Option<Over<MemDisk>> {
    assert!(rt; slots < 1 << 16);
    let slots = disk(rt, alloc, 2 + 64 * slots);
    assert!(rt; 0 < slots.blocks());
    Some(new_over(rt, Over::make(alloc, slots)))
}

type Loaded = Result<Compact<MemDisk>, Back<(Option<MemDisk>, MemDisk), Why>>;

fn found(rt: &impl Abort, loaded: Loaded) -> Compact<MemDisk> {
    match loaded {
        Ok(set) => set,
        Err(_) => panic!(rt; "a set"),
    }
}

/// The set of a number, of so many blocks, as it is found on its disks, with area B live where
/// `live_b` says so.
pub fn found_on(
    rt: &impl Abort,
    alloc: Global,
    number: u32,
    (shadow, bitmap): (Option<MemDisk>, MemDisk),
    blocks: u32,
    live_b: bool,
) -> Compact<MemDisk> {
    assert!(rt; 0 < blocks);
    found(
        rt,
        Compact::load(alloc, number, shadow, bitmap, blocks, live_b),
    )
}

/// The same set, found again.
pub fn again(
    rt: &impl Abort,
    alloc: Global,
    number: u32,
    set: Compact<MemDisk>,
    live_b: bool,
) -> Compact<MemDisk> {
    let blocks = set.blocks();
    found_on(rt, alloc, number, set.into_disks(), blocks, live_b)
}

/// Adds the slots of the overflow volume that a set of a number uses.
pub fn add_slots(
    rt: &impl Abort,
    pairs: &mut Vec<(u32, u32)>,
    number: u32,
    set: &Compact<MemDisk>,
) {
    let mut from = 0;
    for _ in 0..set.chunks() {
        if let Ok(Some((chunk, slot))) = set.next_over(from) {
            pairs.push((number, slot)).expect(rt, "memory");
            from = chunk.saturating_add(1);
        }
    }
}

/// The overflow volume as it is found again, with slots given by these pairs.
pub fn over_again(
    rt: &impl Abort,
    alloc: Global,
    over: Option<Over<MemDisk>>,
    pairs: &[(u32, u32)],
) -> Option<Over<MemDisk>> {
    match over {
        Some(over) => Some(new_over(rt, Over::load(alloc, over.into_disk(), pairs))),
        None => None,
    }
}

/// Saves the chunks of a range of blocks.
pub fn save(
    rt: &impl Abort,
    set: &mut Compact<MemDisk>,
    master: &mut MemDisk,
    over: &mut Option<Over<MemDisk>>,
    (at, count): (u32, u32),
) -> Came {
    let first = at / 64;
    let end = at.saturating_add(count).div_ceil(64);
    assert!(rt; first <= end && end <= set.chunks() && master.blocks() == set.blocks());
    assert!(rt; set.has_shadow() && set.is_served(over));
    outcome(set.save_before(master, over, first, end - first))
}

/// One copy step.
pub fn copy(
    rt: &impl Abort,
    set: &mut Compact<MemDisk>,
    master: &mut MemDisk,
    over: &mut Option<Over<MemDisk>>,
) -> Result<Option<u32>, Failed> {
    assert!(rt; master.blocks() == set.blocks());
    assert!(rt; set.has_shadow() && set.is_served(over));
    set.copy_one(master, over)
}

/// Writes blocks of the shadow.
pub fn write(
    rt: &impl Abort,
    set: &mut Compact<MemDisk>,
    master: &mut MemDisk,
    over: &mut Option<Over<MemDisk>>,
    at: u32,
    bytes: &[u8],
) -> Came {
    let count = bytes.len() / BLOCK;
    assert!(rt; 0 < count && bytes.len() == BLOCK * count);
    assert!(rt; count <= 4096 && at < 1 << 30 && at + count as u32 <= set.blocks());
    assert!(rt; master.blocks() == set.blocks());
    assert!(rt; set.has_shadow() && set.is_served(over));
    outcome(set.write(master, over, at, bytes))
}

/// Reads blocks of the shadow.
pub fn read(
    rt: &impl Abort,
    set: &mut Compact<MemDisk>,
    master: &mut MemDisk,
    over: &mut Option<Over<MemDisk>>,
    at: u32,
    out: &mut [u8],
) {
    let count = out.len() / BLOCK;
    assert!(rt; 0 < count && out.len() == BLOCK * count);
    assert!(rt; count <= 4096 && at < 1 << 30 && at + count as u32 <= set.blocks());
    assert!(rt; master.blocks() == set.blocks());
    assert!(rt; set.has_shadow() && set.is_served(over));
    assert!(rt; set.read(master, over, at, out).is_ok());
}

/// Writes blocks of a disk.
pub fn put_blocks(rt: &impl Abort, disk: &mut MemDisk, at: u32, bytes: &[u8]) -> bool {
    let count = bytes.len() / BLOCK;
    assert!(rt; 0 < count && bytes.len() == BLOCK * count);
    assert!(rt; count <= 4096 && at < 1 << 30 && at + count as u32 <= disk.blocks());
    disk.write(at, bytes).is_ok()
}

/// Reads blocks of a disk.
pub fn get_blocks(rt: &impl Abort, disk: &mut MemDisk, at: u32, out: &mut [u8]) {
    let count = out.len() / BLOCK;
    assert!(rt; 0 < count && out.len() == BLOCK * count);
    assert!(rt; count <= 4096 && at < 1 << 30 && at + count as u32 <= disk.blocks());
    assert!(rt; disk.read(at, out).is_ok());
}

/// Where the contents of a chunk stand.
pub fn state(rt: &impl Abort, set: &Compact<MemDisk>, chunk: u32) -> ChunkState {
    assert!(rt; chunk < set.chunks());
    set.state(chunk)
}

/// Blocks that have one byte throughout: that byte of the block at a place.
pub fn byte_in(rt: &impl Abort, bytes: &[u8], place: u32) -> u8 {
    let start = BLOCK * place as usize;
    assert!(rt; start + BLOCK <= bytes.len());
    let block = &bytes[start..start + BLOCK];
    assert!(rt; block[0] == block[BLOCK - 1]);
    block[0]
}

/// Stages a part with this chunk split, where it is one of it. It is copied ahead before, where it has no slot.
pub fn stage(
    rt: &impl Abort,
    set: &mut Compact<MemDisk>,
    master: &mut MemDisk,
    over: &mut Option<Over<MemDisk>>,
    part: u32,
    chunk: u32,
) {
    let mut split = [0; 256];
    if chunk / 2048 == part {
        split[chunk as usize % 2048 / 8] = 1 << (chunk % 8);
    }
    assert!(rt; part < 4 && 2048 * part < set.chunks());
    assert!(rt; set.has_shadow() && master.blocks() == set.blocks());
    let lacks = set.lacks(part, &split).unwrap_or(3_000);
    assert!(rt; lacks <= 2048 && set.need() + lacks <= set.room(over));
    assert!(rt; set.stage_part(master, over, part, &split).is_ok());
}
