// Sets of either kind on disks in memory, and calls on them. Each is given the master's disk and the overflow volume.

use avs_chunks::{ChunkState, Chunks};
use avs_compact::{Compact, CompactFault};
use avs_dev::{Disk, MemDisk};
use avs_held::{AnySet, HeldCompact, HeldSet, Seat};
use avs_model::Kind;
use avs_over::Over;
use avs_seg::{BLOCK, Failed};
use std::alloc::Global;
use std::fmt::Debug;
use std::process::Abort;

/// Three chunks, the last of eight blocks.
pub const BLOCKS: u32 = 136;

pub fn same<T: PartialEq + Debug + Drop>(rt: &impl Abort, found: T, want: T) {
    assert_eq!(rt; found, want);
}

/// A disk of zeros.
pub fn disk(rt: &impl Abort, alloc: Global, blocks: u32) -> MemDisk {
    MemDisk::new(alloc, blocks, Vec::new(alloc)).expect(rt, "a disk")
}

/// A new dependent set in its seat.
pub fn in_chunks(rt: &impl Abort, alloc: Global) -> AnySet<MemDisk> {
    let (shadow, bitmap) = (disk(rt, alloc, BLOCKS), disk(rt, alloc, 3));
    let seat = Seat {
        slot: 7,
        master: 1,
        own: 2,
        over: None,
    };
    match Chunks::make(alloc, Kind::Dep, shadow, bitmap, BLOCKS) {
        Ok(chunks) => AnySet::from(HeldSet::in_chunks(seat, chunks)),
        Err(_) => panic!(rt; "a set in chunks"),
    }
}

/// A new compact set in its seat, with two slots of its own.
pub fn in_slots(rt: &impl Abort, alloc: Global) -> AnySet<MemDisk> {
    let (shadow, bitmap) = (disk(rt, alloc, BLOCKS), disk(rt, alloc, 3));
    assert!(rt; shadow.blocks() == BLOCKS);
    let seat = Seat {
        slot: 7,
        master: 1,
        own: 2,
        over: Some(0),
    };
    match Compact::make(alloc, 7, shadow, bitmap, BLOCKS) {
        Ok(compact) => AnySet::from(HeldCompact::in_slots(seat, compact)),
        Err(_) => panic!(rt; "a compact set"),
    }
}

/// A new overflow volume of so many slots.
pub fn made_over(rt: &impl Abort, alloc: Global, slots: u32) -> Option<Over<MemDisk>> {
    assert!(rt; slots < 1 << 16);
    let slots = disk(rt, alloc, 1 + 64 * slots);
    assert!(rt; 0 < slots.blocks());
    match Over::make(alloc, slots) {
        Ok(over) => Some(over),
        Err(_) => panic!(rt; "an overflow volume"),
    }
}

/// Writes a block of this byte to a disk.
pub fn put_block(rt: &impl Abort, disk: &mut MemDisk, at: u32, byte: u8) {
    assert!(rt; at < disk.blocks());
    assert!(rt; disk.write(at, &[byte; BLOCK]).is_ok());
}

/// The first byte of a block of a disk.
pub fn byte_on(rt: &impl Abort, disk: &mut MemDisk, at: u32) -> u8 {
    let mut out = [0; BLOCK];
    assert!(rt; at < disk.blocks());
    assert!(rt; disk.read(at, &mut out).is_ok());
    out[0]
}

/// Saves chunks.
pub fn save(
    rt: &impl Abort,
    set: &mut AnySet<MemDisk>,
    master: &mut MemDisk,
    over: &mut Option<Over<MemDisk>>,
    (first, count): (u32, u32),
) -> Result<(), CompactFault> {
    assert!(rt; first < 1 << 20 && count < 1 << 20 && first + count <= set.chunks());
    assert!(rt; set.has_shadow() && master.blocks() == set.blocks() && set.is_served(over));
    set.save_before(master, over, first, count)
}

/// Writes a block of this byte to the shadow, in a chunk that is split.
pub fn write(
    rt: &impl Abort,
    set: &mut AnySet<MemDisk>,
    over: &mut Option<Over<MemDisk>>,
    at: u32,
    byte: u8,
) {
    assert!(rt; at < set.blocks() && at < 1 << 30 && set.has_shadow() && set.is_served(over));
    assert!(rt; at / 64 < set.chunks() && set.state(at / 64) == ChunkState::Split);
    assert!(rt; set.put_shadow(over, at, &[byte; BLOCK]).is_ok());
}

/// The first byte of a block of the shadow.
pub fn read(
    rt: &impl Abort,
    set: &mut AnySet<MemDisk>,
    master: &mut MemDisk,
    over: &mut Option<Over<MemDisk>>,
    at: u32,
) -> u8 {
    let mut out = [0; BLOCK];
    assert!(rt; at < 1 << 30 && at < set.blocks() && master.blocks() == set.blocks());
    assert!(rt; set.has_shadow() && set.is_served(over));
    assert!(rt; set.read(master, over, at, &mut out).is_ok());
    out[0]
}

/// One copy step.
pub fn copy(
    rt: &impl Abort,
    set: &mut AnySet<MemDisk>,
    master: &mut MemDisk,
    over: &mut Option<Over<MemDisk>>,
) -> Result<Option<u32>, Failed> {
    assert!(rt; set.has_shadow() && master.blocks() == set.blocks() && set.is_served(over));
    set.copy_one(master, over)
}

/// Brings a chunk back that stands on the shadow alone.
pub fn bring_back(
    rt: &impl Abort,
    set: &mut AnySet<MemDisk>,
    master: &mut MemDisk,
    over: &mut Option<Over<MemDisk>>,
    chunk: u32,
) {
    assert!(rt; set.has_shadow() && master.blocks() == set.blocks() && set.is_served(over));
    assert!(rt; chunk < set.chunks() && set.state(chunk) == ChunkState::OnShadow);
    assert!(rt; set.bring_back(master, over, chunk).is_ok());
}

/// Where the contents of a chunk stand.
pub fn state(rt: &impl Abort, set: &AnySet<MemDisk>, chunk: u32) -> ChunkState {
    assert!(rt; chunk < set.chunks());
    set.state(chunk)
}

/// Copies a chunk of the first part ahead where it stands on the master alone, and stages it as split.
pub fn join(
    rt: &impl Abort,
    set: &mut AnySet<MemDisk>,
    master: &mut MemDisk,
    over: &mut Option<Over<MemDisk>>,
    chunk: u32,
) {
    assert!(rt; chunk < 8);
    let mut split = [0; 256];
    split[0] = 1 << chunk;
    assert!(rt; set.has_shadow() && master.blocks() == set.blocks() && 0 < set.chunks());
    assert!(rt; set.has_slots(over, 0, &split) == Ok(true));
    assert!(rt; set.copy_part(master, over, 0, &split).is_ok());
    assert!(rt; 0 < set.chunks() && set.stage_split(0, &split).is_ok());
    set.turn();
}

/// Puts another disk in for the shadow's.
pub fn changes_shadow(rt: &impl Abort, set: &mut AnySet<MemDisk>, disk: MemDisk) -> MemDisk {
    let old = match set.take_shadow() {
        Some(old) => old,
        None => panic!(rt; "a shadow"),
    };
    assert!(rt; disk.blocks() == set.blocks() && set.seat().own == 2 && 128 <= set.blocks());
    set.give_shadow(disk);
    old
}
