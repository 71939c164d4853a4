// Shadow sets of any kind on disks in memory, what they stand over, and how they are made and found again.

use avs_chunks::Chunks;
use avs_compact::Compact;
use avs_dev::{Arm, Disk, MemDisk, Tear};
use avs_model::Kind;
use avs_over::Over;
use avs_seg::BLOCK;
use avs_shadows::calls::{Below, Came, Set};
use avs_shadows::plain::{BLOCKS, Plain, SLOTS, new_image};
use std::alloc::Global;
use std::fmt::Debug;
use std::process::Abort;

pub fn same<T: PartialEq + Debug + Drop>(rt: &impl Abort, found: T, want: T) {
    assert_eq!(rt; found, want);
}

/// Whether a call failed by a tear. Else it was done.
pub fn stopped(rt: &impl Abort, came: Came) -> bool {
    if came == Came::Failed {
        return true;
    }
    same(rt, came, Came::Done);
    false
}

/// A set, what it is to stand for, and the number by which it takes slots.
#[derive(Drop)]
pub struct Member {
    pub set: Set,
    pub plain: Plain,
    pub number: u32,
}

/// Room for so many blocks of one byte.
pub fn room(rt: &impl Abort, alloc: Global, blocks: u32, byte: u8) -> Vec<u8> {
    let room = vec![in alloc; byte; BLOCK * blocks as usize].expect(rt, "memory");
    assert!(rt; room.len() == BLOCK * blocks as usize);
    room
}

fn disk(rt: &impl Abort, alloc: Global, blocks: u32) -> MemDisk {
    MemDisk::new(alloc, blocks, Vec::new(alloc)).expect(rt, "a disk")
}

fn made_whole(rt: &impl Abort, alloc: Global, kind: Kind) -> Chunks<MemDisk> {
    let (shadow, bitmap) = (disk(rt, alloc, BLOCKS), disk(rt, alloc, 3));
    match Chunks::make(alloc, kind, shadow, bitmap, BLOCKS) {
        Ok(set) => set,
        Err(_) => panic!(rt; "a new set"),
    }
}

fn made_small(rt: &impl Abort, alloc: Global, number: u32, own: u32) -> Compact<MemDisk> {
    assert!(rt; own < 100);
    let (shadow, bitmap) = (disk(rt, alloc, 64 * own + 9), disk(rt, alloc, 3));
    match Compact::make(alloc, number, shadow, bitmap, BLOCKS) {
        Ok(set) => set,
        Err(_) => panic!(rt; "a new set"),
    }
}

/// A new set. A compact one has so many slots of its own.
pub fn made(rt: &impl Abort, alloc: Global, kind: Kind, number: u32, own: u32) -> Set {
    match kind {
        Kind::Ind | Kind::Dep => Set::Whole(made_whole(rt, alloc, kind)),
        Kind::Compact => Set::Small(made_small(rt, alloc, number, own)),
    }
}

fn made_over(rt: &impl Abort, alloc: Global) -> Over<MemDisk> {
    let slots = disk(rt, alloc, 2 + 64 * SLOTS);
    assert!(rt; 0 < slots.blocks());
    match Over::make(alloc, slots) {
        Ok(over) => over,
        Err(_) => panic!(rt; "an overflow volume"),
    }
}

/// A master of which block i has byte i, and a new overflow volume.
pub fn new_below(rt: &impl Abort, alloc: Global) -> Below {
    let mut master = disk(rt, alloc, BLOCKS);
    for at in 0..BLOCKS {
        assert!(rt; put_blocks(rt, &mut master, at, &[at as u8; BLOCK]));
    }
    Below {
        master,
        image: new_image(),
        over: Some(made_over(rt, alloc)),
    }
}

fn whole_again(
    rt: &impl Abort,
    alloc: Global,
    set: Chunks<MemDisk>,
    live_b: bool,
) -> Chunks<MemDisk> {
    let kind = set.kind();
    let (shadow, bitmap) = set.into_disks();
    match Chunks::load(alloc, kind, shadow, bitmap, BLOCKS, live_b) {
        Ok(set) => set,
        Err(_) => panic!(rt; "a set"),
    }
}

fn small_again(
    rt: &impl Abort,
    alloc: Global,
    number: u32,
    set: Compact<MemDisk>,
    live_b: bool,
) -> Compact<MemDisk> {
    let (shadow, bitmap) = set.into_disks();
    match Compact::load(alloc, number, shadow, bitmap, BLOCKS, live_b) {
        Ok(set) => set,
        Err(_) => panic!(rt; "a set"),
    }
}

/// The same set, found again.
pub fn again(rt: &impl Abort, alloc: Global, number: u32, set: Set, live_b: bool) -> Set {
    match set {
        Set::Whole(set) => Set::Whole(whole_again(rt, alloc, set, live_b)),
        Set::Small(set) => Set::Small(small_again(rt, alloc, number, set, live_b)),
    }
}

fn add_over(rt: &impl Abort, pairs: &mut Vec<(u32, u32)>, number: u32, set: &Compact<MemDisk>) {
    let mut from = 0;
    for _ in 0..set.chunks() {
        if let Ok(Some((chunk, slot))) = set.next_over(from) {
            pairs.push((number, slot)).expect(rt, "memory");
            from = chunk.saturating_add(1);
        }
    }
}

/// Adds the slots of the overflow volume that a set of a number uses.
pub fn add_slots(rt: &impl Abort, pairs: &mut Vec<(u32, u32)>, number: u32, set: &Set) {
    if let Set::Small(set) = set {
        add_over(rt, pairs, number, set);
    }
}

/// The overflow volume as it is found again, with slots given by these pairs.
pub fn over_again(
    rt: &impl Abort,
    alloc: Global,
    over: Option<Over<MemDisk>>,
    pairs: &[(u32, u32)],
) -> Option<Over<MemDisk>> {
    let slots = match over {
        Some(over) => over.into_disk(),
        None => return None,
    };
    match Over::load(alloc, slots, pairs) {
        Ok(over) => Some(over),
        Err(_) => panic!(rt; "an overflow volume"),
    }
}

/// Arms a tear on the shadow's disk, or on the bitmap's.
pub fn arm(set: &mut Set, is_bitmap: bool, tear: Tear) -> bool {
    match set {
        Set::Whole(set) if !set.has_shadow() => !is_bitmap || set.arm(0, tear),
        Set::Whole(set) => set.arm(is_bitmap as u32, tear),
        Set::Small(set) => set.arm(is_bitmap as u32, tear),
    }
}

/// The blocks written on the disks of a set, on the master's, and on the overflow volume's.
pub fn written(set: &Set, below: &Below) -> [Option<u64>; 4] {
    let over = match &below.over {
        Some(over) => over.written(0),
        None => None,
    };
    let master = Some(below.master.written());
    match set {
        Set::Whole(set) => [set.written(0), set.written(1), master, over],
        Set::Small(set) => [set.written(0), set.written(1), master, over],
    }
}

/// Takes the shadow's disk of a set that is not compact.
pub fn take_shadow(set: &mut Set) -> Option<MemDisk> {
    match set {
        Set::Whole(set) => set.take_shadow(),
        Set::Small(_) => None,
    }
}

/// Gives it back.
pub fn give_shadow(rt: &impl Abort, set: &mut Set, shadow: Option<MemDisk>) {
    if let (Set::Whole(set), Some(shadow)) = (set, shadow) {
        assert!(rt; !set.has_shadow() && set.blocks() <= shadow.blocks());
        set.give_shadow(shadow);
    }
}

/// Writes blocks of a disk.
pub fn put_blocks(rt: &impl Abort, disk: &mut MemDisk, at: u32, bytes: &[u8]) -> bool {
    let count = bytes.len() / BLOCK;
    assert!(rt; 0 < count && bytes.len() == BLOCK * count);
    assert!(rt; count <= 4096 && at < 1 << 30 && at + count as u32 <= disk.blocks());
    disk.write(at, bytes).is_ok()
}

/// Reads blocks of a disk.
pub fn get_blocks(rt: &impl Abort, disk: &mut MemDisk, at: u32, out: &mut [u8]) {
    let count = out.len() / BLOCK;
    assert!(rt; 0 < count && out.len() == BLOCK * count);
    assert!(rt; count <= 4096 && at < 1 << 30 && at + count as u32 <= disk.blocks());
    assert!(rt; disk.read(at, out).is_ok());
}

/// Blocks that have one byte throughout: that byte of the block at a place.
pub fn byte_in(rt: &impl Abort, bytes: &[u8], place: u32) -> u8 {
    let start = BLOCK * place as usize;
    assert!(rt; start + BLOCK <= bytes.len());
    let block = &bytes[start..start + BLOCK];
    assert!(rt; block[0] == block[BLOCK - 1]);
    block[0]
}
