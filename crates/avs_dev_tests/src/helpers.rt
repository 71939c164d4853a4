// What several tests do.
use avs_dev::{Arm, Bare, Below, Disk, MemDisk, Tear};
use avs_seg::BLOCK;
use std::alloc::Global;
use std::fmt::Debug;
use std::process::Abort;

pub(crate) fn same<T: PartialEq + Debug + Drop>(rt: &impl Abort, found: T, want: T) {
    assert_eq!(rt; found, want);
}

// Blocks of one byte throughout each.
pub(crate) fn filled(rt: &impl Abort, alloc: Global, bytes: &[u8]) -> Vec<u8> {
    let mut blocks = Vec::new(alloc);
    for &byte in bytes {
        blocks
            .extend_from_slice(&[byte; BLOCK])
            .expect(rt, "memory");
    }
    blocks
}

pub(crate) fn disk_of(rt: &impl Abort, alloc: Global, blocks: u32, fails: &[u64]) -> MemDisk {
    let fails = fails.to_vec(alloc).expect(rt, "memory");
    MemDisk::new(alloc, blocks, fails).expect(rt, "memory")
}

// Whether blocks of these bytes are written.
pub(crate) fn write<D: Disk>(
    rt: &impl Abort,
    alloc: Global,
    disk: &mut D,
    at: u32,
    bytes: &[u8],
) -> bool {
    let blocks = filled(rt, alloc, bytes);
    let count = blocks.len() / BLOCK;
    assert!(rt; count > 0 && BLOCK * count == blocks.len());
    assert!(rt; at as usize + count <= disk.blocks() as usize);
    disk.write(at, &blocks).is_ok()
}

// The whole disk has blocks of these bytes.
pub(crate) fn shows<D: Disk>(rt: &impl Abort, alloc: Global, disk: &mut D, want: &[u8]) {
    let count = disk.blocks() as usize;
    assert!(rt; count > 0);
    let mut bytes = vec![in alloc; 1; BLOCK * count].expect(rt, "memory");
    assert!(rt; disk.read(0, &mut bytes).is_ok());
    same(rt, bytes, filled(rt, alloc, want));
}

pub(crate) fn arm<D: Arm>(disk: &mut D, skip: u32, from: u32, count: u32) -> bool {
    disk.arm(Tear { skip, from, count })
}

pub(crate) fn load(rt: &impl Abort, alloc: Global, state: MemDisk) -> Bare<MemDisk> {
    assert!(rt; state.blocks() == 2);
    match Bare::new(alloc, state) {
        Ok(bare) => bare,
        Err(_) => panic!(rt; "a state disk"),
    }
}

fn add(rt: &impl Abort, bare: &mut Bare<MemDisk>, disk: MemDisk) -> u32 {
    match bare.add(disk) {
        Ok(vol) => vol,
        Err(_) => panic!(rt; "a volume"),
    }
}

// Two volumes, of four and of three blocks, beside a state disk of two. The calls of the second volume with these
// numbers fail.
pub(crate) fn fresh(rt: &impl Abort, alloc: Global, fails: &[u64]) -> Bare<MemDisk> {
    let mut bare = load(rt, alloc, disk_of(rt, alloc, 2, &[]));
    same(rt, add(rt, &mut bare, disk_of(rt, alloc, 4, &[])), 0);
    same(rt, add(rt, &mut bare, disk_of(rt, alloc, 3, fails)), 1);
    bare
}

// Whether blocks of these bytes are written on a volume.
pub(crate) fn put<B: Below>(
    rt: &impl Abort,
    alloc: Global,
    below: &mut B,
    vol: u32,
    at: u32,
    bytes: &[u8],
) -> bool {
    let blocks = filled(rt, alloc, bytes);
    let count = blocks.len() / BLOCK;
    assert!(rt; vol < below.count());
    assert!(rt; count > 0 && BLOCK * count == blocks.len());
    assert!(rt; at as usize + count <= below.size(vol) as usize);
    below.write(vol, at, &blocks).is_ok()
}

// Whether so many blocks of a volume are read, which are then blocks of these bytes.
pub(crate) fn gives<B: Below>(
    rt: &impl Abort,
    alloc: Global,
    below: &mut B,
    vol: u32,
    at: u32,
    want: &[u8],
) -> bool {
    let count = want.len();
    assert!(rt; 0 < count && count < 9);
    assert!(rt; vol < below.count());
    assert!(rt; at as usize + count <= below.size(vol) as usize);
    let mut bytes = vec![in alloc; 1; BLOCK * count].expect(rt, "memory");
    if below.read(vol, at, &mut bytes).is_err() {
        return false;
    }
    same(rt, bytes, filled(rt, alloc, want));
    true
}
