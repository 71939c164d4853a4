// Landing volumes, and what is found on them.

use avs_dev::{Closed, Disk, MemDisk, Tear, Why};
use avs_land::Land;
use avs_seg::BLOCK;
use std::alloc::Global;
use std::fmt::Debug;
use std::process::Abort;

/// The blocks of a landing volume, and those of its label and its header.
pub const BLOCKS: u32 = 514;

pub const LABEL: u32 = 0;

pub const HEADER: u32 = 1;

pub fn same<T: PartialEq + Debug + Drop>(rt: &impl Abort, found: T, want: T) {
    assert_eq!(rt; found, want);
}

/// A disk of which the calls with these numbers fail.
pub fn disk(rt: &impl Abort, alloc: Global, blocks: u32, fails: &[u64]) -> MemDisk {
    let fails = fails.to_vec(alloc).expect(rt, "memory");
    MemDisk::new(alloc, blocks, fails).expect(rt, "memory")
}

fn some(
    rt: &impl Abort,
    loaded: Result<Land<MemDisk>, Closed<MemDisk>>,
    name: &str,
) -> Land<MemDisk> {
    match loaded {
        Ok(land) => land,
        Err(_) => panic!(rt; "{name}"),
    }
}

/// A new landing volume of which the calls with these numbers fail.
pub fn made(rt: &impl Abort, alloc: Global, fails: &[u64]) -> Land<MemDisk> {
    some(
        rt,
        Land::make(alloc, disk(rt, alloc, BLOCKS, fails)),
        "a new volume",
    )
}

/// The volume as it is found again.
pub fn again(rt: &impl Abort, alloc: Global, land: Land<MemDisk>) -> Land<MemDisk> {
    some(rt, Land::load(alloc, land.into_disk()), "a volume")
}

/// Why a volume was refused, and its disk.
pub fn refused(
    rt: &impl Abort,
    loaded: Result<Land<MemDisk>, Closed<MemDisk>>,
    want: Why,
) -> MemDisk {
    match loaded {
        Ok(_) => panic!(rt; "it was taken"),
        Err(back) => {
            same(rt, back.why, want);
            back.parts
        }
    }
}

pub fn arm(land: &mut Land<MemDisk>, disk: u32, skip: u32, count: u32) -> bool {
    land.arm(
        disk,
        Tear {
            skip,
            from: 0,
            count,
        },
    )
}

/// A block of a disk.
pub fn block(rt: &impl Abort, disk: &mut MemDisk, at: u32) -> [u8; BLOCK] {
    let mut block = [0; BLOCK];
    assert!(rt; at < disk.blocks());
    assert!(rt; disk.read(at, &mut block).is_ok());
    block
}

/// Gives a block of a disk another byte at a place.
pub fn alter(rt: &impl Abort, disk: &mut MemDisk, at: u32, place: usize, byte: u8) {
    let mut block = block(rt, disk, at);
    if let Some(old) = block.get_mut(place) {
        *old = byte;
    }
    assert!(rt; at < disk.blocks());
    assert!(rt; disk.write(at, &block).is_ok());
}
