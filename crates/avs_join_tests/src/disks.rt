// Imports, and what is found on their disks.
ghost use Rattle.std.specs.Prelude.{◌≡◌};

use avs_dev::{Arm, Disk, MemDisk, Tear};
use avs_join::{Import, Returned2};
use avs_model::Refusal;
use avs_seg::BLOCK;
use std::alloc::Global;
use std::fmt::Debug;
use std::process::Abort;

/// The blocks of a volume with four segments, of which the last has 8.
pub const BLOCKS: u32 = 200;

/// The stamp of its export.
pub const STAMP: u64 = 3;

/// An import, and how many blocks its volume has.
#[derive(Drop)]
pub struct Held {
    pub import: Import<MemDisk>,
    pub blocks: u32,
    ghost size: { import.volume.size ≡ blocks },
}

pub fn same<T: PartialEq + Debug + Drop>(rt: &impl Abort, found: T, want: T) {
    assert_eq!(rt; found, want);
}

/// A disk of which the calls with these numbers fail.
pub fn disk(rt: &impl Abort, alloc: Global, blocks: u32, fails: &[u64]) -> MemDisk {
    let fails = fails.to_vec(alloc).expect(rt, "memory");
    MemDisk::new(alloc, blocks, fails).expect(rt, "memory")
}

fn fill(rt: &impl Abort, disk: &mut MemDisk, at: u32, byte: u8) {
    assert!(rt; at < disk.blocks());
    assert!(rt; disk.write(at, &[byte; BLOCK]).is_ok());
}

/// A disk that has that byte throughout.
pub fn filled(rt: &impl Abort, alloc: Global, blocks: u32, byte: u8) -> MemDisk {
    let mut disk = disk(rt, alloc, blocks, &[]);
    for at in 0..blocks {
        fill(rt, &mut disk, at, byte);
    }
    disk
}

/// A new import over these disks.
pub fn made(rt: &impl Abort, alloc: Global, volume: MemDisk, bitmap: MemDisk, stamp: u64) -> Held {
    assert!(rt; stamp <= 1 << 62);
    let blocks = volume.blocks();
    match Import::make(alloc, volume, bitmap, stamp) {
        Ok(import) => Held { import, blocks },
        Err(_) => panic!(rt; "a new import"),
    }
}

/// A new import of a volume of zeros.
pub fn fresh(rt: &impl Abort, alloc: Global) -> Held {
    let volume = disk(rt, alloc, BLOCKS, &[]);
    made(rt, alloc, volume, disk(rt, alloc, 2, &[]), STAMP)
}

/// The import that stands on these disks.
pub fn found(rt: &impl Abort, alloc: Global, volume: MemDisk, bitmap: MemDisk) -> Held {
    let blocks = volume.blocks();
    match Import::load(alloc, volume, bitmap) {
        Ok(import) => Held { import, blocks },
        Err(_) => panic!(rt; "an import"),
    }
}

/// The import as it is found again.
pub fn again(rt: &impl Abort, alloc: Global, held: Held) -> Held {
    let (volume, bitmap) = held.import.into_disks();
    found(rt, alloc, volume, bitmap)
}

/// Why an import was refused, and its disks.
pub fn refused(
    rt: &impl Abort,
    loaded: Result<Import<MemDisk>, Returned2<MemDisk>>,
    want: Refusal,
) -> (MemDisk, MemDisk) {
    match loaded {
        Ok(_) => panic!(rt; "it was taken"),
        Err(back) => {
            same(rt, back.why, want);
            back.parts
        }
    }
}

/// Whether a write of so many blocks with that byte was done.
pub fn write(
    rt: &impl Abort,
    alloc: Global,
    held: &mut Held,
    (at, count, byte): (u32, u32, u8),
) -> bool {
    assert!(rt; 0 < count && count <= 256 && at <= 1_000_000);
    assert!(rt; at + count <= held.blocks);
    let bytes = vec![in alloc; byte; BLOCK * count as usize].expect(rt, "memory");
    assert!(rt; bytes.len() == BLOCK * count as usize);
    held.import.write(at, bytes.as_slice()).is_ok()
}

/// The byte that a block of the volume has throughout.
pub fn byte_at(rt: &impl Abort, held: &mut Held, at: u32) -> u8 {
    let mut block = [0xee; BLOCK];
    assert!(rt; at < held.blocks);
    assert!(rt; held.import.read(at, &mut block).is_ok());
    let first = block[0];
    assert!(rt; block.iter().all(|byte| *byte == first));
    first
}

/// Blocks of the volume have these bytes, and these segments were written.
pub fn shows(
    rt: &impl Abort,
    alloc: Global,
    held: &mut Held,
    segments: &[u32],
    bytes: &[(u32, u8)],
) {
    let bits = held.import.bits(alloc).expect(rt, "memory");
    assert_eq!(rt; bits.as_slice(), segments);
    for &(at, byte) in bytes {
        same(rt, byte_at(rt, held, at), byte);
    }
}

/// A tear of write number `skip`, which stores `count` of its blocks from its block `from` on.
pub fn tear((skip, from, count): (u32, u32, u32)) -> Tear {
    Tear { skip, from, count }
}

/// Arms a tear on a disk of an import.
pub fn arm(held: &mut Held, disk: u32, torn: (u32, u32, u32)) -> bool {
    held.import.arm(disk, tear(torn))
}

/// A disk on which a tear is armed.
pub fn armed(rt: &impl Abort, mut disk: MemDisk, torn: (u32, u32, u32)) -> MemDisk {
    assert!(rt; disk.arm(tear(torn)));
    disk
}

/// A block of a disk.
pub fn block(rt: &impl Abort, disk: &mut MemDisk, at: u32) -> [u8; BLOCK] {
    let mut block = [0; BLOCK];
    assert!(rt; at < disk.blocks());
    assert!(rt; disk.read(at, &mut block).is_ok());
    block
}

/// Gives a block of a disk another byte at a place.
pub fn alter(rt: &impl Abort, disk: &mut MemDisk, at: u32, place: usize, byte: u8) {
    let mut block = block(rt, disk, at);
    if let Some(old) = block.get_mut(place) {
        *old = byte;
    }
    assert!(rt; at < disk.blocks());
    assert!(rt; disk.write(at, &block).is_ok());
}
