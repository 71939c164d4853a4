// Two mirror sets over two volumes.
ghost use Rattle.std.specs.Prelude.{◌<◌, All};

use avs_bits::Bits;
use avs_dev::{Back, Bare, Below, Disk, MemDisk, Tear, Why};
use avs_halves::MirrorSets;
use avs_sync::{HalfSet, HalfSets};
use std::alloc::Global;
use std::fmt::Debug;
use std::process::Abort;

/// The blocks of the volumes: 5 segments, and 2.
pub const FIRST: u32 = 300;

pub const SECOND: u32 = 128;

pub fn same<T: PartialEq + Debug + Drop>(rt: &impl Abort, found: T, want: T) {
    assert_eq!(rt; found, want);
}

pub fn disk(rt: &impl Abort, alloc: Global, blocks: u32) -> MemDisk {
    MemDisk::new(alloc, blocks, Vec::new(alloc)).expect(rt, "memory")
}

/// The bitmap of a volume of so many blocks, without bits.
pub fn bitmap(rt: &impl Abort, alloc: Global, blocks: u32) -> MemDisk {
    match Bits::make(alloc, disk(rt, alloc, 2), blocks, false, 0) {
        Ok(bits) => bits.into_disk(),
        Err(_) => panic!(rt; "a bitmap"),
    }
}

/// The volumes.
pub fn below(rt: &impl Abort, alloc: Global) -> Bare<MemDisk> {
    let state = disk(rt, alloc, 2);
    assert!(rt; state.blocks() >= 2);
    let mut bare = match Bare::new(alloc, state) {
        Ok(bare) => bare,
        Err(_) => panic!(rt; "below"),
    };
    assert!(rt; bare.add(disk(rt, alloc, FIRST)).is_ok());
    assert!(rt; bare.add(disk(rt, alloc, SECOND)).is_ok());
    bare
}

// The parts of the sets on these disks of their bitmaps.
fn parts(rt: &impl Abort, alloc: Global, first: MemDisk, second: MemDisk) -> HalfSets<MemDisk>
    ensures { All (λ p. p.vol < 2) result }
{
    let first = HalfSet {
        vol: 0,
        slot: 3,
        bits: first,
    };
    let second = HalfSet {
        vol: 1,
        slot: 0,
        bits: second,
    };
    HalfSets::new(Vec::from_array(alloc, [first, second]).expect(rt, "memory"))
}

/// The sets that are found on these disks.
pub fn load(
    rt: &impl Abort,
    alloc: Global,
    below: &Bare<MemDisk>,
    first: MemDisk,
    second: MemDisk,
) -> Result<MirrorSets<MemDisk>, Back<HalfSets<MemDisk>, Why>> {
    assert!(rt; below.count() == 2);
    MirrorSets::load(alloc, parts(rt, alloc, first, second), below)
}

/// Two sets without bits.
pub fn made(rt: &impl Abort, alloc: Global, below: &Bare<MemDisk>) -> MirrorSets<MemDisk> {
    let (first, second) = (bitmap(rt, alloc, FIRST), bitmap(rt, alloc, SECOND));
    match load(rt, alloc, below, first, second) {
        Ok(sets) => sets,
        Err(_) => panic!(rt; "two sets"),
    }
}

/// The disks of the two bitmaps.
pub fn disks(rt: &impl Abort, sets: HalfSets<MemDisk>) -> (MemDisk, MemDisk) {
    let mut sets = sets.into_vec();
    match (sets.pop(), sets.pop(), sets.pop()) {
        (Some(second), Some(first), None) => (first.bits, second.bits),
        _ => panic!(rt; "two disks"),
    }
}

/// The sets as they are found again.
pub fn again(
    rt: &impl Abort,
    alloc: Global,
    below: &Bare<MemDisk>,
    sets: MirrorSets<MemDisk>,
) -> MirrorSets<MemDisk> {
    let (first, second) = disks(rt, sets.into_sets());
    match load(rt, alloc, below, first, second) {
        Ok(sets) => sets,
        Err(_) => panic!(rt; "the sets again"),
    }
}

/// These segments of a set have bits.
pub fn has(rt: &impl Abort, alloc: Global, sets: &MirrorSets<MemDisk>, set: u32, want: &[u32]) {
    assert!(rt; (set as usize) < sets.count());
    let found = sets.listed(alloc, set).expect(rt, "memory");
    assert!(rt; found.as_slice() == want);
}

/// A write of the set's disk stores so many of its blocks, and fails.
pub fn arm(rt: &impl Abort, sets: &mut MirrorSets<MemDisk>, set: usize, count: u32) {
    let tear = Tear {
        skip: 0,
        from: 0,
        count,
    };
    assert!(rt; sets.arm(set, tear));
}

/// Changes of bits.
#[derive(Clone, Copy, Debug, PartialEq, Eq)]
pub enum Change {
    Note(u32, u32, u32),
    Clear(u32, u32),
    Wipe,
    Fill,
}

fn note(rt: &impl Abort, sets: &mut MirrorSets<MemDisk>, set: u32, first: u32, count: u32) -> bool {
    assert!(rt; (set as usize) < sets.count());
    assert!(rt; first < 8 && count < 8 && first + count <= sets.segs(set));
    sets.note(set, first, count).is_ok()
}

/// Whether a change was done.
pub fn make_change(rt: &impl Abort, sets: &mut MirrorSets<MemDisk>, change: Change) -> bool {
    match change {
        Change::Note(set, first, count) => note(rt, sets, set, first, count),
        Change::Clear(set, seg) => {
            assert!(rt; (set as usize) < sets.count());
            assert!(rt; seg < sets.segs(set));
            sets.clear(set, seg).is_ok()
        }
        Change::Wipe => sets.wipe().is_ok(),
        Change::Fill => sets.fill().is_ok(),
    }
}
