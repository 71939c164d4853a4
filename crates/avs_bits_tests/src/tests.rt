use avs_bits::Bits;
use avs_dev::{Closed, Disk, MemDisk, Tear, Why};
use avs_seg::{BLOCK, Failed};
use std::alloc::Global;
use std::fmt::Debug;
use std::process::Abort;

// The segments of a volume whose bits have three blocks, the last with eight of them.
const SEGS: u32 = 8_200;

const BLOCKS: u32 = 64 * SEGS;

fn same<T: PartialEq + Debug + Drop>(rt: &impl Abort, found: T, want: T) {
    assert_eq!(rt; found, want);
}

fn disk(rt: &impl Abort, alloc: Global, blocks: u32, fails: &[u64]) -> MemDisk {
    let fails = fails.to_vec(alloc).expect(rt, "memory");
    MemDisk::new(alloc, blocks, fails).expect(rt, "memory")
}

fn some(
    rt: &impl Abort,
    made: Result<Bits<MemDisk>, Closed<MemDisk>>,
    name: &str,
) -> Bits<MemDisk> {
    match made {
        Ok(bits) => bits,
        Err(_) => panic!(rt; "{name}"),
    }
}

fn make(rt: &impl Abort, alloc: Global, full: bool, fails: &[u64]) -> Bits<MemDisk> {
    let made = Bits::make(alloc, disk(rt, alloc, 4, fails), BLOCKS, full, 0);
    some(rt, made, "a new set")
}

// The set that a disk holds.
fn reload(rt: &impl Abort, alloc: Global, bits: Bits<MemDisk>) -> Bits<MemDisk> {
    some(
        rt,
        Bits::load(alloc, bits.into_disk(), BLOCKS, false),
        "a set",
    )
}

fn set(rt: &impl Abort, bits: &mut Bits<MemDisk>, first: u32, count: u32) -> bool {
    let room = bits.segs();
    assert!(rt; first <= room && count <= room - first);
    bits.set(first, count).is_ok()
}

fn clear(rt: &impl Abort, bits: &mut Bits<MemDisk>, seg: u32) -> bool {
    assert!(rt; seg < bits.segs());
    bits.clear(seg).is_ok()
}

fn has(rt: &impl Abort, bits: &Bits<MemDisk>, seg: u32) -> bool {
    assert!(rt; seg < bits.segs());
    bits.has(seg)
}

fn check_new(rt: &impl Abort, alloc: Global, full: bool) {
    let made = make(rt, alloc, full, &[]);
    same(rt, made.written(0), Some(4));
    same(rt, made.written(1), None);
    let bits = reload(rt, alloc, made);
    for seg in [0, 1, 4_095, 4_096, 8_191, 8_199] {
        same(rt, has(rt, &bits, seg), full);
    }
    same(rt, bits.stamp(), 0);
}

#[test]
fn a_new_set_has_every_segment_or_none(rt: HostRuntime) {
    let alloc = rt.alloc();
    check_new(&rt, alloc, false);
    check_new(&rt, alloc, true);
}

#[test]
fn the_disk_has_label_and_bits(rt: HostRuntime) {
    let alloc = rt.alloc();
    let made = Bits::make(alloc, disk(&rt, alloc, 2, &[]), 640, true, 7);
    let mut bits = some(&rt, made, "a new set");
    same(&rt, clear(&rt, &mut bits, 1), true);
    same(&rt, clear(&rt, &mut bits, 8), true);
    same(&rt, bits.stamp(), 7);
    let mut disk = bits.into_disk();
    let mut bytes = [1; 2 * BLOCK];
    assert!(rt; disk.blocks() >= 2);
    same(&rt, disk.read(0, &mut bytes), Ok(()));
    assert!(rt;
        bytes.starts_with(b"AVSVOL01\0\0\0\x01\0\0\0\x09\0\0\x02\x80\0\0\0\x0a\0\0\0\0\0\0\0\x07\0")
    );
    same(
        &rt,
        (bytes[512], bytes[513], bytes[514]),
        (0xfd, 0x02, 0x00),
    );
}

fn why(loaded: Result<Bits<MemDisk>, Closed<MemDisk>>) -> Option<Why> {
    match loaded {
        Ok(_) => None,
        Err(e) => Some(e.why),
    }
}

// Why no set is made on a disk of so many blocks, and why none is loaded from it.
fn whys(rt: &impl Abort, alloc: Global, blocks: u32, fails: &[u64]) -> (Option<Why>, Option<Why>) {
    (
        why(Bits::make(alloc, disk(rt, alloc, blocks, fails), BLOCKS, false, 0)),
        why(Bits::load(alloc, disk(rt, alloc, blocks, fails), BLOCKS, false)),
    )
}

#[test]
fn disks_that_are_refused(rt: HostRuntime) {
    let alloc = rt.alloc();
    let small = Some(Why::Size { need: 4, have: 3 });
    same(&rt, whys(&rt, alloc, 3, &[]), (small, small));
    let fault = Some(Why::Fault);
    same(&rt, whys(&rt, alloc, 4, &[1]), (fault, fault));
    let bad = Some(Why::BadRecord(0));
    same(&rt, whys(&rt, alloc, 4, &[]), (None, bad));
}

// Why a set with that stamp is not loaded as one of so many blocks.
fn why_of(rt: &impl Abort, alloc: Global, stamp: u64, blocks: u32, import: bool) -> Option<Why> {
    assert!(rt; stamp < 9);
    let made = Bits::make(alloc, disk(rt, alloc, 4, &[]), BLOCKS, false, stamp);
    let made = some(rt, made, "a new set");
    why(Bits::load(alloc, made.into_disk(), blocks, import))
}

#[test]
fn sets_of_another_use_are_refused(rt: HostRuntime) {
    let alloc = rt.alloc();
    for (blocks, import, stamp, want) in [
        (BLOCKS, false, 0, None),
        (BLOCKS, true, 5, None),
        (BLOCKS, true, 0, Some(Why::BadRecord(2))),
        (BLOCKS, false, 5, Some(Why::BadRecord(2))),
        (BLOCKS - 1, false, 0, Some(Why::BadRecord(3))),
    ] {
        same(&rt, why_of(&rt, alloc, stamp, blocks, import), want);
    }
}

#[test]
fn only_blocks_that_change_are_written(rt: HostRuntime) {
    let alloc = rt.alloc();
    let mut bits = make(&rt, alloc, false, &[]);
    for (first, count, written) in [(4_095, 2, 6), (4_095, 2, 6), (4_000, 96, 7), (0, 8_200, 10)] {
        same(&rt, set(&rt, &mut bits, first, count), true);
        same(&rt, bits.written(0), Some(written));
    }
    same(&rt, bits.fill(), Ok(()));
    same(&rt, bits.written(0), Some(10));
    same(&rt, clear(&rt, &mut bits, 8_199), true);
    same(&rt, clear(&rt, &mut bits, 8_199), true);
    same(&rt, bits.written(0), Some(11));
    same(&rt, bits.wipe(), Ok(()));
    same(&rt, bits.wipe(), Ok(()));
    same(&rt, bits.written(0), Some(14));
    same(&rt, bits.next_from(0), None);
}

// The set with that segment alone gives it from each one up to it, and from no other.
fn check_least(rt: &impl Abort, alloc: Global, seg: u32) {
    let mut bits = make(rt, alloc, false, &[]);
    same(rt, bits.next_from(0), None);
    same(rt, set(rt, &mut bits, seg, 1), true);
    same(rt, bits.next_from(0), Some(seg));
    same(rt, bits.next_from(seg), Some(seg));
    same(rt, bits.next_from(seg.saturating_add(1)), None);
    same(rt, bits.next_from(u32::MAX), None);
}

#[test]
fn the_least_at_or_above(rt: HostRuntime) {
    let alloc = rt.alloc();
    for seg in [0, 7, 8, 63, 64, 4_095, 4_096, 8_191, 8_192, 8_199] {
        check_least(&rt, alloc, seg);
    }
    let full = make(&rt, alloc, true, &[]);
    for (seg, want) in [
        (0, Some(0)),
        (4_096, Some(4_096)),
        (8_199, Some(8_199)),
        (8_200, None),
    ] {
        same(&rt, full.next_from(seg), want);
    }
}

#[test]
fn whole_bytes_and_parts_of_bytes_are_set(rt: HostRuntime) {
    let alloc = rt.alloc();
    let made = Bits::make(alloc, disk(&rt, alloc, 2, &[]), 64 * 64, false, 0);
    let mut bits = some(&rt, made, "a new set");
    for (first, count) in [(5, 20), (34, 3), (48, 16)] {
        same(&rt, set(&rt, &mut bits, first, count), true);
    }
    let mut disk = bits.into_disk();
    let mut block = [1; BLOCK];
    assert!(rt; disk.blocks() >= 2);
    same(&rt, disk.read(1, &mut block), Ok(()));
    assert!(rt; block.starts_with(b"\xe0\xff\xff\x01\x1c\0\xff\xff\0"));
}

// Segments at the ends of the blocks of bits, and of the range that is set below.
const ENDS: [u32; 8] = [0, 4_089, 4_090, 4_095, 4_096, 8_191, 8_192, 8_199];

// The set has those of `ENDS` from one segment up to another, and no more of them.
fn holds(rt: &impl Abort, bits: &Bits<MemDisk>, first: u32, end: u32) {
    for seg in ENDS {
        same(rt, has(rt, bits, seg), first <= seg && seg < end);
    }
}

// Adds the segments from 4,090 on, or every segment, which fails.
fn fail(rt: &impl Abort, bits: &mut Bits<MemDisk>, fills: bool) {
    let done = if fills {
        bits.fill().is_ok()
    } else {
        set(rt, bits, 4_090, 4_110)
    };
    same(rt, done, false);
}

// The set after its write number `skip` was torn.
fn torn(rt: &impl Abort, alloc: Global, fills: bool, skip: u32, count: u32) -> Bits<MemDisk> {
    let mut bits = make(rt, alloc, false, &[]);
    let tear = Tear {
        skip,
        from: 0,
        count,
    };
    same(rt, bits.arm(1, tear), false);
    same(rt, bits.arm(0, tear), true);
    fail(rt, &mut bits, fills);
    bits
}

// Where its write number `skip` was torn, the memory has the segments up to `in_memory`, and the disk those up to `on_disk`.
fn check_torn(
    rt: &impl Abort,
    alloc: Global,
    fills: bool,
    skip: u32,
    count: u32,
    in_memory: u32,
    on_disk: u32,
) {
    let first = if fills { 0 } else { 4_090 };
    let bits = torn(rt, alloc, fills, skip, count);
    same(rt, bits.written(0), Some(u64::from(skip) + 4));
    holds(rt, &bits, first, in_memory);
    let bits = reload(rt, alloc, bits);
    holds(rt, &bits, first, on_disk);
}

#[test]
fn each_block_is_old_or_new_after_a_fault(rt: HostRuntime) {
    let alloc = rt.alloc();
    for (skip, count, in_memory, on_disk) in [
        (0, 0, 4_096, 0),
        (0, 1, 4_096, 4_096),
        (1, 0, 8_192, 4_096),
        (1, 1, 8_192, 8_192),
        (2, 0, 8_200, 8_192),
        (2, 1, 8_200, 8_200),
    ] {
        check_torn(&rt, alloc, false, skip, count, in_memory, on_disk);
        check_torn(&rt, alloc, true, skip, count, in_memory, on_disk);
    }
}

fn check_listed(rt: &impl Abort, alloc: Global, fills: bool, call: u64, on_disk: u32) {
    let mut bits = make(rt, alloc, false, &[call]);
    fail(rt, &mut bits, fills);
    let bits = reload(rt, alloc, bits);
    holds(rt, &bits, if fills { 0 } else { 4_090 }, on_disk);
}

#[test]
fn a_call_of_the_list_leaves_its_block_as_it_was(rt: HostRuntime) {
    let alloc = rt.alloc();
    for (call, on_disk) in [(2, 0), (3, 4_096), (4, 8_192)] {
        check_listed(&rt, alloc, false, call, on_disk);
        check_listed(&rt, alloc, true, call, on_disk);
    }
}
