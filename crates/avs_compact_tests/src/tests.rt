// Where blocks of a compact set are found, and which bitmaps are none.
use avs_compact::{ChunkState, Compact};
use avs_dev::{Arm, Disk, MemDisk, Tear, Why};
use avs_over::Over;
use avs_seg::BLOCK;
use std::alloc::Global;
use std::fmt::Debug;
use std::process::Abort;

// Entries of slot 0.
const BOTH: u32 = 0x4000_0001;

const SPLIT: u32 = 0x8000_0001;

const BACK: u32 = 0xc000_0001;

pub(crate) fn same<T: PartialEq + Debug + Drop>(rt: &impl Abort, found: T, want: T) {
    assert_eq!(rt; found, want);
}

pub(crate) fn disk(rt: &impl Abort, alloc: Global, blocks: u32) -> MemDisk {
    MemDisk::new(alloc, blocks, Vec::new(alloc)).expect(rt, "a disk")
}

// Writes a block of this byte over each block of a range.
pub(crate) fn fill(rt: &impl Abort, disk: &mut MemDisk, from: u32, end: u32, byte: u8) {
    for at in from..end {
        assert!(rt; at < disk.blocks());
        disk.write(at, &[byte; BLOCK]).expect(rt, "a block");
    }
}

// A block with these entries.
fn block_of(rt: &impl Abort, entries: &[u32]) -> [u8; BLOCK] {
    let mut block = [0; BLOCK];
    assert!(rt; entries.len() <= 128);
    for place in 0..entries.len() {
        block[4 * place..4 * place + 4].copy_from_slice(&entries[place].to_be_bytes());
    }
    block
}

// A bitmap that was formatted for so many blocks, with these entries in a block of it.
pub(crate) fn bitmap(
    rt: &impl Abort,
    alloc: Global,
    blocks: u32,
    at: u32,
    entries: &[u32],
) -> MemDisk {
    assert!(rt; 0 < blocks);
    match Compact::make(alloc, 7, disk(rt, alloc, 64), disk(rt, alloc, 64), blocks) {
        Ok(set) => {
            let (_, mut bitmap) = set.into_disks();
            assert!(rt; at < bitmap.blocks());
            bitmap
                .write(at, &block_of(rt, entries))
                .expect(rt, "entries");
            bitmap
        }
        Err(_) => panic!(rt; "made"),
    }
}

// What is asked of a set that was found.
#[derive(Clone, Copy)]
enum Ask {
    // What it needs, and its room.
    Slots(u32, u32),
    // How many chunks stand in their slots alone, and how many are split.
    Counts(u32, u32),
    State(u32, ChunkState),
    // From a chunk on the least with a slot of the overflow volume, and that slot.
    Next(u32, Option<(u32, u32)>),
    // The byte in each of two blocks that are read at once.
    Bytes(u32, u8, u8),
}

fn read(
    rt: &impl Abort,
    set: &mut Compact<MemDisk>,
    master: &mut MemDisk,
    over: &mut Option<Over<MemDisk>>,
    at: u32,
) -> (u8, u8) {
    let mut out = [0; 2 * BLOCK];
    assert!(rt; at < 4_000_000_000 && at + 2 <= set.blocks() && master.blocks() == set.blocks());
    assert!(rt; set.has_shadow() && set.is_served(over));
    set.read(master, over, at, &mut out).expect(rt, "read");
    (out[0], out[BLOCK])
}

fn answers(
    rt: &impl Abort,
    set: &mut Compact<MemDisk>,
    master: &mut MemDisk,
    over: &mut Option<Over<MemDisk>>,
    what: Ask,
) {
    match what {
        Ask::Slots(need, room) => same(rt, (set.need(), set.room(over)), (need, room)),
        Ask::Counts(back, moved) => same(
            rt,
            (set.back(), set.moved(), set.left()),
            (back, moved, 0),
        ),
        Ask::State(chunk, want) => {
            assert!(rt; chunk < set.chunks());
            same(rt, set.state(chunk), want)
        }
        Ask::Next(from, want) => same(rt, set.next_over(from), Ok(want)),
        Ask::Bytes(at, first, second) => same(rt, read(rt, set, master, over, at), (first, second)),
    }
}

// The disks that a set of 4 chunks is asked on: the master has 1 in its blocks, the two slots of the shadow 10 and 11, and
// the two of the overflow volume 20 and 21.
fn asked(
    rt: &impl Abort,
    alloc: Global,
    bitmap: MemDisk,
    live_b: bool,
    taken: &[(u32, u32)],
    asks: &[Ask],
) {
    let mut master = disk(rt, alloc, 256);
    let mut shadow = disk(rt, alloc, 128);
    let mut slots = disk(rt, alloc, 129);
    fill(rt, &mut master, 0, 256, 1);
    fill(rt, &mut shadow, 0, 64, 10);
    fill(rt, &mut shadow, 64, 128, 11);
    fill(rt, &mut slots, 1, 65, 20);
    fill(rt, &mut slots, 65, 129, 21);
    let mut over = Some(labelled(rt, alloc, slots, taken));
    match Compact::load(alloc, 7, Some(shadow), bitmap, 256, live_b) {
        Ok(mut set) => {
            for what in asks {
                answers(rt, &mut set, &mut master, &mut over, *what);
            }
        }
        Err(_) => panic!(rt; "found"),
    }
}

// An overflow volume with slots that are given.
pub(crate) fn labelled(
    rt: &impl Abort,
    alloc: Global,
    disk: MemDisk,
    taken: &[(u32, u32)],
) -> Over<MemDisk> {
    assert!(rt; 0 < disk.blocks());
    match Over::make(alloc, disk) {
        Ok(over) => match Over::load(alloc, over.into_disk(), taken) {
            Ok(over) => over,
            Err(_) => panic!(rt; "given"),
        },
        Err(_) => panic!(rt; "labelled"),
    }
}

#[test]
fn an_entry_tells_where_the_blocks_of_its_chunk_stand(rt: HostRuntime) {
    let found = bitmap(
        &rt,
        rt.alloc(),
        256,
        1,
        &[0, SPLIT + 1, SPLIT + 2, BACK, 9, 9],
    );
    let asks = [
        Ask::Slots(3, 4),
        Ask::Counts(1, 2),
        Ask::State(0, ChunkState::OnMaster),
        Ask::State(1, ChunkState::Split),
        Ask::State(3, ChunkState::OnShadow),
        Ask::Next(0, Some((2, 0))),
        Ask::Next(3, None),
        Ask::Bytes(0, 1, 1),
        Ask::Bytes(63, 1, 11),
        Ask::Bytes(127, 11, 20),
        Ask::Bytes(191, 20, 10),
        Ask::Bytes(254, 10, 10),
    ];
    asked(&rt, rt.alloc(), found, false, &[(7, 0)], &asks);
}

#[test]
fn area_b_is_read_where_it_is_live(rt: HostRuntime) {
    let found = bitmap(&rt, rt.alloc(), 256, 2, &[BOTH + 3]);
    let asks = [
        Ask::Slots(1, 4),
        Ask::State(0, ChunkState::OnBoth),
        Ask::Next(0, Some((0, 1))),
        Ask::Bytes(63, 21, 1),
    ];
    asked(&rt, rt.alloc(), found, true, &[(7, 1)], &asks);
}

#[test]
fn room_is_what_other_sets_leave(rt: HostRuntime) {
    let none = bitmap(&rt, rt.alloc(), 256, 1, &[]);
    asked(&rt, rt.alloc(), none, false, &[], &[Ask::Slots(0, 4)]);
    let one = bitmap(&rt, rt.alloc(), 256, 1, &[SPLIT + 2]);
    asked(
        &rt,
        rt.alloc(),
        one,
        false,
        &[(7, 0), (9, 1)],
        &[Ask::Slots(1, 3)],
    );
    let full = bitmap(&rt, rt.alloc(), 256, 1, &[SPLIT]);
    asked(
        &rt,
        rt.alloc(),
        full,
        false,
        &[(9, 0), (9, 1)],
        &[Ask::Slots(1, 2)],
    );
}

// What `load` answers for a bitmap of 256 blocks, with two slots of the shadow: what the set needs, or why it is refused.
fn loads(rt: &impl Abort, alloc: Global, bitmap: MemDisk, want: Result<u32, Why>) {
    match Compact::load(alloc, 7, Some(disk(rt, alloc, 128)), bitmap, 256, false) {
        Ok(set) => same(rt, Ok(set.need()), want),
        Err(back) => same(rt, Err(back.why), want),
    }
}

#[test]
fn an_entry_has_its_form_and_an_own_slot_stands_in_one(rt: HostRuntime) {
    let bad = Err(Why::BadRecord(64));
    let cases: [(&[u32], Result<u32, Why>); 8] = [
        (&[SPLIT, BACK + 1, BOTH + 2, SPLIT + 2], Ok(4)),
        (&[SPLIT, SPLIT], bad),
        (&[BACK + 1, 0, 0, SPLIT + 1], bad),
        (&[1], bad),
        (&[0, 0x3fff_ffff], bad),
        (&[0, 0, 0x8000_0000], bad),
        (&[0, 0, 0, 0xc000_0000], bad),
        (&[0, 0, 0, 0, 1], Ok(0)),
    ];
    for (entries, want) in cases {
        loads(
            &rt,
            rt.alloc(),
            bitmap(&rt, rt.alloc(), 256, 1, entries),
            want,
        );
    }
}

#[test]
fn a_label_of_another_set_is_told_by_its_field(rt: HostRuntime) {
    loads(
        &rt,
        rt.alloc(),
        disk(&rt, rt.alloc(), 3),
        Err(Why::BadRecord(0)),
    );
    loads(
        &rt,
        rt.alloc(),
        bitmap(&rt, rt.alloc(), 255, 1, &[]),
        Err(Why::BadRecord(3)),
    );
    loads(
        &rt,
        rt.alloc(),
        disk(&rt, rt.alloc(), 2),
        Err(Why::Size { need: 3, have: 2 }),
    );
}

// What `make` answers for so many chunks and a bitmap of so many blocks: the blocks that were written, or why it is refused.
fn makes(rt: &impl Abort, alloc: Global, chunks: u32, size: u32, want: Result<u64, Why>) {
    assert!(rt; 0 < chunks && chunks <= 1_000);
    match Compact::make(
        alloc,
        7,
        disk(rt, alloc, 64),
        disk(rt, alloc, size),
        64 * chunks,
    ) {
        Ok(set) => {
            same(rt, set.written(1).ok_or(Why::Fault), want);
            same(rt, set.written(0), Some(0));
        }
        Err(back) => same(rt, Err(back.why), want),
    }
}

#[test]
fn a_block_has_128_entries(rt: HostRuntime) {
    makes(&rt, rt.alloc(), 1, 3, Ok(3));
    makes(&rt, rt.alloc(), 128, 3, Ok(3));
    makes(&rt, rt.alloc(), 128, 2, Err(Why::Size { need: 3, have: 2 }));
    makes(&rt, rt.alloc(), 129, 5, Ok(5));
    makes(&rt, rt.alloc(), 129, 4, Err(Why::Size { need: 5, have: 4 }));
}

// A set of 256 blocks is made on a bitmap that holds entries, and a write of it fails with so many blocks stored; then it
// is found, or not.
fn stopped(rt: &impl Abort, alloc: Global, skip: u32, count: u32, want: Result<u32, Why>) {
    let mut torn = disk(rt, alloc, 3);
    fill(rt, &mut torn, 1, 3, 0x3f);
    same(
        rt,
        torn.arm(Tear {
            skip,
            from: 0,
            count,
        }),
        true,
    );
    match Compact::make(alloc, 7, disk(rt, alloc, 128), torn, 256) {
        Ok(_) => panic!(rt; "stopped"),
        Err(back) => {
            same(rt, back.why, Why::Fault);
            let (_, bitmap) = back.parts;
            loads(rt, alloc, bitmap, want);
        }
    }
}

#[test]
fn a_stop_while_a_set_is_made_leaves_it_or_none(rt: HostRuntime) {
    stopped(&rt, rt.alloc(), 0, 0, Err(Why::BadRecord(0)));
    stopped(&rt, rt.alloc(), 0, 1, Err(Why::BadRecord(64)));
    stopped(&rt, rt.alloc(), 1, 0, Err(Why::BadRecord(64)));
    stopped(&rt, rt.alloc(), 1, 1, Ok(0));
    stopped(&rt, rt.alloc(), 2, 0, Ok(0));
    stopped(&rt, rt.alloc(), 2, 1, Ok(0));
}
