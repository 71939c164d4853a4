// What a state disk says, keeps where a commit fails, and refuses.
ghost use Rattle.std.specs.Prelude.{◌≡◌, ◌<◌, ◌≤◌, ◌^◌};
ghost use Rattle.avs_code.specs.GroupBlock.{GroupBlockKeeps};
ghost use Rattle.avs_state.specs.Saying.{stamp_in};

use avs_code::GroupBlock;
use avs_dev::{Arm, Disk, MemDisk, Tear, Why};
use avs_model::Kind;
use avs_seg::BLOCK;
use avs_state::{SlotState, Standing, StateDisk, put_said, said};
use std::alloc::Global;
use std::fmt::Debug;
use std::process::Abort;

fn same<T: PartialEq + Debug + Drop>(rt: &impl Abort, found: T, want: T) {
    assert_eq!(rt; found, want);
}

fn disk(rt: &impl Abort, alloc: Global, blocks: u32) -> MemDisk {
    MemDisk::new(alloc, blocks, Vec::new(alloc)).expect(rt, "a disk")
}

fn make(rt: &impl Abort, alloc: Global) -> StateDisk<MemDisk> {
    let disk = disk(rt, alloc, 64);
    assert!(rt; disk.blocks() >= 64);
    match StateDisk::make(disk) {
        Ok(state) => state,
        Err(_) => panic!(rt; "made"),
    }
}

fn load(rt: &impl Abort, disk: MemDisk) -> StateDisk<MemDisk> {
    match StateDisk::load(disk) {
        Ok(state) => state,
        Err(_) => panic!(rt; "found"),
    }
}

// Why a disk is not found, `None` where it is.
fn refused(disk: MemDisk) -> Option<Why> {
    match StateDisk::load(disk) {
        Ok(_) => None,
        Err(back) => Some(back.why),
    }
}

fn set(standing: Standing) -> SlotState
    ensures { result.standing ≡ standing }
{
    SlotState {
        kind: Kind::Compact,
        area_b: false,
        stopped: true,
        standing,
    }
}

// What is said of a slot: none of the first three, and of each standing one.
fn wanted(slot: u32) -> Option<SlotState>
    ensures { stamp_in result ≤ 2 ^ 62 }
{
    match slot {
        3 => Some(SlotState {
            kind: Kind::Ind,
            area_b: true,
            stopped: false,
            standing: Standing::Online,
        }),
        4 => Some(set(Standing::Offline {
            need: u32::MAX,
            slots: 7,
        })),
        5 => Some(set(Standing::Exported { stamp: 1 << 62 })),
        15 => Some(SlotState {
            kind: Kind::Dep,
            area_b: true,
            stopped: true,
            standing: Standing::Online,
        }),
        _ => None,
    }
}

// Has a block say what is wanted of each slot.
fn fill(block: &mut GroupBlock)
    requires { GroupBlockKeeps block.old }
    ensures { GroupBlockKeeps block.new }
{
    put_said(block, 3, wanted(3));
    put_said(block, 4, wanted(4));
    put_said(block, 5, wanted(5));
    put_said(block, 15, wanted(15));
}

// Has a block say nothing of a slot any more.
fn clear(block: &mut GroupBlock, slot: u32)
    requires slot { slot < 16 }
    requires kept { GroupBlockKeeps block.old }
    ensures { GroupBlockKeeps block.new }
{
    put_said(block, slot, None);
}

fn same_said(rt: &impl Abort, block: &GroupBlock, slot: u32, want: Option<SlotState>) {
    assert!(rt; slot < 16);
    same(rt, said(block, slot), want);
}

// All slots are said as wanted, or none is said.
fn all_said(rt: &impl Abort, state: &StateDisk<MemDisk>, filled: bool) {
    for slot in 0..16 {
        let want = if filled { wanted(slot) } else { None };
        same_said(rt, state.block(), slot, want);
    }
}

// Commits the wanted slots with a note, and tells whether that failed.
fn commit(state: &mut StateDisk<MemDisk>, note: u8) -> bool {
    let mut block = state.next();
    block.note = [note; 64];
    fill(&mut block);
    state.commit(&block).is_err()
}

fn arm(rt: &impl Abort, state: &mut StateDisk<MemDisk>, disk: u32, count: u32, want: bool) {
    let tear = Tear {
        skip: 0,
        from: 0,
        count,
    };
    same(rt, state.arm(disk, tear), want);
}

fn note_and_number(rt: &impl Abort, state: &StateDisk<MemDisk>, note: u8, number: u64) {
    same(rt, state.block().note, [note; 64]);
    same(rt, state.block().sequence, number);
}

#[test]
fn slots_are_said_as_committed(rt: HostRuntime) {
    let alloc = rt.alloc();
    let mut state = make(&rt, alloc);
    all_said(&rt, &state, false);
    note_and_number(&rt, &state, 0, 0);
    same(&rt, commit(&mut state, 9), false);
    all_said(&rt, &state, true);
    let state = load(&rt, state.into_disk());
    all_said(&rt, &state, true);
    note_and_number(&rt, &state, 9, 1);
    same(&rt, state.written(0), Some(3));
    same(&rt, state.written(1), None);
}

// A commit whose write is torn: what stands in memory, and what is found behind it.
fn torn_commit(rt: &impl Abort, alloc: Global, count: u32, found: bool) {
    let mut state = make(rt, alloc);
    arm(rt, &mut state, 1, count, false);
    arm(rt, &mut state, 0, count, true);
    same(rt, commit(&mut state, 9), true);
    all_said(rt, &state, false);
    note_and_number(rt, &state, 0, 0);
    let state = load(rt, state.into_disk());
    all_said(rt, &state, found);
    note_and_number(rt, &state, if found { 9 } else { 0 }, found as u64);
}

#[test]
fn a_torn_commit_is_the_old_block_or_the_new_one(rt: HostRuntime) {
    torn_commit(&rt, rt.alloc(), 0, false);
    torn_commit(&rt, rt.alloc(), 1, true);
}

// One slot is cleared by a commit, and the others stay.
#[test]
fn a_slot_is_cleared_alone(rt: HostRuntime) {
    let mut state = make(&rt, rt.alloc());
    same(&rt, commit(&mut state, 9), false);
    let mut block = state.next();
    clear(&mut block, 4);
    same(&rt, state.commit(&block), Ok(()));
    let state = load(&rt, state.into_disk());
    for slot in [0, 3, 5, 15] {
        same_said(&rt, state.block(), slot, wanted(slot));
    }
    same_said(&rt, state.block(), 4, None);
    note_and_number(&rt, &state, 9, 2);
}

#[test]
fn nothing_follows_the_greatest_number(rt: HostRuntime) {
    let mut state = make(&rt, rt.alloc());
    let mut block = state.next();
    block.sequence = u64::MAX;
    same(&rt, state.commit(&block), Ok(()));
    let state = load(&rt, state.into_disk());
    same(&rt, state.next().sequence, 0);
}

// The disk of a state disk whose slots are filled, with one byte altered.
fn altered(rt: &impl Abort, alloc: Global, block: u32, at: usize, byte: u8) -> MemDisk {
    let mut state = make(rt, alloc);
    same(rt, commit(&mut state, 9), false);
    let mut disk = state.into_disk();
    let mut bytes = [0; BLOCK];
    assert!(rt; block < 2 && disk.blocks() == 64 && at < BLOCK);
    same(rt, disk.read(block, &mut bytes), Ok(()));
    bytes[at] = byte;
    same(rt, disk.write(block, &bytes), Ok(()));
    disk
}

#[test]
fn the_first_bad_field_is_told(rt: HostRuntime) {
    let rows = [
        // The label: its magic, version, kind, blocks, segments, stamp, and what is behind.
        (0, 0, 1, Some(0)),
        (0, 11, 2, Some(1)),
        (0, 15, 3, Some(2)),
        (0, 19, 1, Some(3)),
        (0, 23, 1, Some(4)),
        (0, 31, 1, Some(5)),
        (0, 32, 1, Some(6)),
        // The block: its magic, version, number, slots (flags, kind, what is between), note, and what is behind.
        (1, 0, 1, Some(0)),
        (1, 7, 2, Some(1)),
        (1, 15, 7, None),
        (1, 16, 32, Some(3)),
        (1, 17, 4, Some(3)),
        (1, 18, 1, Some(3)),
        (1, 399, 1, Some(3)),
        (1, 463, 1, None),
        (1, 464, 1, Some(5)),
    ];
    for (block, at, byte, field) in rows {
        same(
            &rt,
            refused(altered(&rt, rt.alloc(), block, at, byte)),
            field.map(|field| Why::BadRecord(field)),
        );
    }
}

#[test]
fn a_small_disk_is_refused(rt: HostRuntime) {
    for blocks in [0, 1, 63] {
        same(
            &rt,
            refused(disk(&rt, rt.alloc(), blocks)),
            Some(Why::BadRecord(64)),
        );
    }
}

// A label and a block that are written first, of which a tear lets so many blocks be stored.
fn torn_make(rt: &impl Abort, alloc: Global, count: u32, found: Option<Why>) {
    let mut disk = disk(rt, alloc, 64);
    let tear = Tear {
        skip: 0,
        from: 0,
        count,
    };
    assert!(rt; disk.blocks() >= 64);
    same(rt, disk.arm(tear), true);
    assert!(rt; disk.blocks() >= 64);
    match StateDisk::make(disk) {
        Ok(_) => panic!(rt; "made"),
        Err(back) => {
            same(rt, back.why, Why::Fault);
            same(rt, refused(back.parts), found);
        }
    }
}

#[test]
fn a_torn_first_write_leaves_no_state_disk_or_a_new_one(rt: HostRuntime) {
    torn_make(&rt, rt.alloc(), 0, Some(Why::BadRecord(0)));
    torn_make(&rt, rt.alloc(), 1, Some(Why::BadRecord(0)));
    torn_make(&rt, rt.alloc(), 2, None);
}
