// Volumes that are disks and no more, used through their trait.
use crate::helpers::{disk_of, filled, fresh, gives, load, put, same};
use avs_dev::{Arm, Bare, Below, Disk, Tear, Why};
use avs_seg::{BLOCK, Failed};
use std::alloc::Global;
use std::process::Abort;

// A tear that stores so many blocks of the next write, from its block `from` on.
fn arm<D: Arm>(bare: &mut Bare<D>, disk: u32, from: u32, count: u32) -> bool {
    bare.arm(
        disk,
        Tear {
            skip: 0,
            from,
            count,
        },
    )
}

fn note<B: Below>(below: &B) -> [u8; 64] {
    below.note()
}

fn set_note<B: Below>(below: &mut B, byte: u8) -> Result<(), Failed> {
    below.set_note(&[byte; 64])
}

#[test]
fn each_volume_holds_what_was_written_on_it(rt: HostRuntime) {
    let alloc = rt.alloc();
    let mut bare = fresh(&rt, alloc, &[]);
    for (vol, at, bytes) in [
        (0, 1, [5, 6]),
        (1, 0, [7, 8]),
        (0, 2, [9, 3]),
        (1, 1, [1, 2]),
    ] {
        same(&rt, put(&rt, alloc, &mut bare, vol, at, &bytes), true);
    }
    same(&rt, gives(&rt, alloc, &mut bare, 0, 0, &[0, 5, 9, 3]), true);
    same(&rt, gives(&rt, alloc, &mut bare, 1, 0, &[7, 1, 2]), true);
    same(&rt, gives(&rt, alloc, &mut bare, 0, 2, &[9, 3]), true);
    same(&rt, gives(&rt, alloc, &mut bare, 1, 1, &[1, 2]), true);
}

#[test]
fn the_disks_are_counted_state_disk_first(rt: HostRuntime) {
    let alloc = rt.alloc();
    let mut bare = fresh(&rt, alloc, &[]);
    same(&rt, set_note(&mut bare, 4), Ok(()));
    same(&rt, put(&rt, alloc, &mut bare, 0, 0, &[1, 2]), true);
    same(&rt, put(&rt, alloc, &mut bare, 1, 0, &[1, 2, 3]), true);
    for (disk, want) in [(0, Some(1)), (1, Some(2)), (2, Some(3)), (3, None)] {
        same(&rt, bare.written(disk), want);
        same(&rt, arm(&mut bare, disk, 0, 0), want.is_some());
    }
    let (state, volumes) = bare.into_parts();
    same(&rt, state.blocks(), 2);
    same(&rt, volumes.len(), 2);
}

#[test]
fn a_failed_write_leaves_old_or_new_blocks_in_its_volume_alone(rt: HostRuntime) {
    let alloc = rt.alloc();
    for (from, count, want) in [
        (0, 0, [0, 0, 0]),
        (0, 1, [0, 5, 0]),
        (1, 1, [0, 0, 6]),
        (0, 2, [0, 5, 6]),
    ] {
        let mut bare = fresh(&rt, alloc, &[]);
        same(&rt, arm(&mut bare, 2, from, count), true);
        same(&rt, put(&rt, alloc, &mut bare, 0, 1, &[5, 6]), true);
        same(&rt, put(&rt, alloc, &mut bare, 1, 1, &[5, 6]), false);
        same(&rt, gives(&rt, alloc, &mut bare, 0, 0, &[0, 5, 6, 0]), true);
        same(&rt, gives(&rt, alloc, &mut bare, 1, 0, &want), true);
        same(&rt, bare.written(2), Some(0));
    }
}

#[test]
fn a_failed_read_changes_nothing(rt: HostRuntime) {
    let alloc = rt.alloc();
    let mut bare = fresh(&rt, alloc, &[2]);
    same(&rt, put(&rt, alloc, &mut bare, 1, 0, &[1, 2, 3]), true);
    same(&rt, gives(&rt, alloc, &mut bare, 1, 0, &[1, 2, 3]), false);
    same(&rt, gives(&rt, alloc, &mut bare, 1, 0, &[1, 2, 3]), true);
}

#[test]
fn a_note_lies_among_zeros_in_block_1(rt: HostRuntime) {
    let alloc = rt.alloc();
    let mut state = disk_of(&rt, alloc, 2, &[]);
    assert!(rt; state.blocks() == 2);
    same(&rt, state.write(0, &[3; BLOCK]), Ok(()));
    same(&rt, state.write(1, &[7; BLOCK]), Ok(()));
    let mut bare = load(&rt, alloc, state);
    same(&rt, note(&bare), [7; 64]);
    same(&rt, set_note(&mut bare, 9), Ok(()));
    same(&rt, note(&bare), [9; 64]);
    let (mut state, _) = bare.into_parts();
    assert!(rt; state.blocks() == 2);
    let mut blocks = vec![in alloc; 1; 2 * BLOCK].expect(&rt, "memory");
    same(&rt, state.read(0, &mut blocks), Ok(()));
    let mut want = filled(&rt, alloc, &[3, 0]);
    want.truncate(BLOCK + 400);
    want.extend_from_slice(&[9; 64]).expect(&rt, "memory");
    want.extend_from_slice(&[0; 48]).expect(&rt, "memory");
    same(&rt, blocks, want);
}

// The note that is found after one was torn, of which so many blocks were stored.
fn found_note(rt: &impl Abort, alloc: Global, count: u32) -> [u8; 64] {
    let mut bare = fresh(rt, alloc, &[]);
    same(rt, set_note(&mut bare, 4), Ok(()));
    same(rt, arm(&mut bare, 0, 0, count), true);
    same(rt, set_note(&mut bare, 5), Err(Failed));
    same(rt, note(&bare), [4; 64]);
    let (state, _) = bare.into_parts();
    note(&load(rt, alloc, state))
}

#[test]
fn after_a_failed_note_the_old_or_the_new_one_is_found(rt: HostRuntime) {
    let alloc = rt.alloc();
    same(&rt, found_note(&rt, alloc, 0), [4; 64]);
    same(&rt, found_note(&rt, alloc, 1), [5; 64]);
}

#[test]
fn a_state_disk_that_fails_is_handed_back(rt: HostRuntime) {
    let alloc = rt.alloc();
    let state = disk_of(&rt, alloc, 2, &[1]);
    assert!(rt; state.blocks() == 2);
    match Bare::new(alloc, state) {
        Ok(_) => panic!(rt; "a state disk that fails"),
        Err(back) => {
            same(&rt, back.why, Why::Fault);
            load(&rt, alloc, back.parts);
        }
    }
}
