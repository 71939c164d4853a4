// Changes one after another, and each stop of one.
use crate::half::{Change, again, arm, below, has, made, make_change, same};
use Change::{Clear, Fill, Note, Wipe};
use avs_dev::{Bare, MemDisk};
use avs_halves::MirrorSets;
use std::alloc::Global;
use std::process::Abort;

// Two sets after these changes.
fn after(
    rt: &impl Abort,
    alloc: Global,
    bare: &Bare<MemDisk>,
    changes: &[Change],
) -> MirrorSets<MemDisk> {
    let mut sets = made(rt, alloc, bare);
    for &one in changes {
        assert!(rt; make_change(rt, &mut sets, one));
    }
    sets
}

// These changes leave these segments, also where the sets are found again.
fn leaves(rt: &impl Abort, alloc: Global, changes: &[Change], first: &[u32], second: &[u32]) {
    let bare = below(rt, alloc);
    let sets = after(rt, alloc, &bare, changes);
    has(rt, alloc, &sets, 0, first);
    has(rt, alloc, &sets, 1, second);
    let sets = again(rt, alloc, &bare, sets);
    has(rt, alloc, &sets, 0, first);
    has(rt, alloc, &sets, 1, second);
}

// A change that a write of a set's disk stops leaves these segments on the disks.
fn stopped(
    rt: &impl Abort,
    alloc: Global,
    before: &[Change],
    (one, set, count): (Change, usize, u32),
    (first, second): (&[u32], &[u32]),
) {
    let bare = below(rt, alloc);
    let mut sets = after(rt, alloc, &bare, before);
    arm(rt, &mut sets, set, count);
    assert!(rt; !make_change(rt, &mut sets, one));
    let sets = again(rt, alloc, &bare, sets);
    has(rt, alloc, &sets, 0, first);
    has(rt, alloc, &sets, 1, second);
}

#[test]
fn bits_are_found_again(rt: HostRuntime) {
    let alloc = rt.alloc();
    leaves(&rt, alloc, &[], &[], &[]);
    leaves(
        &rt,
        alloc,
        &[Note(0, 1, 3), Note(1, 1, 1)],
        &[1, 2, 3],
        &[1],
    );
    leaves(&rt, alloc, &[Note(0, 1, 3), Clear(0, 2)], &[1, 3], &[]);
    leaves(&rt, alloc, &[Fill], &[0, 1, 2, 3, 4], &[0, 1]);
    leaves(&rt, alloc, &[Fill, Wipe, Note(1, 0, 1)], &[], &[0]);
}

#[test]
fn a_stop_leaves_each_set_old_or_changed(rt: HostRuntime) {
    let alloc = rt.alloc();
    let old = [Note(0, 4, 1)];
    stopped(&rt, alloc, &old, (Note(0, 0, 2), 0, 0), (&[4], &[]));
    stopped(&rt, alloc, &old, (Note(0, 0, 2), 0, 1), (&[0, 1, 4], &[]));
    stopped(&rt, alloc, &old, (Fill, 0, 0), (&[4], &[]));
    stopped(&rt, alloc, &old, (Fill, 0, 1), (&[0, 1, 2, 3, 4], &[]));
    stopped(&rt, alloc, &old, (Fill, 1, 0), (&[0, 1, 2, 3, 4], &[]));
    stopped(&rt, alloc, &[Fill], (Wipe, 1, 0), (&[], &[0, 1]));
    stopped(&rt, alloc, &[Fill], (Wipe, 1, 1), (&[], &[]));
}

#[test]
fn blocks_of_bits_are_counted(rt: HostRuntime) {
    let alloc = rt.alloc();
    let bare = below(&rt, alloc);
    let sets = after(&rt, alloc, &bare, &[Note(0, 1, 3), Note(0, 2, 1), Wipe]);
    same(&rt, sets.written(0), Some(4));
    same(&rt, sets.written(1), Some(2));
    same(&rt, sets.written(2), None);
}
