// A stop at each device write of each step on contents.

use crate::stops::{COMPACT, COMPACT_IND, DEP_IND, IND_DEP, NONE, Writes, each_stop, each_stops};
use Commit::Turned;
use Who::{First, Second};
use avs_shadows::steps::{Commit, Step, Who};

// Three chunks of the first set, two, and two others.
const THREE: Step = Step::Shadow(First, 66, 134, 0x11);

const TWO: Step = Step::Shadow(First, 70, 60, 0x22);

const BEFORE: Step = Step::Shadow(First, 60, 10, 0x22);

const ONE: Step = Step::Shadow(First, 70, 1, 0x22);

const TURN: Step = Step::Restore(First, Turned);

#[test]
fn writes_to_the_master_save_each_chunk_of_each_set(rt: HostRuntime) {
    let last = Step::Master(60, 140, 0x11);
    let all = Step::Shadow(First, 60, 140, 0x22);
    let cases: [(&[Step], Writes); 3] = [
        (&[last], [1, 4, 4, 4, 4, 0]),
        (&[ONE, Step::Copy(Second), last], [1, 3, 3, 3, 4, 0]),
        (&[all, TURN, Step::Copy(First), last], [4, 0, 4, 0, 0, 0]),
    ];
    each_stops(&rt, rt.alloc(), DEP_IND, &cases);
}

#[test]
fn writes_to_the_master_save_each_chunk_of_compact_sets(rt: HostRuntime) {
    let last = Step::Master(60, 10, 0x11);
    each_stop(&rt, rt.alloc(), COMPACT_IND, &[last], [1, 1, 2, 2, 2, 1]);
    let cases: [(&[Step], Writes); 3] = [
        (&[last], [1, 1, 2, 2, 2, 1]),
        (
            &[Step::Shadow(First, 192, 8, 0x22), last],
            [1, 0, 2, 2, 2, 2],
        ),
        // The first set stands back in two chunks, and the second one has what is left of the overflow volume.
        (
            &[
                BEFORE,
                TURN,
                Step::Shadow(Second, 130, 70, 0x33),
                Step::Master(60, 70, 0x11),
            ],
            [3, 0, 2, 0, 0, 0],
        ),
    ];
    each_stops(&rt, rt.alloc(), COMPACT, &cases);
}

#[test]
fn writes_to_a_shadow_save_its_own_chunks(rt: HostRuntime) {
    let puts = Step::Puts(First, 66, 134, 0x11);
    let dep: [(&[Step], Writes); 3] = [
        (&[THREE], [0, 4, 3, 0, 0, 0]),
        (&[puts], [0, 4, 3, 0, 0, 0]),
        (&[puts, Step::Puts(First, 64, 64, 0x33)], [0, 1, 0, 0, 0, 0]),
    ];
    each_stops(&rt, rt.alloc(), DEP_IND, &dep);
    let ind: [(&[Step], Writes); 3] = [
        (&[THREE], [0, 4, 3, 0, 0, 0]),
        (&[TWO, TURN, THREE], [2, 2, 3, 0, 0, 0]),
        (&[TWO, TURN, puts], [2, 2, 3, 0, 0, 0]),
    ];
    each_stops(&rt, rt.alloc(), IND_DEP, &ind);
}

#[test]
fn writes_to_a_compact_shadow_save_its_own_chunks(rt: HostRuntime) {
    let all = Step::Shadow(First, 0, 200, 0x11);
    let cases: [(&[Step], Writes); 6] = [
        (&[BEFORE], [0, 2, 2, 0, 0, 2]),
        (&[Step::Puts(First, 60, 10, 0x22)], [0, 2, 2, 0, 0, 2]),
        (&[BEFORE, TURN, BEFORE], [2, 1, 2, 0, 0, 1]),
        (
            &[BEFORE, Step::Puts(First, 64, 4, 0x33)],
            [0, 0, 0, 0, 0, 1],
        ),
        // There is no room.
        (&[all, Step::Shadow(Second, 60, 70, 0x22)], NONE),
        (&[all, Step::Saves(Second, 0, 3)], NONE),
    ];
    each_stops(&rt, rt.alloc(), COMPACT, &cases);
}

// Chunk 0 is the same on both disks, chunk 1 stands on the shadow alone, and the others on the master alone.
#[test]
fn chunks_are_settled_from_each_state(rt: HostRuntime) {
    let due = Step::Copy(First);
    let ind: [(&[Step], Writes); 8] = [
        (&[due], [0, 1, 1, 0, 0, 0]),
        (
            &[ONE, TURN, due, Step::Saves(First, 0, 1)],
            [0, 0, 1, 0, 0, 0],
        ),
        (
            &[ONE, TURN, due, Step::Saves(First, 1, 2)],
            [1, 0, 1, 0, 0, 0],
        ),
        (
            &[ONE, TURN, due, Step::Saves(First, 3, 4)],
            [0, 1, 1, 0, 0, 0],
        ),
        (
            &[ONE, TURN, due, Step::Saves(First, 0, 4)],
            [1, 2, 4, 0, 0, 0],
        ),
        (&[ONE, TURN, due, Step::Saves(First, 2, 2)], NONE),
        (&[ONE, TURN, due, Step::Bring(First, 1)], [1, 0, 1, 0, 0, 0]),
        (&[ONE, TURN, due, Step::Bring(First, 3)], [0, 1, 1, 0, 0, 0]),
    ];
    each_stops(&rt, rt.alloc(), IND_DEP, &ind);
    let also = Step::Shadow(First, 130, 1, 0x33);
    let dep: [(&[Step], Writes); 4] = [
        (&[due], NONE),
        (
            &[ONE, also, TURN, also, Step::Saves(First, 0, 4)],
            [1, 2, 3, 0, 0, 0],
        ),
        (&[ONE, TURN, due], [1, 0, 1, 0, 0, 0]),
        (&[ONE, TURN, Step::Bring(First, 2)], NONE),
    ];
    each_stops(&rt, rt.alloc(), DEP_IND, &dep);
}

#[test]
fn chunks_of_compact_sets_are_settled_from_each_state(rt: HostRuntime) {
    let cases: [(&[Step], Writes); 6] = [
        (&[ONE, TURN, Step::Saves(First, 0, 3)], [1, 0, 3, 0, 0, 2]),
        (
            &[BEFORE, TURN, Step::Copy(First), Step::Saves(First, 0, 1)],
            [0, 0, 1, 0, 0, 0],
        ),
        (&[BEFORE, TURN, Step::Copy(First)], [1, 0, 1, 0, 0, 0]),
        (&[BEFORE, TURN, Step::Bring(First, 1)], [1, 0, 1, 0, 0, 0]),
        (&[BEFORE, TURN, Step::Bring(First, 2)], NONE),
        (&[Step::Copy(First)], NONE),
    ];
    each_stops(&rt, rt.alloc(), COMPACT, &cases);
}
