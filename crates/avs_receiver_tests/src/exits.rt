// A stop at each device write of each call.

use crate::stops::{Writes, each_load_stop, each_stop};
use Put::{Copy, Mark};
use Step::{Apply, Ask, Log, Tear, Write};
use avs_receiver_plain::steps::{Put, Spot, Step, of};

#[test]
fn asking_and_leaving_are_stopped(rt: HostRuntime) {
    let alloc = rt.alloc();
    each_stop(&rt, alloc, &[Ask(1)], [2, 0, 0, 0, 0, 0]);
    each_stop(&rt, alloc, &[Ask(1), Log], [2, 0, 0, 0, 0, 0]);
    each_stop(&rt, alloc, &[Ask(1), Log, Log], [2, 0, 0, 0, 0, 0]);
    each_stop(&rt, alloc, &[Ask(1), Ask(2)], [3, 0, 0, 0, 0, 0]);
}

#[test]
fn a_write_is_stopped(rt: HostRuntime) {
    let alloc = rt.alloc();
    let (one, two) = (Write(of(0, 60, 9, 0x11)), Write(of(1, 3, 3, 0x22)));
    each_stop(&rt, alloc, &[one, two, one], [0, 2, 1, 1, 1, 0]);
}

#[test]
fn places_are_stopped(rt: HostRuntime) {
    let alloc = rt.alloc();
    let steps = [
        Write(of(0, 60, 9, 0x11)),
        Ask(1),
        Apply(1, 1, Copy(of(0, 0, 64, 0x22))),
        Apply(1, 2, Put::Write(of(1, 1, 4, 0x33))),
        Apply(1, 3, Mark),
        Apply(1, 4, Put::Write(of(0, 0, 72, 0x44))),
        Log,
        Write(of(1, 0, 3, 0x55)),
    ];
    each_stop(&rt, alloc, &steps, [3, 3, 2, 2, 1, 7]);
}

#[test]
fn places_of_two_sessions_are_stopped(rt: HostRuntime) {
    let alloc = rt.alloc();
    let steps = [
        Ask(1),
        Apply(1, 1, Put::Write(of(0, 60, 9, 0x11))),
        Ask(4),
        Apply(4, 1, Put::Write(of(1, 0, 6, 0x22))),
        Apply(4, 2, Mark),
    ];
    each_stop(&rt, alloc, &steps, [5, 1, 1, 0, 0, 5]);
}

// What has landed is done once more where a disk stopped it.
#[test]
fn a_load_is_stopped(rt: HostRuntime) {
    let alloc = rt.alloc();
    let write = Apply(1, 1, Put::Write(of(0, 60, 9, 0x11)));
    let copy = Apply(1, 1, Copy(of(1, 0, 6, 0x11)));
    let cases: [(Step, Step, Writes); 5] = [
        (Tear(Spot::Volume(0), 0, 0, 0), write, [1, 1, 0, 0, 0, 0]),
        (Tear(Spot::Volume(0), 0, 1, 2), write, [1, 1, 0, 0, 0, 0]),
        (Tear(Spot::Volume(1), 0, 0, 1), copy, [1, 0, 1, 0, 0, 0]),
        (Tear(Spot::Landing, 1, 0, 0), write, [1, 0, 0, 0, 0, 0]),
        (Tear(Spot::Landing, 1, 0, 1), write, [1, 1, 0, 0, 0, 0]),
    ];
    for (tear, last, writes) in cases {
        each_load_stop(&rt, alloc, &[tear, Ask(1), last], 1, writes);
    }
}

// The mark's note gives contents, and behind it the bits go, of one set after the other.
#[test]
fn a_load_behind_a_stopped_mark_is_stopped(rt: HostRuntime) {
    let alloc = rt.alloc();
    let (one, two) = (Write(of(0, 0, 70, 0x11)), Write(of(1, 0, 1, 0x22)));
    for (spot, skip, count, writes) in [
        (Spot::Landing, 0, 0, [1, 0, 0, 0, 0, 0]),
        (Spot::Landing, 0, 1, [2, 0, 0, 1, 1, 0]),
        (Spot::State, 1, 0, [2, 0, 0, 1, 1, 0]),
        (Spot::State, 1, 1, [2, 0, 0, 1, 1, 0]),
        (Spot::Bitmap(0), 0, 0, [2, 0, 0, 1, 1, 0]),
        (Spot::Bitmap(0), 0, 1, [2, 0, 0, 0, 1, 0]),
        (Spot::Bitmap(1), 0, 1, [2, 0, 0, 0, 0, 0]),
    ] {
        let steps = [
            one,
            two,
            Tear(spot, skip, 0, count),
            Ask(1),
            Apply(1, 1, Mark),
        ];
        each_load_stop(&rt, alloc, &steps, 1, writes);
    }
}

// Nothing is done once more of what landed before the half left, nor of an older session: its own host wrote since.
#[test]
fn what_landed_before_is_not_done_once_more(rt: HostRuntime) {
    let alloc = rt.alloc();
    let steps = [
        Ask(1),
        Apply(1, 1, Mark),
        Apply(1, 2, Put::Write(of(0, 5, 3, 0x11))),
        Log,
        Write(of(0, 4, 3, 0x22)),
        Ask(2),
    ];
    each_load_stop(&rt, alloc, &steps[..5], 0, [0; 6]);
    each_load_stop(&rt, alloc, &steps, 0, [1, 0, 0, 0, 0, 0]);
    each_stop(&rt, alloc, &steps, [5, 2, 0, 1, 0, 3]);
}
