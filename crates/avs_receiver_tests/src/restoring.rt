// Sets that are restored: what comes of it, and a stop at each device write.

use crate::disks::same;
use crate::play::{Run, new_run, play, step};
use crate::stops::{each_load_stop, each_stop};
use Step::{Apply, Ask, Leave, Log, Restore, Tear, Write};
use avs_model::Host;
use avs_receiver_plain::steps::{Put, Range, Spot, Step, of};
use std::alloc::Global;
use std::process::Abort;

const LOCAL: Range = Range {
    set: 0,
    at: 0,
    count: 1,
    byte: 0x11,
};

// A half that has left its session without contents, with a bit.
const LEFT: [Step; 3] = [Write(LOCAL), Ask(1), Log];

// The half behind further steps, none of which is stopped.
fn behind(rt: &impl Abort, alloc: Global, steps: &[Step]) -> Run {
    let mut run = new_run(rt, alloc, Host::S);
    for &one in LEFT.iter().chain(steps.iter()) {
        run = step(rt, alloc, run, one);
    }
    same(rt, run.stops, 0);
    run
}

// The restored set has contents, and is written then; the other one has none.
#[test]
fn a_set_is_restored(rt: HostRuntime) {
    let alloc = rt.alloc();
    let steps = [Restore(of(0, 62, 4, 0x22)), Write(of(1, 0, 1, 0x33))];
    let mut run = behind(&rt, alloc, &steps);
    same(&rt, run.plain.contents, [true, false]);
    same(&rt, run.plain.due, [[true, true], [false, false]]);
    run = step(&rt, alloc, run, Write(of(0, 63, 1, 0x44)));
    let image = &run.plain.images[0];
    same(&rt, [image[0], image[61], image[62]], [0x11, 0, 0x22]);
    same(&rt, [image[63], image[65], image[66]], [0x44, 0x22, 0]);
    same(&rt, play(&rt, alloc, run, &[Ask(2)]).stops, 0);
}

// An errand that has nothing to do leaves all as it is but for the bits.
#[test]
fn a_set_is_left_as_it_is(rt: HostRuntime) {
    let alloc = rt.alloc();
    let steps = [Leave(of(0, 62, 4, 0x22)), Write(of(0, 63, 1, 0x44))];
    let run = behind(&rt, alloc, &steps);
    same(&rt, run.plain.contents, [false, false]);
    same(&rt, run.plain.due, [[true, true], [false, false]]);
    same(&rt, play(&rt, alloc, run, &[]).plain.images[0][62], 0);
}

// In a session nothing is run and no block is written.
#[test]
fn none_is_restored_in_a_session(rt: HostRuntime) {
    let alloc = rt.alloc();
    let steps = [
        Ask(2),
        Restore(of(0, 62, 4, 0x22)),
        Leave(of(1, 0, 1, 0x22)),
        Apply(2, 1, Put::Mark),
        Restore(of(0, 62, 4, 0x22)),
    ];
    let run = behind(&rt, alloc, &steps);
    same(&rt, run.plain.due, [[false; 2]; 2]);
    same(&rt, play(&rt, alloc, run, &[Log]).plain.images[0][62], 0);
}

// The bits, the note and the volume, of each set.
#[test]
fn a_restoration_is_stopped(rt: HostRuntime) {
    let alloc = rt.alloc();
    let steps = [
        Write(LOCAL),
        Ask(1),
        Log,
        Leave(of(0, 60, 9, 0x22)),
        Restore(of(0, 60, 9, 0x33)),
        Write(of(0, 70, 2, 0x44)),
        Write(of(1, 0, 1, 0x55)),
        Restore(of(1, 1, 4, 0x66)),
        Write(of(1, 5, 1, 0x77)),
    ];
    each_stop(&rt, alloc, &steps, [4, 3, 2, 2, 1, 0]);
}

// A load behind one that was stopped writes nothing.
#[test]
fn a_stopped_restoration_is_found(rt: HostRuntime) {
    let alloc = rt.alloc();
    let one = Restore(of(0, 60, 9, 0x33));
    for (spot, count) in [
        (Spot::Bitmap(0), 0),
        (Spot::Bitmap(0), 1),
        (Spot::State, 0),
        (Spot::State, 1),
        (Spot::Volume(0), 0),
        (Spot::Volume(0), 4),
    ] {
        let [write, ask, log] = LEFT;
        let steps = [write, ask, log, Tear(spot, 0, 0, count), one];
        each_load_stop(&rt, alloc, &steps, 1, [0; 6]);
    }
}
