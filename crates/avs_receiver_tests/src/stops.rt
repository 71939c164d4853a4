// A stop at each device write of some steps, and then what is found.

use crate::disks::same;
use crate::play::{new_run, play};
use avs_model::Host;
use avs_receiver_plain::steps::{Put, Range, Spot, Step};
use std::alloc::Global;
use std::process::Abort;

// What a stopped write has stored, of one block and of several: nothing, its first block, and blocks within it.
const TEARS: [(u32, u32); 3] = [(0, 0), (0, 1), (1, 2)];

// The disks, and of how many of these tears their writes are stopped.
const SPOTS: [(Spot, usize); 6] = [
    (Spot::State, 2),
    (Spot::Volume(0), 3),
    (Spot::Volume(1), 3),
    (Spot::Bitmap(0), 2),
    (Spot::Bitmap(1), 2),
    (Spot::Landing, 3),
];

/// How many writes there are on the disk of the note, on those of the sets' volumes and of their bitmaps, and on the landing
/// volume.
pub type Writes = [u32; 6];

/// It goes on in a later session.
const BEHIND: [Step; 3] = [
    Step::Ask(90),
    Step::Apply(
        90,
        1,
        Put::Write(Range {
            set: 0,
            at: 3,
            count: 66,
            byte: 0x77,
        }),
    ),
    Step::Apply(90, 2, Put::Mark),
];

fn extend(rt: &impl Abort, all: &mut Vec<Step>, steps: &[Step]) {
    for &step in steps {
        all.push(step).expect(rt, "memory");
    }
}

// Steps, a tear and further steps: so many are stopped.
fn stops_at(
    rt: &impl Abort,
    alloc: Global,
    (before, behind): (&[Step], &[Step]),
    (tear, last): (Step, &[Step]),
    want: u32,
) {
    let mut steps = Vec::new(alloc);
    extend(rt, &mut steps, before);
    steps.push(tear).expect(rt, "memory");
    extend(rt, &mut steps, behind);
    extend(rt, &mut steps, last);
    let run = play(rt, alloc, new_run(rt, alloc, Host::S), &steps);
    same(rt, run.stops, want);
}

// The steps behind a tear have so many writes on a disk: each of them is stopped by each tear, and there is no other. The
// steps before it are stopped so many times.
fn stops_on(
    rt: &impl Abort,
    alloc: Global,
    steps: (&[Step], &[Step]),
    (spot, tears): (Spot, usize),
    (writes, stops): (u32, u32),
) {
    for skip in 0..writes {
        for &(from, count) in TEARS.iter().take(tears) {
            let tear = Step::Tear(spot, skip, from, count);
            stops_at(rt, alloc, steps, (tear, &BEHIND), stops.saturating_add(1));
        }
    }
    let tear = Step::Tear(spot, writes, 0, 0);
    stops_at(rt, alloc, steps, (tear, &[]), stops);
}

/// Each write of steps is stopped, from the first step on to where it is found again behind the last one.
pub fn each_stop(rt: &impl Abort, alloc: Global, steps: &[Step], writes: Writes) {
    for place in 0..6 {
        stops_on(rt, alloc, (&[], steps), SPOTS[place], (writes[place], 0));
    }
}

/// Behind steps, which are stopped so many times, each write is stopped by which it is found again.
pub fn each_load_stop(rt: &impl Abort, alloc: Global, steps: &[Step], stops: u32, writes: Writes) {
    for place in 0..6 {
        stops_on(
            rt,
            alloc,
            (steps, &[]),
            SPOTS[place],
            (writes[place], stops),
        );
    }
}
