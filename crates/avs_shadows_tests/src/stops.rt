// A stop at each device write of the last of some steps, and then what is found.

use crate::pairs::play;
use crate::sets::same;
use avs_model::Kind;
use avs_shadows::steps::{Spot, Step, Who};
use std::alloc::Global;
use std::process::Abort;

// What a stopped write has stored: nothing, its first block, and blocks within it.
const TEARS: [(u32, u32); 3] = [(0, 0), (0, 1), (1, 2)];

pub type Kinds = (Kind, Kind);

/// How many writes a step has on the master's disk, on those of the shadow and the bitmap of each set, and on the overflow
/// volume.
pub type Writes = [u32; 6];

pub const NONE: Writes = [0; 6];

const SPOTS: [Spot; 6] = [
    Spot::Master,
    Spot::Shadow(Who::First),
    Spot::Bitmap(Who::First),
    Spot::Shadow(Who::Second),
    Spot::Bitmap(Who::Second),
    Spot::Over,
];

// All steps but the last one, a tear, the last step, which it may stop, and that step once more, with no tear.
fn with_tear(rt: &impl Abort, alloc: Global, steps: &[Step], tear: Step, none: Step) -> Vec<Step> {
    let mut torn = Vec::new(alloc);
    if let Some((&last, before)) = steps.split_last() {
        for &step in before {
            torn.push(step).expect(rt, "memory");
        }
        for step in [tear, last, none, last] {
            torn.push(step).expect(rt, "memory");
        }
    }
    torn
}

// The last step is stopped so many times by a tear at one of its writes on a disk.
fn stops_at(
    rt: &impl Abort,
    alloc: Global,
    kinds: Kinds,
    steps: &[Step],
    spot: Spot,
    (skip, from, count): (u32, u32, u32),
    want: u32,
) {
    let tear = Step::Tear(spot, skip, from, count);
    let none = Step::Tear(spot, 1_000_000, 0, 0);
    let torn = with_tear(rt, alloc, steps, tear, none);
    same(rt, play(rt, alloc, kinds, &torn).stops, want);
}

// The last step has so many writes on a disk: each of them is stopped by each tear, and there is no other.
fn stops_on(rt: &impl Abort, alloc: Global, kinds: Kinds, steps: &[Step], spot: Spot, writes: u32) {
    for skip in 0..writes {
        for (from, count) in TEARS {
            stops_at(rt, alloc, kinds, steps, spot, (skip, from, count), 1);
        }
    }
    stops_at(rt, alloc, kinds, steps, spot, (writes, 0, 0), 0);
}

/// Each write of the last step is stopped.
pub fn each_stop(rt: &impl Abort, alloc: Global, kinds: Kinds, steps: &[Step], writes: Writes) {
    for place in 0..6 {
        stops_on(rt, alloc, kinds, steps, SPOTS[place], writes[place]);
    }
}

/// The same of several lists of steps.
pub fn each_stops(rt: &impl Abort, alloc: Global, kinds: Kinds, cases: &[(&[Step], Writes)]) {
    for (steps, writes) in cases {
        each_stop(rt, alloc, kinds, steps, *writes);
    }
}

/// Steps play without a stop.
pub fn plays(rt: &impl Abort, alloc: Global, kinds: Kinds, steps: &[Step]) {
    same(rt, play(rt, alloc, kinds, steps).stops, 0);
}

pub const DEP_IND: Kinds = (Kind::Dep, Kind::Ind);

pub const IND_DEP: Kinds = (Kind::Ind, Kind::Dep);

pub const COMPACT: Kinds = (Kind::Compact, Kind::Compact);

pub const COMPACT_IND: Kinds = (Kind::Compact, Kind::Ind);
