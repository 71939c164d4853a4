// A stop at each write of a disk in a row of calls, and then what is found.

use crate::lies::same;
use crate::plays::{play, play_row};
use avs_dev::Tear;
use avs_model::Host;
use avs_sender_plain::calls::{Begin, Call, Put, Spot};
use avs_sender_plain::disks::Harm;
use std::alloc::Global;
use std::process::Abort;

// What a stopped write has stored: nothing, its first block, blocks within it, and all of them.
const TEARS: [(u32, u32); 4] = [(0, 0), (0, 1), (1, 2), (0, 1000)];

const SPOTS: [Spot; 6] = [
    Spot::State,
    Spot::Volume(0),
    Spot::Volume(1),
    Spot::Bits(0),
    Spot::Bits(1),
    Spot::Land,
];

/// How many writes calls make of each of these disks.
type Writes = [u32; 6];

fn put(set: u32, at: u32, count: u32, byte: u8) -> Call {
    Call::Write(Put {
        set,
        at,
        count,
        byte,
    })
}

fn stops_at(rt: &impl Abort, alloc: Global, calls: &[Call], spot: Spot, skip: u32, want: u32) {
    for (from, count) in TEARS {
        let harm = Harm::Tear(spot, Tear { skip, from, count });
        same(rt, play(rt, alloc, Host::P, calls, harm), want);
    }
}

// Calls make so many writes of a disk: each of them is stopped by each tear, and there is no other.
fn stops_on(rt: &impl Abort, alloc: Global, calls: &[Call], spot: Spot, writes: u32) {
    for skip in 0..writes {
        stops_at(rt, alloc, calls, spot, skip, 1);
    }
    stops_at(rt, alloc, calls, spot, writes, 0);
}

fn each_stop(rt: &impl Abort, alloc: Global, calls: &[Call], writes: Writes) {
    for (spot, count) in SPOTS.iter().zip(writes.iter()) {
        stops_on(rt, alloc, calls, *spot, *count);
    }
}

fn begin(number: u64, full: bool) -> Call {
    Call::Begin(Begin {
        number,
        full,
        theirs: ([false, true, false], [true, false, false]),
    })
}

#[test]
fn a_beginning_is_stopped_at_each_write(rt: HostRuntime) {
    let alloc = rt.alloc();
    each_stop(&rt, alloc, &[begin(1, false)], [1, 0, 0, 1, 1, 0]);
    each_stop(&rt, alloc, &[begin(1, true)], [1, 0, 0, 1, 1, 0]);
}

#[test]
fn leaving_is_stopped_at_its_note(rt: HostRuntime) {
    let alloc = rt.alloc();
    for leave in [Call::Log, Call::Broken] {
        let calls = [begin(1, false), leave, leave, begin(2, true), leave];
        each_stop(&rt, alloc, &calls, [4, 0, 0, 2, 2, 0]);
    }
}

#[test]
fn a_write_in_no_session_is_stopped_at_each_write(rt: HostRuntime) {
    let alloc = rt.alloc();
    each_stop(&rt, alloc, &[put(0, 62, 4, 0x11)], [0, 1, 0, 1, 0, 0]);
    each_stop(&rt, alloc, &[put(1, 0, 70, 0x11)], [0, 0, 1, 0, 1, 0]);
}

// Writes in a session that is left before a segment is copied.
fn writes() -> [Call; 9] {
    [
        begin(1, false),
        put(0, 62, 4, 0x11),
        put(1, 60, 10, 0x22),
        Call::Tick(1),
        put(0, 128, 3, 0x33),
        Call::Tick(2),
        Call::Tick(3),
        Call::Log,
        put(0, 0, 1, 0x44),
    ]
}

#[test]
fn writes_of_a_session_are_stopped_at_each_write(rt: HostRuntime) {
    each_stop(&rt, rt.alloc(), &writes(), [2, 3, 1, 6, 3, 0]);
}

// All writes of a session: both sets are copied, written behind their copies and before, and freed.
fn session() -> [Call; 14] {
    [
        begin(1, false),
        put(0, 62, 4, 0x11),
        put(1, 60, 10, 0x22),
        Call::Sync,
        Call::Sync,
        Call::Tick(3),
        put(0, 100, 3, 0x33),
        Call::Tick(4),
        Call::Sync,
        put(1, 1, 1, 0x44),
        Call::Tick(6),
        Call::Lend,
        Call::Tick(7),
        Call::Log,
    ]
}

#[test]
fn a_session_is_stopped_at_each_write(rt: HostRuntime) {
    each_stop(&rt, rt.alloc(), &session(), [3, 2, 2, 6, 6, 0]);
}

// A volume fails at each of its calls, also at those that read, and the row makes no other.
fn fails_on(rt: &impl Abort, alloc: Global, calls: &[Call], spot: Spot, count: u64) {
    for number in 0..count {
        let harm = Harm::Call(spot, number.saturating_add(1));
        same(rt, play(rt, alloc, Host::P, calls, harm), 1);
    }
    let harm = Harm::Call(spot, count.saturating_add(1));
    let (_, stops) = play_row(rt, alloc, Host::P, calls, harm);
    same(rt, stops, 0);
}

#[test]
fn a_session_is_stopped_where_a_volume_fails(rt: HostRuntime) {
    let alloc = rt.alloc();
    fails_on(&rt, alloc, &session(), Spot::Volume(0), 4);
    fails_on(&rt, alloc, &session(), Spot::Volume(1), 4);
}
