// Sessions that were worked out by hand: each call, its answer, and the segments that are due behind it.

use crate::lies::same;
use crate::plays::{Played, check_disks, disks_of, new_sender, step};
use avs_model::{Host, Refusal, State, Word};
use avs_sender_plain::calls::{Begin, Call, Came, Put};
use avs_sender_plain::disks::Harm;
use avs_sender_plain::set::Segments;
use std::alloc::Global;
use std::process::Abort;

type Line = (Call, Came, Segments, Segments);

fn put(set: u32, at: u32, count: u32) -> Call {
    Call::Write(Put {
        set,
        at,
        count,
        byte: 0x11,
    })
}

fn begin(number: u64, first: Segments, second: Segments) -> Call {
    Call::Begin(Begin {
        number,
        full: false,
        theirs: (first, second),
    })
}

fn wrong(word: Word) -> Came {
    Came::Refused(Refusal::WrongState(word))
}

fn full(writes: u32, blocks: u32) -> Came {
    Came::Refused(Refusal::QueueFull { writes, blocks })
}

const NONE: Segments = [false; 3];

const A: Segments = [true, false, false];

const B: Segments = [false, true, false];

const C: Segments = [false, false, true];

const AB: Segments = [true, true, false];

const BC: Segments = [false, true, true];

const ABC: Segments = [true; 3];

// The definitions answer each line so, and the sender as they do.
fn lines(rt: &impl Abort, alloc: Global, mut one: Played, lines: &[Line]) {
    for (call, came, first, second) in lines {
        let before = one.plain.session;
        let (then, is_stopped) = step(rt, alloc, one, *call);
        assert!(rt; !is_stopped, "behind {before:?}");
        same(rt, then.came, *came);
        same(
            rt,
            (then.plain.first.bits(), then.plain.second.bits()),
            (*first, *second),
        );
        one = then;
    }
    let Played { rig, plain, .. } = one;
    let mut disks = disks_of(rt, rig);
    check_disks(rt, alloc, &mut disks, &plain);
}

#[test]
fn a_session_by_hand(rt: HostRuntime) {
    let alloc = rt.alloc();
    let one = new_sender(&rt, alloc, Host::P, Harm::None);
    let session: [Line; 17] = [
        (put(0, 63, 2), Came::Local, AB, NONE),
        (begin(1, C, B), Came::Done, ABC, B),
        (put(0, 0, 1), Came::Place(1), ABC, B),
        (put(1, 0, 1), Came::Place(2), ABC, AB),
        (Call::Sync, Came::Copied(3, 0, 0), ABC, AB),
        (Call::Sync, Came::Copied(4, 0, 1), ABC, AB),
        (Call::Sync, full(4, 130), ABC, AB),
        (put(0, 70, 20), Came::Place(5), ABC, AB),
        (put(0, 0, 1), full(5, 150), ABC, AB),
        (Call::Tick(3), Came::Known(3), BC, B),
        (Call::Sync, Came::Copied(6, 0, 2), BC, B),
        (Call::Tick(4), Came::Known(4), BC, B),
        (Call::Sync, Came::Copied(7, 1, 1), BC, B),
        (put(1, 69, 1), Came::Place(8), BC, B),
        (Call::Sync, Came::Marked(9), BC, B),
        (Call::Sync, Came::Idle, BC, B),
        (Call::Tick(8), Came::Known(8), NONE, NONE),
    ];
    lines(&rt, alloc, one, &session);
}

#[test]
fn sessions_behind_a_mark_by_hand(rt: HostRuntime) {
    let alloc = rt.alloc();
    let one = new_sender(&rt, alloc, Host::P, Harm::None);
    let sessions: [Line; 21] = [
        (begin(1, NONE, A), Came::Done, NONE, A),
        (Call::Sync, Came::Copied(1, 1, 0), NONE, A),
        (Call::Sync, Came::Marked(2), NONE, A),
        (begin(2, NONE, NONE), wrong(Word::Syncing), NONE, A),
        (Call::Tick(2), Came::Known(2), NONE, NONE),
        (begin(2, NONE, NONE), wrong(Word::Replicating), NONE, NONE),
        (Call::Tick(1), Came::Known(2), NONE, NONE),
        (
            Call::Tick(3),
            Came::Refused(Refusal::NoPlace(2)),
            NONE,
            NONE,
        ),
        (put(0, 128, 22), Came::Place(3), C, NONE),
        (Call::Sync, Came::Idle, C, NONE),
        (put(0, 127, 2), Came::Place(4), BC, NONE),
        (Call::Tick(3), Came::Known(3), BC, NONE),
        (Call::Log, Came::Done, BC, NONE),
        (put(1, 0, 1), Came::Local, BC, A),
        (Call::Broken, Came::Left(State::Logging), BC, A),
        (Call::Sync, wrong(Word::Logging), BC, A),
        (Call::Tick(4), wrong(Word::Logging), BC, A),
        (begin(2, NONE, NONE), Came::Done, BC, A),
        (Call::Tick(1), Came::Refused(Refusal::NoPlace(0)), BC, A),
        (Call::Sync, Came::Copied(1, 0, 1), BC, A),
        (Call::Tick(1), Came::Known(1), C, A),
    ];
    lines(&rt, alloc, one, &sessions);
}

#[test]
fn entries_fill_a_queue_by_hand(rt: HostRuntime) {
    let alloc = rt.alloc();
    let one = new_sender(&rt, alloc, Host::S, Harm::None);
    let entries: [Line; 12] = [
        (begin(1, NONE, NONE), Came::Done, NONE, NONE),
        (put(0, 0, 1), Came::Place(1), A, NONE),
        (put(0, 0, 1), Came::Place(2), A, NONE),
        (put(0, 0, 1), Came::Place(3), A, NONE),
        (put(0, 0, 1), Came::Place(4), A, NONE),
        (put(0, 0, 1), Came::Place(5), A, NONE),
        (put(0, 0, 1), Came::Place(6), A, NONE),
        (put(1, 0, 1), full(6, 6), A, NONE),
        (Call::Sync, full(6, 6), A, NONE),
        (Call::Tick(5), Came::Known(5), A, NONE),
        (Call::Sync, Came::Marked(7), A, NONE),
        (Call::Tick(6), Came::Known(6), NONE, NONE),
    ];
    lines(&rt, alloc, one, &entries);
}
