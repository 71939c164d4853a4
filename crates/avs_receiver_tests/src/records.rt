// Disks that are refused, with each field of what lies on them altered, are handed back.

use crate::checks::{images, new_looks};
use crate::disks::{
    Disks, LANDING, alter, apart, bitmap, bitmap_on, disk, disk_at, landing_on, load, new_disks,
    same, state_with,
};
use crate::play::{new_run, run_on, step};
use Step::{Apply, Ask, Log, Tear, Write};
use avs_dev::{Disk, MemDisk, Why};
use avs_model::{HalfRole, Host, State};
use avs_receiver_plain::plain::{OTHERS, Plain, SIZES};
use avs_receiver_plain::steps::{Put, Range, Spot, Step, of};
use avs_sync::Note;
use std::alloc::Global;
use std::process::Abort;

// It replicates, and its last place, 2, was stopped below: three blocks of the first set from 5 on.
const STEPS: [Step; 4] = [
    Tear(Spot::Volume(0), 0, 0, 0),
    Ask(1),
    Apply(1, 1, Put::Mark),
    Apply(
        1,
        2,
        Put::Write(Range {
            set: 0,
            at: 5,
            count: 3,
            byte: 0x11,
        }),
    ),
];

// The disks behind some steps, and what the half stands for before the last one, and behind it.
fn behind(rt: &impl Abort, alloc: Global, steps: &[Step]) -> (Disks, Plain) {
    let mut run = new_run(rt, alloc, Host::S);
    for &one in steps {
        run = step(rt, alloc, run, one);
    }
    (apart(rt, run.half.into_parts()), run.plain)
}

// It is found on these disks, and stands for this.
fn finds(rt: &impl Abort, alloc: Global, disks: Disks, want: Plain) {
    run_on(rt, alloc, disks, want);
}

// Why a load refuses disks, and the disks.
fn refused(rt: &impl Abort, alloc: Global, disks: Disks, want: Why) -> Disks {
    match load(rt, alloc, disks) {
        Ok(_) => panic!(rt; "it was taken"),
        Err((disks, why)) => {
            same(rt, why, want);
            disks
        }
    }
}

/// A byte of a block of a disk that is altered.
#[derive(Clone, Copy)]
struct Alters {
    spot: Spot,
    block: u32,
    at: usize,
    byte: u8,
}

// With that byte the disks are refused, and are handed back: with the old one again the half is found.
fn field(rt: &impl Abort, alloc: Global, one: Alters, field: u32) {
    let (mut disks, plain) = behind(rt, alloc, &STEPS);
    let old = alter(
        rt,
        disk_at(&mut disks, one.spot),
        one.block,
        one.at,
        one.byte,
    );
    let mut disks = refused(rt, alloc, disks, Why::BadRecord(field));
    alter(rt, disk_at(&mut disks, one.spot), one.block, one.at, old);
    let Apply(_, _, put) = STEPS[3] else {
        return;
    };
    finds(rt, alloc, disks, plain.with_next(put).left());
}

fn fields(rt: &impl Abort, alloc: Global, spot: Spot, block: u32, cases: &[(usize, u8, u32)]) {
    for &(at, byte, want) in cases {
        let one = Alters {
            spot,
            block,
            at,
            byte,
        };
        field(rt, alloc, one, want);
    }
}

// The last ones of the header are no set, and a range behind the end of its volume.
#[test]
fn each_field_of_what_has_landed_is_looked_at(rt: HostRuntime) {
    let alloc = rt.alloc();
    let header = [
        (0, b'a', 0),
        (3, b'l', 0),
        (4, 1, 1),
        (7, 2, 1),
        (8, 0x41, 2),
        (16, 0x41, 3),
        (24, 1, 4),
        (27, 4, 4),
        (27, 3, 7),
        (36, 1, 7),
        (39, 0, 7),
        (40, 1, 8),
        (511, 1, 8),
        (28, 1, 64),
        (31, 2, 64),
        (32, 1, 64),
        (31, 1, 64),
        (35, 70, 64),
    ];
    fields(&rt, alloc, Spot::Landing, 1, &header);
    let label = [
        (0, b'a', 0),
        (11, 2, 1),
        (15, 4, 2),
        (19, 1, 3),
        (23, 1, 4),
        (31, 1, 5),
        (32, 1, 6),
    ];
    fields(&rt, alloc, Spot::Landing, 0, &label);
}

#[test]
fn each_field_of_the_note_and_of_a_bitmap_is_looked_at(rt: HostRuntime) {
    let alloc = rt.alloc();
    let note = [
        (400, 0x41, 0),
        (408, 3, 1),
        (408, 0, 2),
        (409, 3, 2),
        (412, 2, 4),
        (416, 0x41, 5),
        (413, 1, 6),
        (424, 1, 6),
        (463, 1, 6),
    ];
    for &(at, byte, want) in &note {
        note_field(&rt, alloc, at, byte, want);
    }
    let label = [
        (7, b'2', 0),
        (11, 2, 1),
        (15, 3, 2),
        (18, 1, 3),
        (23, 9, 4),
        (31, 1, 5),
        (32, 1, 6),
        (511, 1, 6),
    ];
    fields(&rt, alloc, Spot::Bitmap(0), 0, &label);
    fields(&rt, alloc, Spot::Bitmap(1), 0, &label);
}

// The note is read once what lies below is made.
fn note_field(rt: &impl Abort, alloc: Global, at: usize, byte: u8, want: u32) {
    let one = Alters {
        spot: Spot::State,
        block: 1,
        at,
        byte,
    };
    field(rt, alloc, one, want);
}

// Of what has landed the session says whether it is done once more, and up to which place all was applied.
#[test]
fn what_has_landed_of_another_session_is_not_taken(rt: HostRuntime) {
    let alloc = rt.alloc();
    for session in [0, 2] {
        let (mut disks, plain) = behind(&rt, alloc, &STEPS);
        alter(&rt, &mut disks.land, 1, 15, session);
        let want = Plain {
            applied: 0,
            ..plain.left()
        };
        finds(&rt, alloc, disks, want);
    }
}

// A range up to the end of its volume is there.
#[test]
fn the_last_blocks_of_a_volume_are_there(rt: HostRuntime) {
    let alloc = rt.alloc();
    let (mut disks, plain) = behind(&rt, alloc, &STEPS);
    alter(&rt, &mut disks.land, 1, 35, 69);
    let put = Put::Write(of(0, 69, 3, 0x11));
    finds(&rt, alloc, disks, plain.with_next(put).left());
}

fn note(role: HalfRole, state: State) -> Note {
    Note {
        session: 1,
        role,
        state,
        empty: OTHERS,
        reverse: false,
        mark: 1,
    }
}

// The same disks with another note.
fn noted(rt: &impl Abort, alloc: Global, role: HalfRole, state: State, want: Plain) {
    let (mut disks, _) = behind(rt, alloc, &STEPS);
    disks.state = state_with(rt, alloc, note(role, state));
    finds(rt, alloc, disks, want);
}

// Nothing is done once more where the note says that the half has left, or sends.
#[test]
fn the_note_says_what_is_done_once_more(rt: HostRuntime) {
    let alloc = rt.alloc();
    let (_, plain) = behind(&rt, alloc, &STEPS);
    let left = Plain {
        applied: 2,
        ..plain.left()
    };
    noted(&rt, alloc, HalfRole::Receiver, State::Logging, left);
    let sends = Plain {
        role: HalfRole::Sender,
        applied: 0,
        ..left
    };
    noted(&rt, alloc, HalfRole::Sender, State::Logging, sends);
}

#[test]
fn what_a_sender_left_is_not_done_once_more(rt: HostRuntime) {
    let alloc = rt.alloc();
    let (mut disks, plain) = behind(&rt, alloc, &STEPS);
    disks.state = state_with(&rt, alloc, note(HalfRole::Sender, State::Replicating));
    let Ok(mut half) = load(&rt, alloc, disks) else {
        panic!(&rt; "it is taken");
    };
    same(&rt, half.stand(), (0, State::Logging));
    let found = images(&rt, &mut half, &mut new_looks(&rt, alloc));
    assert!(rt; found[0] == plain.images[0]);
}

// One that replicates has no bits: those that are left of before its mark go.
#[test]
fn bits_of_before_the_mark_go(rt: HostRuntime) {
    let alloc = rt.alloc();
    let steps = [
        Write(of(0, 0, 70, 0x11)),
        Write(of(1, 0, 1, 0x22)),
        Ask(1),
        Apply(1, 1, Put::Copy(of(0, 0, 64, 0x33))),
        Log,
    ];
    let (mut disks, plain) = behind(&rt, alloc, &steps);
    disks.state = state_with(&rt, alloc, note(HalfRole::Receiver, State::Replicating));
    let want = Plain {
        mark: 1,
        contents: [true; 2],
        due: [[false; 2]; 2],
        ..plain
    };
    finds(&rt, alloc, disks, want);
}

// The landing volume alone, or a bitmap alone, is too small by a block; at its size it is taken.
#[test]
fn disks_that_are_too_small_are_refused(rt: HostRuntime) {
    let alloc = rt.alloc();
    let plain = Plain::new(Host::S);
    let mut disks = new_disks(&rt, alloc, Host::S);
    let land = disks.land;
    disks.land = disk(&rt, alloc, LANDING - 1);
    let mut disks = refused(&rt, alloc, disks, Why::BadRecord(64));
    same(&rt, disks.land.blocks(), LANDING - 1);
    disks.land = land;
    let bits = disks.second_bits;
    disks.second_bits = disk(&rt, alloc, 1);
    let mut disks = refused(&rt, alloc, disks, Why::BadRecord(64));
    same(&rt, disks.second_bits.blocks(), 1);
    disks.second_bits = bitmap(&rt, alloc, SIZES[0]);
    let mut disks = refused(&rt, alloc, disks, Why::BadRecord(3));
    disks.second_bits = bits;
    finds(&rt, alloc, disks, plain);
}

// A disk of which the calls with these numbers fail.
fn failing(rt: &impl Abort, alloc: Global, blocks: u32, calls: &[u64]) -> MemDisk {
    let fails = calls.to_vec(alloc).expect(rt, "memory");
    MemDisk::new(alloc, blocks, fails).expect(rt, "memory")
}

// A landing volume is made by two writes, and found by two reads; a bitmap is made by one, and found by one.
#[test]
fn a_read_that_fails_is_told(rt: HostRuntime) {
    let alloc = rt.alloc();
    for call in [3, 4] {
        let mut disks = new_disks(&rt, alloc, Host::S);
        disks.land = landing_on(&rt, alloc, failing(&rt, alloc, LANDING, &[call]));
        let disks = refused(&rt, alloc, disks, Why::Fault);
        finds(&rt, alloc, disks, Plain::new(Host::S));
    }
    let mut disks = new_disks(&rt, alloc, Host::S);
    disks.first_bits = bitmap_on(&rt, alloc, failing(&rt, alloc, 2, &[2]), SIZES[0]);
    let disks = refused(&rt, alloc, disks, Why::Fault);
    finds(&rt, alloc, disks, Plain::new(Host::S));
}
