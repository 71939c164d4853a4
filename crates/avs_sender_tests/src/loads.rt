// Disks on which no sender is found are handed back as they were.

use crate::answers::check_answers;
use crate::lies::same;
use crate::plays::{LIMITS, Played, check_disks, disks_of, found, just_found, new_disks, step};
use avs_dev::{Disk, MemDisk, Why};
use avs_model::{HalfRole, Host, Limits, Refusal, State, Word};
use avs_seg::BLOCK;
use avs_sender_plain::calls::{Begin, Call, Came, Spot};
use avs_sender_plain::disks::{Disks, Harm, bitmap, blank, bytes_of, put_blocks};
use avs_sender_plain::plain::Plain;
use avs_sender_plain::rig::{Found, load};
use avs_sender_plain::set::SIZES;
use avs_sync::{NOTE, Note};
use std::alloc::Global;
use std::process::Abort;

fn same_blocks(rt: &impl Abort, alloc: Global, one: &mut MemDisk, two: &mut MemDisk) {
    let (one, two) = (bytes_of(alloc, one), bytes_of(alloc, two));
    let one = one.expect(rt, "the blocks of a disk");
    assert!(rt; one.as_slice() == two.expect(rt, "the blocks of a disk").as_slice());
}

fn same_disks(rt: &impl Abort, alloc: Global, one: &mut Disks, two: &mut Disks) {
    same_blocks(rt, alloc, &mut one.state, &mut two.state);
    same_blocks(rt, alloc, &mut one.volumes.0, &mut two.volumes.0);
    same_blocks(rt, alloc, &mut one.volumes.1, &mut two.volumes.1);
    same_blocks(rt, alloc, &mut one.bits.0, &mut two.bits.0);
    same_blocks(rt, alloc, &mut one.bits.1, &mut two.bits.1);
    same_blocks(rt, alloc, &mut one.land, &mut two.land);
}

// No sender is found on disks, and they are handed back.
fn refused(
    rt: &impl Abort,
    alloc: Global,
    mut disks: Disks,
    (harm, limits): (Harm, Limits),
    want: Why,
) {
    let copies = disks.copy(alloc, harm).expect(rt, "disks");
    match load(alloc, Host::P, copies, limits) {
        Found::Refused(why, mut back) => {
            same(rt, why, want);
            same_disks(rt, alloc, &mut back, &mut disks);
        }
        _ => panic!(rt; "it was not refused"),
    }
}

// Disks with a note of which bytes are altered.
fn with_note(rt: &impl Abort, alloc: Global, altered: &[(usize, u8)]) -> Disks {
    let mut disks = new_disks(rt, alloc);
    let mut block = [0; BLOCK];
    for (at, byte) in altered {
        assert!(rt; *at < NOTE);
        block[400 + *at] = *byte;
    }
    assert!(rt; put_blocks(&mut disks.state, 1, &block));
    disks
}

#[test]
fn the_first_field_of_a_note_that_breaks_its_rule_is_told(rt: HostRuntime) {
    let alloc = rt.alloc();
    let cases: [(&[(usize, u8)], u32); 9] = [
        (&[(0, 0x40), (7, 1)], 0),
        (&[(8, 3)], 1),
        (&[(9, 1)], 2),
        (&[(8, 1), (9, 4)], 2),
        (&[(8, 2), (9, 3)], 2),
        (&[(12, 2)], 4),
        (&[(16, 0x80)], 5),
        (&[(24, 1)], 6),
        (&[(63, 1), (12, 2), (9, 9), (8, 1)], 2),
    ];
    for (altered, field) in cases {
        let disks = with_note(&rt, alloc, altered);
        let why = Why::BadRecord(field);
        refused(&rt, alloc, disks, (Harm::None, LIMITS), why);
    }
}

// New disks with others of the bits.
fn with_bits(
    rt: &impl Abort,
    alloc: Global,
    first: Option<MemDisk>,
    second: Option<MemDisk>,
) -> Disks {
    let mut disks = new_disks(rt, alloc);
    if let Some(first) = first {
        disks.bits.0 = first;
    }
    if let Some(second) = second {
        disks.bits.1 = second;
    }
    disks
}

#[test]
fn the_first_bitmap_that_breaks_a_rule_is_told(rt: HostRuntime) {
    let alloc = rt.alloc();
    let small = || blank(alloc, 1);
    let none = || blank(alloc, 2);
    let other = |blocks: u32| bitmap(alloc, blocks);
    let cases = [
        ((small(), None), 64),
        ((None, small()), 64),
        ((none(), None), 0),
        ((None, none()), 0),
        ((other(SIZES[1]), None), 3),
        ((None, other(SIZES[0])), 3),
        ((none(), small()), 0),
        ((small(), none()), 64),
    ];
    for ((first, second), field) in cases {
        let disks = with_bits(&rt, alloc, first, second);
        let why = Why::BadRecord(field);
        refused(&rt, alloc, disks, (Harm::None, LIMITS), why);
    }
}

// So many entries have no room in memory. Where they have, a sender is found.
#[test]
fn without_memory_the_disks_are_handed_back(rt: HostRuntime) {
    let alloc = rt.alloc();
    let limits = Limits {
        writes: u32::MAX,
        ..LIMITS
    };
    let (mut disks, mut others) = (new_disks(&rt, alloc), new_disks(&rt, alloc));
    let copies = disks.copy(alloc, Harm::None).expect(&rt, "disks");
    match load(alloc, Host::P, copies, limits) {
        Found::Rig(rig) => same(&rt, rig.session().last, 0),
        Found::Refused(why, mut back) => {
            same(&rt, why, Why::NoMemory);
            same_disks(&rt, alloc, &mut back, &mut others);
        }
        Found::None => panic!(rt; "it was not refused"),
    }
}

// The read of a disk of bits fails by which a sender is looked for.
#[test]
fn a_read_that_fails_is_told(rt: HostRuntime) {
    let alloc = rt.alloc();
    for set in 0..2 {
        let harm = Harm::Call(Spot::Bits(set), 1);
        refused(
            &rt,
            alloc,
            new_disks(&rt, alloc),
            (harm, LIMITS),
            Why::Fault,
        );
    }
}

// ---- notes with which a sender is found

const NOTE_OF: Note = Note {
    session: 7,
    role: HalfRole::Sender,
    state: State::Replicating,
    empty: 0,
    reverse: true,
    mark: 5,
};

// Disks with this note.
fn on_note(rt: &impl Abort, alloc: Global, note: &Note) -> Disks {
    let role = match note.role {
        HalfRole::Lone => 0,
        HalfRole::Sender => 1,
        HalfRole::Receiver => 2,
    };
    let state = match note.state {
        State::Logging => 0,
        State::Syncing | State::Receiving => 1,
        State::Replicating => 2,
        State::Queuing => 3,
    };
    let bytes = [
        (7, (note.session % 256) as u8),
        (8, role),
        (9, state),
        (11, (note.empty % 256) as u8),
        (12, note.reverse as u8),
        (23, (note.mark % 256) as u8),
    ];
    with_note(rt, alloc, &bytes)
}

// The sender that is found with a note, whatever state that says.
fn noted(rt: &impl Abort, alloc: Global, note: Note) -> Played {
    let disks = on_note(rt, alloc, &note)
        .copy(alloc, Harm::None)
        .expect(rt, "disks");
    let mut plain = Plain::new(alloc, Host::P, LIMITS);
    plain.note = note;
    plain.first.is_empty = note.empty & 8 != 0;
    plain.second.is_empty = note.empty & 1 != 0;
    plain.find();
    let rig = found(rt, alloc, Host::P, disks);
    check_answers(rt, alloc, &rig, &plain);
    just_found(rig, plain)
}

// Calls on it answer so, and its disks are compared behind them.
fn answers(rt: &impl Abort, alloc: Global, note: Note, calls: &[(Call, Came)]) {
    let mut one = noted(rt, alloc, note);
    for (call, want) in calls {
        let (then, is_stopped) = step(rt, alloc, one, *call);
        assert!(rt; !is_stopped);
        same(rt, then.came, *want);
        one = then;
    }
    let Played { rig, plain, .. } = one;
    let mut disks = disks_of(rt, rig);
    check_disks(rt, alloc, &mut disks, &plain);
}

fn begin(number: u64) -> Call {
    Call::Begin(Begin {
        number,
        full: true,
        theirs: ([false; 3], [false; 3]),
    })
}

#[test]
fn a_set_without_contents_begins_no_session(rt: HostRuntime) {
    let alloc = rt.alloc();
    let none = Came::Refused(Refusal::NoContents);
    let wrong = Came::Refused(Refusal::WrongState(Word::Logging));
    for empty in [1, 8, 9] {
        let note = Note { empty, ..NOTE_OF };
        let calls = [
            (begin(9), none),
            (Call::Tick(0), wrong),
            (Call::Log, Came::Done),
        ];
        answers(&rt, alloc, note, &calls);
    }
    let other = Note {
        empty: 0x20,
        ..NOTE_OF
    };
    answers(&rt, alloc, other, &[(begin(8), Came::Done)]);
}

#[test]
fn a_sender_is_found_in_no_session(rt: HostRuntime) {
    let alloc = rt.alloc();
    let left = Came::Left(State::Logging);
    for state in [State::Logging, State::Syncing, State::Queuing] {
        let note = Note { state, ..NOTE_OF };
        answers(
            &rt,
            alloc,
            note,
            &[(Call::Broken, left), (begin(9), Came::Done)],
        );
    }
    let received = Note {
        role: HalfRole::Receiver,
        state: State::Receiving,
        ..NOTE_OF
    };
    answers(
        &rt,
        alloc,
        received,
        &[(Call::Log, Came::Done), (begin(8), Came::Done)],
    );
}
