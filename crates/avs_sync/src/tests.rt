// Notes at the edges of their fields, bytes of which one is altered, and sessions step by step.
use crate::{NOTE, Note, Session, get_note, put_note};
use avs_code::BadRecord;
use avs_model::{HalfRole, State};
use std::fmt::Debug;
use std::process::Abort;

const MAX: u64 = 1 << 62;

fn same<T: PartialEq + Debug + Drop>(rt: &impl Abort, found: T, want: T) {
    assert_eq!(rt; found, want);
}

// The bytes with another one at a place.
fn altered(bytes: &[u8; NOTE], at: usize, byte: u8) -> [u8; NOTE] {
    let mut other = *bytes;
    if let Some(place) = other.get_mut(at) {
        *place = byte;
    }
    other
}

const FULL: Note = Note {
    session: MAX,
    role: HalfRole::Sender,
    state: State::Queuing,
    empty: 0x8001,
    reverse: true,
    mark: MAX - 1,
};

#[test]
fn a_note_lies_at_its_bytes(rt: HostRuntime) {
    let mut bytes = [0xee; NOTE];
    put_note(&FULL, &mut bytes);
    assert!(rt;
        bytes.starts_with(
            b"\x40\0\0\0\0\0\0\0\x01\x03\x80\x01\x01\0\0\0\x3f\xff\xff\xff\xff\xff\xff\xff\0"
        )
    );
    same(&rt, get_note(&bytes), Ok(FULL));
}

#[test]
fn zeros_are_the_note_of_a_half_that_was_in_no_session(rt: HostRuntime) {
    let none = Note {
        session: 0,
        role: HalfRole::Lone,
        state: State::Logging,
        empty: 0,
        reverse: false,
        mark: 0,
    };
    same(&rt, get_note(&[0; NOTE]), Ok(none));
}

#[test]
fn the_first_field_that_breaks_its_rule_is_named(rt: HostRuntime) {
    let mut bytes = [0; NOTE];
    put_note(&FULL, &mut bytes);
    for (at, byte, field) in [
        (7, 1, 0),
        (8, 3, 1),
        (8, 2, 2),
        (8, 0, 2),
        (9, 4, 2),
        (12, 2, 4),
        (16, 0x41, 5),
        (13, 1, 6),
        (15, 1, 6),
        (24, 1, 6),
        (63, 1, 6),
    ] {
        same(
            &rt,
            get_note(&altered(&bytes, at, byte)),
            Err(BadRecord(field)),
        );
    }
    same(&rt, get_note(&[0xff; NOTE]), Err(BadRecord(0)));
}

fn found(role: u8, state: u8) -> Option<State> {
    let mut bytes = [0; NOTE];
    bytes[8] = role;
    bytes[9] = state;
    match get_note(&bytes) {
        Ok(note) => Some(note.state),
        Err(_) => None,
    }
}

#[test]
fn a_half_has_the_states_of_its_role(rt: HostRuntime) {
    for (role, state, want) in [
        (0, 0, Some(State::Logging)),
        (0, 1, None),
        (1, 0, Some(State::Logging)),
        (1, 1, Some(State::Syncing)),
        (1, 2, Some(State::Replicating)),
        (1, 3, Some(State::Queuing)),
        (1, 4, None),
        (2, 0, Some(State::Logging)),
        (2, 1, Some(State::Receiving)),
        (2, 2, Some(State::Replicating)),
        (2, 3, None),
    ] {
        same(&rt, found(role, state), want);
    }
}

#[test]
fn a_sender_replicates_once_it_knows_the_mark(rt: HostRuntime) {
    let placed = Session::begin(true, 7, false).placed().marked();
    same(&rt, placed.state, State::Syncing);
    let early = placed.ticked(1);
    same(&rt, early.state, State::Syncing);
    let want = Session {
        sender: true,
        number: 7,
        reverse: false,
        last: 2,
        known: 2,
        mark: 2,
        state: State::Replicating,
    };
    same(&rt, early.ticked(2), want);
    same(&rt, early.ticked(2).ticked(1), want);
}

#[test]
fn a_receiver_replicates_at_the_mark_and_leaves(rt: HostRuntime) {
    let marked = Session::begin(false, 9, true).placed().marked();
    same(&rt, marked.state, State::Replicating);
    let want = Session {
        sender: false,
        number: 9,
        reverse: true,
        last: 2,
        known: 0,
        mark: 2,
        state: State::Logging,
    };
    same(&rt, marked.left(State::Logging), want);
}
