// What a sender answers of itself.

use crate::lies::{byte_in, same};
use avs_model::{Entry, EntryKind, Refusal};
use avs_seg::BLOCK;
use avs_sender::Settled;
use avs_sender_plain::calls::Put;
use avs_sender_plain::plain::{Placed, Plain};
use avs_sender_plain::rig::Rig;
use avs_sender_plain::set::Image;
use std::alloc::Global;
use std::process::Abort;

fn is_write(rt: &impl Abort, entry: &Entry, put: &Put) {
    same(rt, entry.kind, EntryKind::Write);
    same(rt, (entry.set, entry.at), (put.set, put.at));
    let bytes = entry.bytes.as_slice();
    assert!(rt; put.count <= 150 && bytes.len() == BLOCK * put.count as usize);
    assert!(rt; bytes.iter().all(|byte| *byte == put.byte));
}

fn is_copy(rt: &impl Abort, entry: &Entry, (set, seg, count): (u32, u32, u32), image: &Image) {
    same(rt, entry.kind, EntryKind::Copied);
    assert!(rt; seg < 3 && count <= 64);
    same(rt, (entry.set, entry.at), (set, 64 * seg));
    let bytes = entry.bytes.as_slice();
    assert!(rt; bytes.len() == BLOCK * count as usize);
    for (place, want) in image.iter().skip(64 * seg as usize).enumerate() {
        if place < count as usize {
            same(rt, byte_in(rt, bytes, place), *want);
        }
    }
}

// An entry is the one that was given a place.
fn is_placed(rt: &impl Abort, entry: &Entry, placed: &Placed) {
    match placed {
        Placed::Write(put) => is_write(rt, entry, put),
        Placed::Copied(set, seg, count, image) => is_copy(rt, entry, (*set, *seg, *count), image),
        Placed::Mark => {
            same(rt, entry.kind, EntryKind::Mark);
            assert!(rt; entry.bytes.as_slice().is_empty());
        }
    }
}

// What is to be answered of a place.
fn settled(plain: &Plain, place: u64) -> Settled {
    let session = &plain.session;
    if place == 0 || place > session.last {
        Settled::NoPlace(session.last)
    } else if place <= session.known {
        Settled::Remote
    } else if plain.in_session() {
        Settled::Waiting(session.known)
    } else {
        Settled::Logged
    }
}

fn check_place(rt: &impl Abort, alloc: Global, rig: &Rig, plain: &Plain, place: u64) {
    same(rt, rig.settle(place), settled(plain, place));
    let is_asked = plain.in_session() && (place == 0 || place > plain.session.known);
    match (rig.entry(alloc, place), plain.entry(place)) {
        (Some(Ok(entry)), Some(placed)) => {
            assert!(rt; is_asked);
            is_placed(rt, &entry, placed);
        }
        (Some(Err(why)), None) => {
            assert!(rt; is_asked);
            same(rt, why, Refusal::NoPlace(plain.session.last));
        }
        (None, _) => assert!(rt; !is_asked),
        _ => panic!(rt; "the entry of {place}"),
    }
}

// Each place, 0, and the one above the last.
fn check_places(rt: &impl Abort, alloc: Global, rig: &Rig, plain: &Plain) {
    for place in 0..plain.session.last.saturating_add(2) {
        check_place(rt, alloc, rig, plain, place);
    }
}

// The segments of a set that are due, rising.
fn check_bits(rt: &impl Abort, alloc: Global, rig: &Rig, plain: &Plain, set: u32) {
    let found = rig.bits(alloc, set).expect(rt, "memory");
    let mut want = Vec::new(alloc);
    for (seg, is_due) in plain.of(set).bits().iter().enumerate() {
        if *is_due {
            want.push(seg as u32).expect(rt, "memory");
        }
    }
    assert!(rt; found.as_slice() == want.as_slice());
}

/// A sender answers of itself what it is to.
pub fn check_answers(rt: &impl Abort, alloc: Global, rig: &Rig, plain: &Plain) {
    let session = rig.session();
    same(rt, session, plain.session);
    same(
        rt,
        rig.stands(),
        (session.state, session.last, session.known),
    );
    check_bits(rt, alloc, rig, plain, 0);
    check_bits(rt, alloc, rig, plain, 1);
    check_places(rt, alloc, rig, plain);
}
