// What a call that stopped has left on the disks.

use crate::lies::{Lies, SetLies, lies_of, same};
use avs_sender_plain::calls::{Begin, Call, Put};
use avs_sender_plain::plain::Plain;
use avs_sender_plain::set::{Due, PlainSet, Segments, touched};
use std::process::Abort;

fn both(one: &Segments, two: &Segments) -> Segments {
    [one[0] || two[0], one[1] || two[1], one[2] || two[2]]
}

fn without(one: &Segments, two: &Segments) -> Segments {
    [one[0] && !two[0], one[1] && !two[1], one[2] && !two[2]]
}

// All of some segments are there, and no other than some.
fn within(rt: &impl Abort, found: &Segments, least: &Segments, most: &Segments) {
    same(rt, both(found, least), *found);
    same(rt, both(found, most), *most);
}

// A beginning sets some of its bits, or all of them and its note.
fn torn_begin(rt: &impl Abort, plain: &Plain, lies: &Lies, begin: &Begin) {
    let old = lies_of(plain);
    let (first, second) = plain.begun(begin);
    let (first, second) = (
        both(&old.first.bits, &first),
        both(&old.second.bits, &second),
    );
    within(rt, &lies.first.bits, &old.first.bits, &first);
    within(rt, &lies.second.bits, &old.second.bits, &second);
    same(rt, lies.first.image, old.first.image);
    same(rt, lies.second.image, old.second.image);
    if lies.note != old.note {
        same(rt, lies.note, plain.begun_note(begin));
        same(rt, (lies.first.bits, lies.second.bits), (first, second));
    }
}

// Each block of the range is old or new, and where one is new all bits are there.
fn torn_blocks(rt: &impl Abort, old: &SetLies, lies: &SetLies, put: &Put) {
    let all = both(&old.bits, &touched(put.at, put.count));
    within(rt, &lies.bits, &old.bits, &all);
    let mut block = 0;
    for (was, now) in old.image.iter().zip(lies.image.iter()) {
        let is_written = put.at <= block && block - put.at < put.count;
        assert!(rt; *now == *was || (is_written && *now == put.byte && lies.bits == all));
        block = block.saturating_add(1);
    }
}

fn torn_write(rt: &impl Abort, plain: &Plain, lies: &Lies, put: &Put) {
    let old = lies_of(plain);
    same(rt, lies.note, old.note);
    if put.set == 0 {
        torn_blocks(rt, &old.first, &lies.first, put);
        same(rt, lies.second, old.second);
    } else {
        same(rt, lies.first, old.first);
        torn_blocks(rt, &old.second, &lies.second, put);
    }
}

// Some of the segments that a place frees are gone, or all of them, and where the mark is known the note says so.
fn torn_tick(rt: &impl Abort, plain: &Plain, lies: &Lies, applied: u64) {
    let old = lies_of(plain);
    let known = plain.session.known.max(applied);
    let first = without(&old.first.bits, &plain.first.freed(known));
    let second = without(&old.second.bits, &plain.second.freed(known));
    within(rt, &lies.first.bits, &first, &old.first.bits);
    within(rt, &lies.second.bits, &second, &old.second.bits);
    same(rt, lies.first.image, old.first.image);
    same(rt, lies.second.image, old.second.image);
    if lies.note != old.note {
        assert!(rt; plain.turns(known));
        same(rt, lies.note, plain.marked_note());
        same(rt, (lies.first.bits, lies.second.bits), (first, second));
    }
}

fn torn_leave(rt: &impl Abort, plain: &Plain, lies: &Lies) {
    let old = lies_of(plain);
    if lies.note != old.note {
        assert!(rt; plain.in_session());
        same(rt, lies.note, plain.left_note());
    }
    same(rt, (lies.first, lies.second), (old.first, old.second));
}

fn torn(rt: &impl Abort, plain: &Plain, lies: &Lies, call: &Call) {
    match call {
        Call::Begin(begin) => torn_begin(rt, plain, lies, begin),
        Call::Write(put) => torn_write(rt, plain, lies, put),
        Call::Tick(applied) => torn_tick(rt, plain, lies, *applied),
        Call::Log | Call::Broken => torn_leave(rt, plain, lies),
        Call::Sync | Call::Lend | Call::Crash => same(rt, *lies, lies_of(plain)),
    }
}

fn due_of(bits: &Segments) -> Due {
    [
        bits[0].then_some(0),
        bits[1].then_some(0),
        bits[2].then_some(0),
    ]
}

fn take(set: &mut PlainSet, lies: &SetLies) {
    set.due = due_of(&lies.bits);
    set.image = lies.image;
}

/// What lies on the disks once a call has stopped is what it may leave, and is taken as what the sender stands for from then on.
pub fn adopt(rt: &impl Abort, plain: &mut Plain, lies: &Lies, call: &Call) {
    torn(rt, plain, lies, call);
    take(&mut plain.first, &lies.first);
    take(&mut plain.second, &lies.second);
    plain.note = lies.note;
    plain.find();
}
