// Calls one after another, each compared with the definitions.

use crate::answers::check_answers;
use crate::lies::{image_in, lies_of, lies_on, same};
use crate::torn::adopt;
use avs_dev::Disk;
use avs_model::{Host, Limits, Refusal, State};
use avs_sender_plain::calls::{Call, Came};
use avs_sender_plain::disks::{Disks, Harm, made};
use avs_sender_plain::plain::Plain;
use avs_sender_plain::rig::{Found, Rig, load};
use avs_sender_plain::set::SIZES;
use avs_sync::{NOTE, get_note};
use std::alloc::Global;
use std::process::Abort;

pub const LIMITS: Limits = Limits {
    writes: 6,
    blocks: 150,
    block_mode: true,
};

/// A sender, what it is to stand for, and what came of its last call.
#[derive(Drop)]
pub struct Played {
    pub rig: Rig,
    pub plain: Plain,
    pub came: Came,
}

/// A sender that was found just now.
pub fn just_found(rig: Rig, plain: Plain) -> Played {
    Played {
        rig,
        plain,
        came: Came::Done,
    }
}

pub fn new_disks(rt: &impl Abort, alloc: Global) -> Disks {
    made(alloc).expect(rt, "disks")
}

pub fn found(rt: &impl Abort, alloc: Global, host: Host, disks: Disks) -> Rig {
    match load(alloc, host, disks, LIMITS) {
        Found::Rig(rig) => rig,
        _ => panic!(rt; "a sender"),
    }
}

/// A sender on new disks, of which one fails.
pub fn new_sender(rt: &impl Abort, alloc: Global, host: Host, harm: Harm) -> Played {
    let disks = new_disks(rt, alloc).copy(alloc, harm).expect(rt, "disks");
    let rig = found(rt, alloc, host, disks);
    just_found(rig, Plain::new(alloc, host, LIMITS))
}

pub fn disks_of(rt: &impl Abort, rig: Rig) -> Disks {
    rig.into_disks().expect(rt, "disks")
}

// The volume of a set, as an errand finds it, and the note that it is given. Whether no disk failed.
fn check_volume(rt: &impl Abort, alloc: Global, one: &mut Played, set: u32) -> bool {
    let Some(look) = one.rig.look(alloc, set) else {
        return false;
    };
    assert!(rt; look.is_read);
    let of = one.plain.of(set);
    same(rt, image_in(rt, &look.bytes, of.blocks), of.image);
    same(rt, get_note(&look.note), Ok(one.plain.note));
    true
}

fn lend(rt: &impl Abort, alloc: Global, one: &mut Played) -> Came {
    if check_volume(rt, alloc, one, 0) && check_volume(rt, alloc, one, 1) {
        return Came::Done;
    }
    Came::Refused(Refusal::Fault)
}

// All goes down, and the sender is found again.
fn crash(rt: &impl Abort, alloc: Global, one: Played) -> Played {
    let Played { rig, plain, .. } = one;
    let disks = disks_of(rt, rig);
    let rig = found(rt, alloc, plain.host, disks);
    just_found(rig, plain)
}

/// Makes a call. What it is to answer is not looked at.
pub fn act(rt: &impl Abort, alloc: Global, mut one: Played, call: Call) -> Played {
    match call {
        Call::Lend => one.came = lend(rt, alloc, &mut one),
        Call::Crash => return crash(rt, alloc, one),
        _ => one.came = one.rig.act(alloc, call),
    }
    one
}

/// Whether the last call was stopped.
pub fn is_stopped(one: &Played) -> bool {
    one.came == Came::Refused(Refusal::Fault)
}

/// The disks of a sender hold what it stands for, and so many blocks of its volumes were written.
pub fn check_disks(rt: &impl Abort, alloc: Global, disks: &mut Disks, plain: &Plain) {
    same(rt, lies_on(rt, alloc, disks), lies_of(plain));
    let writes = &plain.writes;
    let blocks = |count: u32, more: u32| u64::from(count).saturating_add(u64::from(more));
    same(rt, disks.state.written(), blocks(2, writes.notes));
    let first = blocks(SIZES[0], writes.blocks[0]);
    let second = blocks(SIZES[1], writes.blocks[1]);
    same(rt, disks.volumes.0.written(), first);
    same(rt, disks.volumes.1.written(), second);
}

/// The sender that is found on disks after a call stopped, where what lies there is what that may leave.
pub fn after_stop(
    rt: &impl Abort,
    alloc: Global,
    mut disks: Disks,
    mut plain: Plain,
    call: Call,
) -> Played {
    let lies = lies_on(rt, alloc, &mut disks);
    adopt(rt, &mut plain, &lies, &call);
    let rig = found(rt, alloc, plain.host, disks);
    check_answers(rt, alloc, &rig, &plain);
    just_found(rig, plain)
}

// An errand that failed leaves the sender as it was. Any other call that stopped ends its session, and it is found again.
fn after_fault(rt: &impl Abort, alloc: Global, one: Played, call: Call) -> Played {
    let is_left = one.rig.stands().0 == State::Logging;
    assert!(rt; is_left || matches!(call, Call::Lend | Call::Log | Call::Broken));
    if matches!(call, Call::Lend) {
        check_answers(rt, alloc, &one.rig, &one.plain);
        return one;
    }
    let Played { rig, plain, .. } = one;
    let disks = disks_of(rt, rig);
    after_stop(rt, alloc, disks, plain, call)
}

/// Makes a call, and compares the answer and the sender with the definitions. Whether it stopped, after which the sender is found
/// again.
pub fn step(rt: &impl Abort, alloc: Global, one: Played, call: Call) -> (Played, bool) {
    let mut one = act(rt, alloc, one, call);
    if is_stopped(&one) {
        return (after_fault(rt, alloc, one, call), true);
    }
    same(rt, Ok(one.came), one.plain.act(&call));
    check_answers(rt, alloc, &one.rig, &one.plain);
    (one, false)
}

/// Makes calls on a new sender of which one disk fails. Behind a stop the row goes on. How often calls stopped.
pub fn play_row(
    rt: &impl Abort,
    alloc: Global,
    host: Host,
    calls: &[Call],
    harm: Harm,
) -> (Played, u32) {
    let mut one = new_sender(rt, alloc, host, harm);
    let mut stops = 0u32;
    for &call in calls {
        let (then, is_stopped) = step(rt, alloc, one, call);
        one = then;
        if is_stopped {
            stops = stops.saturating_add(1);
        }
    }
    (one, stops)
}

/// The same, and then all that lies on the disks is compared.
pub fn play(rt: &impl Abort, alloc: Global, host: Host, calls: &[Call], harm: Harm) -> u32 {
    let (one, stops) = play_row(rt, alloc, host, calls, harm);
    let Played { rig, plain, .. } = one;
    let mut disks = disks_of(rt, rig);
    check_disks(rt, alloc, &mut disks, &plain);
    stops
}
