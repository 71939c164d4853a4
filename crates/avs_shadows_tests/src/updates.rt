// Updates, and the calls on chunks that another set's update is to take.

use crate::sets::{Member, same, stopped};
use avs_dev::MemDisk;
use avs_model::Kind;
use avs_over::Over;
use avs_shadows::calls::{Below, Came, lacks, slots};
use avs_shadows::plain::{CHUNKS, List, bits_of, size};
use avs_shadows::staging::{
    copy_ahead, copy_part, stage_part, stage_split, turn, turn_to_master, turn_to_shadow,
};
use avs_shadows::steps::{Call, Commit, End, Step, Who};
use std::process::Abort;

// Whether what is staged is committed. The set is turned where all does not go down.
fn turned(one: &mut Member, how: Commit) -> bool {
    if how != Commit::Lost {
        one.plain.live_b = !one.plain.live_b;
    }
    if how == Commit::Turned {
        turn(&mut one.set);
    }
    how != Commit::Lost
}

fn end_of(how: Commit) -> End {
    if how == Commit::Turned {
        End::Done
    } else {
        End::Down
    }
}

fn release(over: &mut Option<Over<MemDisk>>, number: u32) {
    if let Some(over) = over {
        over.release_set(number);
    }
}

// The shadow becomes the master, and then its slots of the overflow volume are given up.
fn renew(rt: &impl Abort, one: &mut Member, below: &mut Below, whole: bool, how: Commit) -> End {
    if stopped(rt, turn_to_shadow(&mut one.set, whole)) {
        return End::Stopped;
    }
    if turned(one, how) {
        one.plain.renew(&below.image, whole);
    }
    if how == Commit::Turned {
        release(&mut below.over, one.number);
    }
    end_of(how)
}

// Chunks are copied ahead by one call: the room is less by so many as get a slot.
fn copies(rt: &impl Abort, one: &mut Member, below: &mut Below, bits: &[u8; 256]) -> Came {
    let lacking = lacks(&one.set, bits).unwrap_or(0);
    let before = slots(&one.set, below);
    let came = copy_part(&mut one.set, below, bits);
    if came == Came::Done {
        let behind = before.map(|(need, room)| (need, room.saturating_sub(lacking)));
        same(rt, slots(&one.set, below), behind);
    }
    came
}

// Each chunk of a list is copied ahead by itself.
fn copies_each(one: &mut Member, below: &mut Below, list: &List) -> Came {
    for chunk in 0..CHUNKS {
        if list[chunk as usize] {
            let came = copy_ahead(&mut one.set, below, chunk);
            if came != Came::Done {
                return came;
            }
        }
    }
    Came::Done
}

fn call(rt: &impl Abort, one: &mut Member, below: &mut Below, call: Call, list: &List) -> Came {
    let bits = bits_of(list);
    match call {
        Call::Ahead => copies_each(one, below, list),
        Call::Copied => copies(rt, one, below, &bits),
        Call::Staged => stage_split(&mut one.set, &bits),
        Call::Both => stage_part(&mut one.set, below, &bits),
    }
}

// The other set gets the chunks that the master is to lose, by one call or by two.
fn spare(rt: &impl Abort, two: &mut Member, below: &mut Below, list: &List, who: Who) -> Came {
    match who {
        Who::First => call(rt, two, below, Call::Both, list),
        Who::Second => {
            let came = call(rt, two, below, Call::Copied, list);
            if came != Came::Done {
                return came;
            }
            call(rt, two, below, Call::Staged, list)
        }
    }
}

// The other set is turned with it. One that had no room is offline then.
fn joined(two: &mut Member, list: &List, is_spared: bool, how: Commit) {
    if is_spared {
        if turned(two, how) {
            two.plain.mark_list(list);
        }
    } else if how != Commit::Lost {
        two.plain.is_offline = two.plain.kind == Kind::Compact;
    }
}

// The master becomes the shadow. All copies come before what is staged.
fn restore(
    rt: &impl Abort,
    (one, two): (&mut Member, &mut Member),
    below: &mut Below,
    who: Who,
    how: Commit,
) -> End {
    let list = one.plain.moved;
    let is_spared = two.plain.has_room(&list, one.plain.beyond());
    if is_spared && stopped(rt, spare(rt, two, below, &list, who)) {
        return End::Stopped;
    }
    if stopped(rt, turn_to_master(&mut one.set)) {
        return End::Stopped;
    }
    if turned(one, how) {
        below.image = one.plain.shadow;
        one.plain.restore();
    }
    joined(two, &list, is_spared, how);
    end_of(how)
}

fn aside(
    rt: &impl Abort,
    one: &mut Member,
    below: &mut Below,
    which: Call,
    list: &List,
    other: u32,
) -> End {
    if !one.plain.has_room(list, other) {
        return End::Refused;
    }
    if stopped(rt, call(rt, one, below, which, list)) {
        return End::Stopped;
    }
    End::Down
}

/// An update, where an owner does it: none while a chunk stands on a shadow alone, and none from a set that is offline.
pub fn update(
    rt: &impl Abort,
    (one, two): (&mut Member, &mut Member),
    below: &mut Below,
    step: Step,
) -> End {
    if size(&one.plain.back) > 0 || size(&two.plain.back) > 0 {
        return End::Done;
    }
    match step {
        Step::Renew(_, whole, how) => renew(rt, one, below, whole, how),
        Step::Restore(who, how) if !one.plain.is_offline => {
            restore(rt, (one, two), below, who, how)
        }
        Step::Aside(_, which, list) => aside(rt, one, below, which, &list, two.plain.beyond()),
        _ => End::Done,
    }
}
