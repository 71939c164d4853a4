// Two sets of one master that share an overflow volume, and steps on them.

use crate::acts::{arm_at, bring_step, copy_step, saves, write_master, write_shadow};
use crate::checks::{check, check_images};
use crate::sets::{
    Member, add_slots, again, give_shadow, made, new_below, over_again, room, take_shadow,
};
use crate::torn::adopt;
use crate::updates::update;
use avs_dev::{MemDisk, Tear};
use avs_model::Kind;
use avs_shadows::calls::Below;
use avs_shadows::plain::{BLOCKS, Plain};
use avs_shadows::steps::{End, Step, Who, who_of};
use std::alloc::Global;
use std::process::Abort;

/// The two sets, and what they stand over.
#[derive(Drop)]
struct Pair {
    first: Member,
    second: Member,
    below: Below,
}

// Two new sets. A compact one has one own slot, or two.
fn new_pair(rt: &impl Abort, alloc: Global, kinds: (Kind, Kind)) -> Pair {
    let below = new_below(rt, alloc);
    Pair {
        first: Member {
            set: made(rt, alloc, kinds.0, 7, 1),
            plain: Plain::new(kinds.0, 1, &below.image),
            number: 7,
        },
        second: Member {
            set: made(rt, alloc, kinds.1, 9, 2),
            plain: Plain::new(kinds.1, 2, &below.image),
            number: 9,
        },
        below,
    }
}

fn member_again(rt: &impl Abort, alloc: Global, one: Member) -> Member {
    let Member { set, plain, number } = one;
    Member {
        set: again(rt, alloc, number, set, plain.live_b),
        plain,
        number,
    }
}

// All is found again on the disks.
fn found_again(rt: &impl Abort, alloc: Global, pair: Pair) -> Pair {
    let Pair {
        first,
        second,
        below,
    } = pair;
    let first = member_again(rt, alloc, first);
    let second = member_again(rt, alloc, second);
    let mut pairs = Vec::new(alloc);
    add_slots(rt, &mut pairs, first.number, &first.set);
    add_slots(rt, &mut pairs, second.number, &second.set);
    let Below {
        master,
        image,
        over,
    } = below;
    let over = over_again(rt, alloc, over, &pairs);
    Pair {
        first,
        second,
        below: Below {
            master,
            image,
            over,
        },
    }
}

// Blocks of the master or of a shadow are written.
fn write_step(
    rt: &impl Abort,
    alloc: Global,
    (one, two): (&mut Member, &mut Member),
    below: &mut Below,
    step: Step,
) -> End {
    let other = two.plain.beyond();
    match step {
        Step::Master(at, count, byte) => {
            let bytes = room(rt, alloc, count, byte);
            write_master(rt, (one, two), below, (at, count, byte), &bytes)
        }
        Step::Shadow(_, at, count, byte) => {
            let bytes = room(rt, alloc, count, byte);
            write_shadow(rt, one, below, (at, count, byte), (&bytes, false), other)
        }
        Step::Puts(_, at, count, byte) => {
            let bytes = room(rt, alloc, count, byte);
            write_shadow(rt, one, below, (at, count, byte), (&bytes, true), other)
        }
        _ => End::Done,
    }
}

fn act(
    rt: &impl Abort,
    alloc: Global,
    (one, two): (&mut Member, &mut Member),
    below: &mut Below,
    step: Step,
) -> End {
    match step {
        Step::Master(..) => write_step(rt, alloc, (one, two), below, step),
        Step::Shadow(..) | Step::Puts(..) | Step::Saves(..) if one.plain.is_offline => End::Done,
        Step::Shadow(..) | Step::Puts(..) => write_step(rt, alloc, (one, two), below, step),
        Step::Saves(_, first, end) => saves(rt, one, below, (first, end), two.plain.beyond()),
        Step::Copy(_) => copy_step(rt, one, below),
        Step::Bring(_, chunk) => bring_step(rt, one, below, chunk),
        Step::Renew(..) | Step::Restore(..) | Step::Aside(..) => {
            update(rt, (one, two), below, step)
        }
        Step::Away(_, is_away) => {
            one.plain.is_away = is_away;
            End::Done
        }
        Step::Tear(spot, skip, from, count) => {
            arm_at(rt, one, below, spot, Tear { skip, from, count })
        }
    }
}

// The shadow's disk of a set, where it is to be elsewhere.
fn leave(one: &mut Member) -> Option<MemDisk> {
    if one.plain.is_away {
        return take_shadow(&mut one.set);
    }
    None
}

// A step is done while the shadows' disks are elsewhere that are to be.
fn act_away(
    rt: &impl Abort,
    alloc: Global,
    (one, two): (&mut Member, &mut Member),
    below: &mut Below,
    step: Step,
) -> End {
    let (shadow, other) = (leave(one), leave(two));
    let end = act(rt, alloc, (one, two), below, step);
    give_shadow(rt, &mut one.set, shadow);
    give_shadow(rt, &mut two.set, other);
    end
}

// A step, with the set first of which it is.
fn act_on(rt: &impl Abort, alloc: Global, pair: &mut Pair, step: Step) -> End {
    let Pair {
        first,
        second,
        below,
    } = pair;
    match who_of(step) {
        Who::First => act_away(rt, alloc, (first, second), below, step),
        Who::Second => act_away(rt, alloc, (second, first), below, step),
    }
}

fn adopt_on(rt: &impl Abort, pair: &mut Pair, step: Step, out: &mut [u8]) {
    let Pair {
        first,
        second,
        below,
    } = pair;
    match who_of(step) {
        Who::First => adopt(rt, (first, second), below, step, out),
        Who::Second => adopt(rt, (second, first), below, step, out),
    }
}

fn offline(pair: &Pair) -> u32 {
    let both = [pair.first.plain.is_offline, pair.second.plain.is_offline];
    both.iter().filter(|is_offline| **is_offline).count() as u32
}

/// How often a step was stopped, and a set went offline.
#[derive(Clone, Copy)]
pub struct Tally {
    pub stops: u32,
    pub offline: u32,
}

/// Plays steps on two new sets. After each step their lists and slots are compared with the definitions; all images are
/// after every eighth one, after the last one, and after each that stops or where all goes down: then the sets and the
/// overflow volume are found again on their disks.
pub fn play(rt: &impl Abort, alloc: Global, kinds: (Kind, Kind), steps: &[Step]) -> Tally {
    let mut pair = new_pair(rt, alloc, kinds);
    let mut out = room(rt, alloc, BLOCKS, 0);
    let mut tally = Tally {
        stops: 0,
        offline: 0,
    };
    let mut left = steps.len();
    for &step in steps {
        left = left.saturating_sub(1);
        let before = offline(&pair);
        let end = act_on(rt, alloc, &mut pair, step);
        let is_down = matches!(end, End::Stopped | End::Down);
        if is_down {
            pair = found_again(rt, alloc, pair);
        }
        if end == End::Stopped {
            adopt_on(rt, &mut pair, step, &mut out);
            tally.stops = tally.stops.saturating_add(1);
        }
        check_on(rt, &mut pair, is_down || left % 8 == 0, &mut out);
        if offline(&pair) > before {
            tally.offline = tally.offline.saturating_add(1);
        }
    }
    tally
}

fn check_on(rt: &impl Abort, pair: &mut Pair, with_images: bool, out: &mut [u8]) {
    let Pair {
        first,
        second,
        below,
    } = pair;
    check(rt, (first, second), below);
    if with_images {
        check_images(rt, (first, second), below, out);
    }
}
