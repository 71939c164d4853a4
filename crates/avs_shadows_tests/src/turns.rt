// A stop at each device write of what is staged, copied ahead and turned.

use crate::stops::{
    COMPACT, COMPACT_IND, DEP_IND, IND_DEP, Kinds, NONE, Writes, each_stop, each_stops, plays,
};
use Call::{Ahead, Both, Copied, Staged};
use Commit::{Kept, Lost, Turned};
use Who::{First, Second};
use avs_shadows::plain::List;
use avs_shadows::steps::{Call, Commit, Step, Who};
use std::alloc::Global;
use std::process::Abort;

const BEFORE: Step = Step::Shadow(First, 60, 10, 0x22);

const ONE: Step = Step::Shadow(First, 70, 1, 0x22);

const ENDS: List = [true, false, true, false];

const ALL: List = [true; 4];

#[test]
fn what_is_staged_aside_is_not_seen(rt: HostRuntime) {
    let due = Step::Copy(First);
    for (call, writes) in [
        (Ahead, [0, 1, 0, 0, 0, 0]),
        (Copied, [0, 1, 0, 0, 0, 0]),
        (Staged, [0, 0, 1, 0, 0, 0]),
        (Both, [0, 1, 1, 0, 0, 0]),
    ] {
        let steps = [due, ONE, Step::Aside(First, call, ENDS)];
        each_stop(&rt, rt.alloc(), IND_DEP, &steps, writes);
    }
    let steps = [ONE, Step::Aside(First, Both, ALL)];
    each_stop(&rt, rt.alloc(), DEP_IND, &steps, [0, 3, 1, 0, 0, 0]);
}

// Copies ahead take own slots first, then those of the overflow volume, to its last one.
#[test]
fn what_a_compact_set_stages_aside_is_not_seen(rt: HostRuntime) {
    let (two, three) = (
        Step::Shadow(First, 0, 128, 0x22),
        Step::Shadow(First, 0, 192, 0x22),
    );
    let cases: [(&[Step], Writes); 8] = [
        (&[Step::Aside(First, Copied, ENDS)], [0, 1, 0, 0, 0, 1]),
        (&[ONE, Step::Aside(First, Ahead, ENDS)], [0, 0, 0, 0, 0, 2]),
        (&[ONE, Step::Aside(First, Copied, ENDS)], [0, 0, 0, 0, 0, 2]),
        (&[ONE, Step::Aside(First, Staged, ENDS)], [0, 0, 1, 0, 0, 0]),
        (&[ONE, Step::Aside(First, Both, ALL)], [0, 0, 1, 0, 0, 3]),
        (&[Step::Aside(First, Both, ENDS)], [0, 1, 1, 0, 0, 1]),
        (&[two, Step::Aside(Second, Both, ALL)], [0, 0, 0, 2, 1, 2]),
        (&[three, Step::Aside(Second, Both, ALL)], NONE),
    ];
    each_stops(&rt, rt.alloc(), COMPACT, &cases);
}

// An update is stopped at each write, and done again to the end. All goes down too before its commit, and between the commit
// and the turn.
fn updates(
    rt: &impl Abort,
    alloc: Global,
    kinds: Kinds,
    (one, two): (Step, Step),
    [turned, lost, kept]: [Step; 3],
    writes: Writes,
) {
    each_stop(rt, alloc, kinds, &[one, two, turned], writes);
    plays(rt, alloc, kinds, &[one, two, lost, one, turned]);
    plays(rt, alloc, kinds, &[one, two, kept, one, turned]);
}

fn renewal(whole: bool) -> [Step; 3] {
    [Turned, Lost, Kept].map(|how| Step::Renew(First, whole, how))
}

fn restoration(who: Who) -> [Step; 3] {
    [Turned, Lost, Kept].map(|how| Step::Restore(who, how))
}

const ALSO: Step = Step::Master(198, 1, 0x33);

#[test]
fn updates_to_the_shadow_are_staged_alone(rt: HostRuntime) {
    let (before, writes) = ((BEFORE, ALSO), [0, 0, 1, 0, 0, 0]);
    for kinds in [DEP_IND, IND_DEP, COMPACT] {
        updates(&rt, rt.alloc(), kinds, before, renewal(false), writes);
        updates(&rt, rt.alloc(), kinds, before, renewal(true), writes);
    }
}

// The master becomes the shadow: the other set gets the chunks before that the master is to lose. Those of the second set are
// staged by one call, those of the first one by two.
#[test]
fn updates_to_the_master_give_the_other_set_its_chunks_first(rt: HostRuntime) {
    for (kinds, writes) in [
        (DEP_IND, [0, 0, 1, 2, 1, 0]),
        (IND_DEP, [0, 0, 1, 2, 1, 0]),
        (COMPACT_IND, [0, 0, 1, 2, 1, 0]),
        (COMPACT, [0, 0, 1, 1, 1, 1]),
    ] {
        let before = (BEFORE, ALSO);
        updates(&rt, rt.alloc(), kinds, before, restoration(First), writes);
    }
    for (kinds, writes) in [
        (DEP_IND, [0, 2, 1, 0, 1, 0]),
        (IND_DEP, [0, 2, 1, 0, 1, 0]),
        (COMPACT_IND, [0, 0, 1, 0, 1, 2]),
    ] {
        let before = (Step::Shadow(Second, 60, 10, 0x22), ALSO);
        updates(&rt, rt.alloc(), kinds, before, restoration(Second), writes);
    }
}

// Of two compact sets one has a slot of the overflow volume, and what is copied ahead for the other takes all others. Where
// one chunk more was written, there is no room for it.
#[test]
fn copies_ahead_take_the_last_slot(rt: HostRuntime) {
    let (three, four) = (
        Step::Shadow(Second, 0, 192, 0x22),
        Step::Shadow(Second, 1, 199, 0x33),
    );
    for (also, writes) in [(three, [0, 1, 1, 0, 1, 2]), (four, [0, 0, 0, 0, 1, 0])] {
        let before = (three, also);
        updates(
            &rt,
            rt.alloc(),
            COMPACT,
            before,
            restoration(Second),
            writes,
        );
    }
}

// The first set is independent, its chunk 1 is split, and the others are the same on both disks. Its shadow is away.
fn away_stop(rt: &impl Abort, alloc: Global, last: Step, writes: Writes) {
    let due = Step::Copy(First);
    let (also, away) = (Step::Shadow(Second, 0, 1, 0x33), Step::Away(First, true));
    each_stop(
        rt,
        alloc,
        IND_DEP,
        &[ONE, due, due, due, also, away, last],
        writes,
    );
}

#[test]
fn calls_without_the_shadow_write_states_alone(rt: HostRuntime) {
    for (last, writes) in [
        (Step::Saves(First, 2, 3), [0, 0, 1, 0, 0, 0]),
        (Step::Saves(First, 0, 4), [0, 0, 3, 0, 0, 0]),
        (Step::Master(0, 130, 0x44), [1, 0, 2, 2, 2, 0]),
        (Step::Aside(First, Copied, ENDS), NONE),
        (Step::Aside(First, Both, ENDS), [0, 0, 1, 0, 0, 0]),
        (Step::Renew(First, true, Turned), [0, 0, 1, 0, 0, 0]),
        (Step::Restore(First, Turned), [0, 0, 1, 1, 1, 0]),
        (Step::Restore(Second, Turned), [0, 0, 1, 0, 1, 0]),
    ] {
        away_stop(&rt, rt.alloc(), last, writes);
    }
}
