// Random calls against the definitions, and after each of them all that lies on the disks.

use crate::answers::check_answers;
use crate::lies::same;
use crate::plays::{
    LIMITS, Played, act, after_stop, check_disks, disks_of, found, is_stopped, just_found,
    new_disks,
};
use avs_dev::Tear;
use avs_model::{Host, Refusal};
use avs_sender_plain::calls::{Call, Came, Spot};
use avs_sender_plain::disks::{Disks, Harm};
use avs_sender_plain::draws::{Stop, any_call, any_stop};
use avs_sender_plain::plain::{NO_WRITES, Plain, Writes};
use avs_sender_plain::rig::Rig;
use std::alloc::Global;
use std::process::Abort;

// The disks on which a sender was found last, the calls since then, and what it stands for.
#[derive(Drop)]
struct Run {
    base: Disks,
    since: Vec<Call>,
    plain: Plain,
}

// How often calls stopped, and gave a place, a copy and the mark; how often the mark became known, and a queue was full.
#[derive(Clone, Copy, Debug)]
struct Tally {
    stops: u32,
    places: u32,
    marks: u32,
    full: u32,
}

// The tear on a disk below is armed before the sender is found.
fn harm_of(stop: &Stop, writes: &Writes) -> Harm {
    let done = match stop.spot {
        Spot::State => writes.notes,
        Spot::Volume(0) => writes.volumes[0],
        Spot::Volume(_) => writes.volumes[1],
        Spot::Bits(_) | Spot::Land => return Harm::None,
    };
    let tear = Tear {
        skip: done,
        from: stop.from,
        count: stop.count,
    };
    Harm::Tear(stop.spot, tear)
}

// One on the disk of bits is armed before the call.
fn arm(rt: &impl Abort, rig: &mut Rig, stop: &Stop) {
    if let Spot::Bits(set) = stop.spot {
        let tear = Tear {
            skip: stop.skip,
            from: stop.from,
            count: stop.count,
        };
        assert!(rt; rig.arm(set, tear));
    }
}

// All calls since the sender was found, once more on other disks.
fn replayed(rt: &impl Abort, alloc: Global, run: &mut Run, stop: Option<Stop>) -> Rig {
    let harm = match &stop {
        Some(stop) => harm_of(stop, &run.plain.writes),
        None => Harm::None,
    };
    let disks = run.base.copy(alloc, harm).expect(rt, "disks");
    let mut rig = found(rt, alloc, run.plain.host, disks);
    for call in run.since.as_slice() {
        rig.act(alloc, *call);
    }
    if let Some(stop) = &stop {
        arm(rt, &mut rig, stop);
    }
    rig
}

// Where a disk was to fail at its next write, none was made.
fn is_spared(stop: &Stop, before: &Writes, after: &Writes) -> bool {
    match stop.spot {
        Spot::State => before.notes == after.notes,
        Spot::Volume(0) => before.volumes[0] == after.volumes[0],
        Spot::Volume(_) => before.volumes[1] == after.volumes[1],
        Spot::Bits(_) | Spot::Land => true,
    }
}

// The sender goes on from these disks, on which it is found.
fn based(alloc: Global, disks: Disks, mut plain: Plain) -> Run {
    plain.writes = NO_WRITES;
    Run {
        base: disks,
        since: Vec::new(alloc),
        plain,
    }
}

// The call was done: all that lies on the disks is compared.
fn went_on(
    rt: &impl Abort,
    alloc: Global,
    one: Played,
    (base, mut since): (Disks, Vec<Call>),
    call: Call,
) -> Run {
    let Played { rig, plain, .. } = one;
    let mut disks = disks_of(rt, rig);
    check_disks(rt, alloc, &mut disks, &plain);
    if matches!(call, Call::Crash) {
        return based(alloc, disks, plain);
    }
    since.push(call).expect(rt, "memory");
    Run { base, since, plain }
}

fn stopped(rt: &impl Abort, alloc: Global, one: Played, call: Call) -> Run {
    let Played { rig, plain, .. } = one;
    let disks = disks_of(rt, rig);
    let Played { rig, plain, .. } = after_stop(rt, alloc, disks, plain, call);
    based(alloc, disks_of(rt, rig), plain)
}

fn run_step(
    rt: &impl Abort,
    alloc: Global,
    mut run: Run,
    call: Call,
    stop: Option<Stop>,
) -> (Run, Came) {
    let rig = replayed(rt, alloc, &mut run, stop);
    let Run { base, since, plain } = run;
    let before = plain.writes;
    let mut one = act(rt, alloc, just_found(rig, plain), call);
    let came = one.came;
    if is_stopped(&one) {
        assert!(rt; stop.is_some());
        return (stopped(rt, alloc, one, call), came);
    }
    same(rt, Ok(came), one.plain.act(&call));
    check_answers(rt, alloc, &one.rig, &one.plain);
    if let Some(stop) = &stop {
        assert!(rt; is_spared(stop, &before, &one.plain.writes));
    }
    (went_on(rt, alloc, one, (base, since), call), came)
}

fn count(tally: &mut Tally, came: Came) {
    let row = match came {
        Came::Refused(Refusal::Fault) => &mut tally.stops,
        Came::Refused(Refusal::QueueFull { .. }) => &mut tally.full,
        Came::Place(_) => &mut tally.places,
        Came::Marked(_) => &mut tally.marks,
        _ => return,
    };
    *row = row.saturating_add(1);
}

// 5,000 calls. After 30 of them all goes down.
fn random_calls(rt: &impl Abort, alloc: Global, host: Host, mut seed: u64) -> Tally {
    let disks = new_disks(rt, alloc);
    let mut run = based(alloc, disks, Plain::new(alloc, host, LIMITS));
    let mut tally = Tally {
        stops: 0,
        places: 0,
        marks: 0,
        full: 0,
    };
    for _ in 0..5_000 {
        let call = if run.since.len() < 30 {
            any_call(&mut seed, &run.plain)
        } else {
            Call::Crash
        };
        let (then, came) = run_step(rt, alloc, run, call, any_stop(&mut seed));
        run = then;
        count(&mut tally, came);
    }
    tally
}

// All that may come came often enough.
fn is_full(tally: &Tally) -> bool {
    tally.stops > 60 && tally.places > 800 && tally.marks > 40 && tally.full > 100
}

#[test]
fn random_calls_once(rt: HostRuntime) {
    let tally = random_calls(&rt, rt.alloc(), Host::P, 1);
    assert!(rt; is_full(&tally), "{tally:?}");
}

#[test]
fn random_calls_again(rt: HostRuntime) {
    let tally = random_calls(&rt, rt.alloc(), Host::S, 2);
    assert!(rt; is_full(&tally), "{tally:?}");
}

#[test]
fn random_calls_once_more(rt: HostRuntime) {
    let tally = random_calls(&rt, rt.alloc(), Host::P, 3);
    assert!(rt; is_full(&tally), "{tally:?}");
}
