// Steps on a receiver, by the calls and by the definitions.

use crate::checks::{Looks, bits, check, images, new_looks, written};
use crate::disks::{Disks, apart, arm, block, load, new_disks, same};
use avs_code::get_land_header;
use avs_dev::{Tear, Why};
use avs_model::{Host, Refusal};
use avs_receiver_plain::calls::Half;
use avs_receiver_plain::errands::restoring;
use avs_receiver_plain::plain::{Image, Plain, VOLS};
use avs_receiver_plain::steps::{Came, Range, Spot, Step};
use avs_sync::{Note, get_note};
use std::alloc::Global;
use std::process::Abort;

/// A receiver, what it is to stand for, and how often a step was stopped.
#[derive(Drop)]
pub struct Run {
    pub half: Half,
    pub plain: Plain,
    pub stops: u32,
    pub looks: Looks,
    // The step that a device has stopped. It is to be found again.
    torn: Option<Step>,
}

/// A new one.
pub fn new_run(rt: &impl Abort, alloc: Global, host: Host) -> Run {
    run_on(rt, alloc, new_disks(rt, alloc, host), Plain::new(host))
}

/// One on these disks, which is to stand for this.
pub fn run_on(rt: &impl Abort, alloc: Global, disks: Disks, plain: Plain) -> Run {
    let mut run = Run {
        half: again(rt, alloc, disks).0,
        plain,
        stops: 0,
        looks: new_looks(rt, alloc),
        torn: None,
    };
    check(rt, alloc, &mut run.half, &mut run.looks, &run.plain);
    run
}

// It is found on these disks, behind so many stops. A load that is stopped hands back the disks of the same half.
fn again(rt: &impl Abort, alloc: Global, mut disks: Disks) -> (Half, u32) {
    for stops in 0..9 {
        match load(rt, alloc, disks) {
            Ok(half) => return (half, stops),
            Err((back, why)) => {
                same(rt, why, Why::Fault);
                disks = back;
            }
        }
    }
    panic!(rt; "it is found")
}

// The note that lies on the disks.
fn noted(rt: &impl Abort, disks: &mut Disks) -> Note {
    let block = block(rt, &mut disks.state, 1);
    let mut note = [0; 64];
    note.copy_from_slice(&block[400..464]);
    match get_note(&note) {
        Ok(note) => note,
        Err(_) => panic!(rt; "a note"),
    }
}

// The session and the place of what has landed.
fn landed(rt: &impl Abort, disks: &mut Disks) -> (u64, u64) {
    match get_land_header(&block(rt, &mut disks.land, 1)) {
        Ok(header) => (header.session, header.place),
        Err(_) => panic!(rt; "a header"),
    }
}

// What a half is found as behind a step that was stopped: it was asked, and a restored set has contents, exactly where the
// note says so, and a place was applied exactly where it has landed.
fn settled(rt: &impl Abort, plain: &Plain, torn: Option<Step>, disks: &mut Disks) -> Plain {
    match torn {
        Some(Step::Ask(session)) if noted(rt, disks).session == session => plain.asked(session),
        Some(Step::Restore(range)) => {
            let filled = plain.filled(range.set);
            let is_set = filled.note() != plain.note() && noted(rt, disks) == filled.note();
            if is_set {
                filled.with_bits(range)
            } else {
                *plain
            }
        }
        Some(Step::Apply(session, place, put)) if landed(rt, disks) == (session, place) => {
            plain.with_next(put)
        }
        _ => *plain,
    }
}

// Each block of a range is old or new.
fn mixed(rt: &impl Abort, old: &Image, found: &Image, range: Range) {
    for place in 0..72 {
        let now = found[place as usize];
        let is_in = range.at <= place && place - range.at < range.count;
        assert!(rt; now == old[place as usize] || is_in && now == range.byte);
    }
}

// A write that was stopped has all bits before a block, or no block.
fn torn_write(rt: &impl Abort, alloc: Global, run: &mut Run, range: Range) {
    let found = images(rt, &mut run.half, &mut run.looks);
    let due = bits(rt, alloc, &run.half);
    let all = run.plain.with_bits(range);
    if due == all.due {
        let set = range.set as usize % 2;
        mixed(rt, &run.plain.images[set], &found[set], range);
        run.plain = all;
        run.plain.images[set] = found[set];
    }
}

// A restoration that was stopped has all bits where the note is the one that it was to set, and then each block old or new. Where
// the set had contents before, that note says nothing new.
fn torn_restore(rt: &impl Abort, alloc: Global, run: &mut Run, range: Range) {
    let is_noted = run.plain.contents[range.set as usize % 2];
    torn_leave(rt, alloc, run, range);
    if is_noted {
        torn_write(rt, alloc, run, range);
    }
}

// One of which the note is the old one has some of the bits.
fn torn_leave(rt: &impl Abort, alloc: Global, run: &mut Run, range: Range) {
    let found = bits(rt, alloc, &run.half);
    let all = run.plain.with_bits(range).due;
    for set in 0..2 {
        for seg in 0..2 {
            assert!(rt; run.plain.due[set][seg] <= found[set][seg]);
            assert!(rt; found[set][seg] <= all[set][seg]);
        }
    }
    run.plain.due = found;
}

// It is taken apart, a tear is armed or none, and it is found again.
fn found(rt: &impl Abort, alloc: Global, run: Run, tear: Option<(Spot, Tear)>) -> Run {
    let Run {
        half,
        plain,
        stops,
        looks,
        torn,
    } = run;
    let mut disks = apart(rt, half.into_parts());
    if let Some((spot, tear)) = tear {
        arm(rt, &mut disks, spot, tear);
    }
    let plain = settled(rt, &plain, torn, &mut disks).left();
    let (half, more) = again(rt, alloc, disks);
    let mut run = Run {
        half,
        plain,
        stops: stops.saturating_add(more),
        looks,
        torn: None,
    };
    match torn {
        Some(Step::Write(range)) => torn_write(rt, alloc, &mut run, range),
        Some(Step::Restore(range)) => torn_restore(rt, alloc, &mut run, range),
        Some(Step::Leave(range)) => torn_leave(rt, alloc, &mut run, range),
        _ => {}
    }
    check(rt, alloc, &mut run.half, &mut run.looks, &run.plain);
    run
}

// The errand runs once where it is done, with a note in which its set has contents.
fn restore(rt: &impl Abort, alloc: Global, run: &mut Run, range: Range, is_idle: bool) -> Came {
    assert!(rt; range.count <= 64);
    let vol = VOLS[range.set as usize % 2];
    let mut errand = restoring(alloc, vol, range, is_idle).expect(rt, "memory");
    let came = run.half.restore(alloc, range, &mut errand);
    if came == Came::Done {
        same(rt, errand.runs, 1);
        match get_note(&errand.given) {
            Ok(note) => same(rt, note, run.plain.filled(range.set).note()),
            Err(_) => panic!(rt; "a note"),
        }
    }
    if matches!(came, Came::Refused(Refusal::WrongState(_))) {
        same(rt, errand.runs, 0);
    }
    came
}

fn act(rt: &impl Abort, alloc: Global, run: &mut Run, step: Step) -> Came {
    let half = &mut run.half;
    match step {
        Step::Ask(session) => half.ask(session),
        Step::Apply(session, place, put) => half.apply(alloc, session, place, put),
        Step::Log => half.log(),
        Step::Write(range) => half.write(alloc, range),
        Step::Restore(range) => restore(rt, alloc, run, range, false),
        Step::Leave(range) => restore(rt, alloc, run, range, true),
        Step::Load | Step::Tear(..) => Came::Barred,
    }
}

// A call, which a device may stop. One that is refused, or has nothing to do, writes nothing.
fn call(rt: &impl Abort, alloc: Global, run: &mut Run, step: Step) {
    let before = written(rt, &mut run.half, &mut run.looks);
    let (want, next) = run.plain.after(step);
    let came = act(rt, alloc, run, step);
    if came == Came::Refused(Refusal::Fault) {
        run.stops = run.stops.saturating_add(1);
        run.torn = Some(step);
        return;
    }
    same(rt, (step, came), (step, want));
    if matches!(came, Came::Refused(_)) || came == Came::Applied(run.plain.applied) {
        same(rt, written(rt, &mut run.half, &mut run.looks), before);
    }
    run.plain = next;
    check(rt, alloc, &mut run.half, &mut run.looks, &run.plain);
}

/// A step. One that was stopped before is behind it, as the disks say.
pub fn step(rt: &impl Abort, alloc: Global, run: Run, step: Step) -> Run {
    match step {
        Step::Load => found(rt, alloc, run, None),
        Step::Tear(spot, skip, from, count) => {
            found(rt, alloc, run, Some((spot, Tear { skip, from, count })))
        }
        _ => {
            let mut run = if run.torn.is_some() {
                found(rt, alloc, run, None)
            } else {
                run
            };
            call(rt, alloc, &mut run, step);
            run
        }
    }
}

/// Steps, one after another. At the end it is found again.
pub fn play(rt: &impl Abort, alloc: Global, mut run: Run, steps: &[Step]) -> Run {
    for &one in steps {
        run = step(rt, alloc, run, one);
    }
    step(rt, alloc, run, Step::Load)
}
