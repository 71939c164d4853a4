// The disks by their numbers, the blocks that each call writes, and errands.

use crate::checks::{check, written};
use crate::disks::{new_disks, same};
use crate::play::{Run, new_run, play, run_on, step};
use Put::{Copy, Mark};
use Step::{Apply, Ask, Leave, Load, Log, Restore, Write};
use avs_dev::{Arm, Tear};
use avs_model::Host;
use avs_receiver_plain::errands::Scribble;
use avs_receiver_plain::plain::Plain;
use avs_receiver_plain::steps::{Put, Step, of};
use avs_seg::Failed;
use std::alloc::Global;
use std::process::Abort;

const NOW: Tear = Tear {
    skip: 0,
    from: 0,
    count: 0,
};

// Blocks written on the state disk, on the volumes of the second set, of none and of the first one, on the bitmaps, on the
// queue and on the landing volume.
fn more(rt: &impl Abort, old: [Option<u64>; 8], new: [Option<u64>; 8], want: [u64; 8]) {
    for place in 0..8 {
        let sum = old[place].map(|old| old.saturating_add(want[place]));
        same(rt, (place, new[place]), (place, sum));
    }
}

#[test]
fn each_step_writes_its_blocks(rt: HostRuntime) {
    let alloc = rt.alloc();
    let mut run = new_run(&rt, alloc, Host::S);
    for (one, want) in [
        (Write(of(0, 60, 9, 0x11)), [0, 0, 0, 9, 1, 0, 0, 0]),
        (Write(of(0, 63, 2, 0x11)), [0, 0, 0, 2, 0, 0, 0, 0]),
        (Ask(1), [1, 0, 0, 0, 0, 0, 0, 0]),
        (
            Apply(1, 1, Copy(of(0, 0, 64, 0x22))),
            [0, 0, 0, 64, 0, 0, 0, 65],
        ),
        (
            Apply(1, 2, Put::Write(of(1, 1, 4, 0x33))),
            [0, 4, 0, 0, 0, 0, 0, 5],
        ),
        (Apply(1, 2, Put::Write(of(1, 1, 4, 0x44))), [0; 8]),
        (Apply(1, 3, Mark), [1, 0, 0, 0, 1, 0, 0, 1]),
        (Apply(1, 3, Mark), [0; 8]),
        (Log, [1, 0, 0, 0, 0, 0, 0, 0]),
        (Log, [0; 8]),
        (Write(of(1, 0, 6, 0x55)), [0, 6, 0, 0, 0, 1, 0, 0]),
        (Load, [0; 8]),
        (Restore(of(0, 62, 4, 0x66)), [1, 0, 0, 4, 2, 0, 0, 0]),
        (Leave(of(0, 62, 4, 0x77)), [0; 8]),
        (Ask(2), [1, 0, 0, 0, 0, 0, 0, 0]),
        (Restore(of(0, 62, 4, 0x77)), [0; 8]),
        (Load, [1, 0, 0, 0, 0, 0, 0, 0]),
    ] {
        let before = blocks(&rt, &mut run);
        run = step(&rt, alloc, run, one);
        more(&rt, before, blocks(&rt, &mut run), want);
    }
}

fn blocks(rt: &impl Abort, run: &mut Run) -> [Option<u64>; 8] {
    written(rt, &mut run.half, &mut run.looks)
}

// A tear on a disk of a number stops the next call that writes there.
fn armed(rt: &impl Abort, alloc: Global, number: u32, before: &[Step], last: Step) {
    let mut run = new_run(rt, alloc, Host::P);
    for &one in before {
        run = step(rt, alloc, run, one);
    }
    same(rt, run.half.arm(number, NOW), true);
    run = step(rt, alloc, run, last);
    same(rt, run.stops, 1);
    same(rt, play(rt, alloc, run, &[]).stops, 1);
}

#[test]
fn disks_have_their_numbers(rt: HostRuntime) {
    let alloc = rt.alloc();
    armed(&rt, alloc, 0, &[], Write(of(0, 0, 1, 0x11)));
    armed(&rt, alloc, 1, &[], Write(of(1, 0, 1, 0x11)));
    armed(&rt, alloc, 3, &[Ask(1)], Apply(1, 1, Mark));
    let mut run = new_run(&rt, alloc, Host::P);
    same(
        &rt,
        [run.half.written(2), run.half.written(4)],
        [Some(0), None],
    );
    same(
        &rt,
        [run.half.arm(2, NOW), run.half.arm(4, NOW)],
        [true, false],
    );
    run = play(
        &rt,
        alloc,
        run,
        &[Ask(1), Apply(1, 1, Copy(of(1, 0, 6, 0x11))), Log],
    );
    same(&rt, run.stops, 0);
}

fn scribble(run: &mut Run, byte: u8) -> Result<(), Failed> {
    let mut errand = Scribble { at: 2, byte };
    run.half.scribble(&mut errand)
}

fn same_half(rt: &impl Abort, alloc: Global, run: &mut Run) {
    check(rt, alloc, &mut run.half, &mut run.looks, &run.plain);
}

// An errand writes the spare volume, in a session and in none. The second time a disk fails below, which changes nothing.
#[test]
fn an_errand_leaves_the_half_as_it_is(rt: HostRuntime) {
    let alloc = rt.alloc();
    let mut disks = new_disks(&rt, alloc, Host::S);
    assert!(rt;
        disks.spare.arm(Tear {
            skip: 1,
            from: 0,
            count: 1
        })
    );
    let mut run = run_on(&rt, alloc, disks, Plain::new(Host::S));
    same(&rt, scribble(&mut run, 0x66), Ok(()));
    same_half(&rt, alloc, &mut run);
    run = step(&rt, alloc, run, Ask(1));
    run = step(&rt, alloc, run, Apply(1, 1, Put::Write(of(0, 2, 1, 0x11))));
    same(&rt, scribble(&mut run, 0x77), Err(Failed));
    same_half(&rt, alloc, &mut run);
    run = step(&rt, alloc, run, Apply(1, 2, Mark));
    same(&rt, play(&rt, alloc, run, &[Ask(2)]).stops, 0);
}
