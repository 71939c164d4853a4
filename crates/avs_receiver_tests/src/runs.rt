// Random calls against the definitions.

use crate::disks::same;
use crate::play::{new_run, step};
use avs_model::Host;
use avs_receiver_plain::draws::any_step;
use std::alloc::Global;
use std::process::Abort;

// 2,000 random steps, of which many stop.
fn random_calls(rt: &impl Abort, alloc: Global, host: Host, mut seed: u64) {
    let mut run = new_run(rt, alloc, host);
    for _ in 0..2_000 {
        let next = any_step(&mut seed, &run.plain);
        run = step(rt, alloc, run, next);
    }
    same(rt, run.stops > 30, true);
    same(rt, run.plain.number > 50, true);
}

#[test]
fn on_the_secondary(rt: HostRuntime) {
    random_calls(&rt, rt.alloc(), Host::S, 1);
}

#[test]
fn on_the_secondary_again(rt: HostRuntime) {
    random_calls(&rt, rt.alloc(), Host::S, 2);
}

#[test]
fn on_the_primary(rt: HostRuntime) {
    random_calls(&rt, rt.alloc(), Host::P, 3);
}
