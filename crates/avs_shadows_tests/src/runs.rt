// Random calls against the definitions.

use crate::pairs::play;
use avs_model::Kind;
use avs_shadows::draws::any_step;
use avs_shadows::steps::Step;
use std::alloc::Global;
use std::process::Abort;

fn any_steps(rt: &impl Abort, alloc: Global, mut seed: u64) -> Vec<Step> {
    let mut steps = Vec::new(alloc);
    for _ in 0..2_000 {
        steps.push(any_step(&mut seed)).expect(rt, "memory");
    }
    steps
}

// 2,000 random steps, of which many stop, and put a compact set offline.
fn random_calls(rt: &impl Abort, alloc: Global, kinds: (Kind, Kind), seed: u64) {
    let tally = play(rt, alloc, kinds, &any_steps(rt, alloc, seed));
    assert!(rt; tally.stops > 50);
    assert!(rt; tally.offline > 15 || kinds != (Kind::Compact, Kind::Compact));
}

#[test]
fn dependent_beside_independent(rt: HostRuntime) {
    random_calls(&rt, rt.alloc(), (Kind::Dep, Kind::Ind), 1);
}

#[test]
fn independent_beside_dependent(rt: HostRuntime) {
    random_calls(&rt, rt.alloc(), (Kind::Ind, Kind::Dep), 2);
}

#[test]
fn two_independent(rt: HostRuntime) {
    random_calls(&rt, rt.alloc(), (Kind::Ind, Kind::Ind), 3);
}

#[test]
fn two_dependent(rt: HostRuntime) {
    random_calls(&rt, rt.alloc(), (Kind::Dep, Kind::Dep), 4);
}

#[test]
fn two_compact(rt: HostRuntime) {
    random_calls(&rt, rt.alloc(), (Kind::Compact, Kind::Compact), 1);
}

#[test]
fn two_compact_again(rt: HostRuntime) {
    random_calls(&rt, rt.alloc(), (Kind::Compact, Kind::Compact), 2);
}

#[test]
fn two_compact_once_more(rt: HostRuntime) {
    random_calls(&rt, rt.alloc(), (Kind::Compact, Kind::Compact), 3);
}

#[test]
fn compact_beside_independent(rt: HostRuntime) {
    random_calls(&rt, rt.alloc(), (Kind::Compact, Kind::Ind), 5);
}

#[test]
fn dependent_beside_compact(rt: HostRuntime) {
    random_calls(&rt, rt.alloc(), (Kind::Dep, Kind::Compact), 6);
}
