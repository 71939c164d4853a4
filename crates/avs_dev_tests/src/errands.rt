// An errand that is run on volumes, and laws at types that there are.
use crate::helpers::{fresh, put, same};
use avs_dev::{Below, Errand, calls_follow_calls, disks_stay_beside_one};
use avs_seg::{
    BLOCK, Failed, Staged, stages_are_stopped, stages_follow_stages, stages_within_others,
};

/// Looks at the first block of the first volume, where there is one.
#[derive(Drop)]
struct FirstBlock {
    found: bool,
    block: [u8; BLOCK],
}

impl<B: Below> Errand<B> for FirstBlock {
    ghost use Rattle.std.specs.Prelude.{◌≡◌};
    ghost use Rattle.avs_dev_tests.specs.Errands.{LooksAround};

    ghost ran = { λ _ below _ _ _ below_new. LooksAround (B.seen below) (B.seen below_new) × (B.rest below_new ≡ B.rest below) };

    fn run(&mut self, below: &mut B, _note: &[u8; 64]) -> Result<(), Failed> {
        if below.count() == 0 || below.size(0) == 0 {
            return Ok(());
        }
        below.read(0, 0, &mut self.block)?;
        self.found = true;
        Ok(())
    }
}

// What an errand finds below.
fn run<B: Below>(below: &mut B) -> Result<Option<u8>, Failed> {
    let mut errand = FirstBlock {
        found: false,
        block: [0; BLOCK],
    };
    let note = below.note();
    errand.run(below, &note)?;
    Ok(errand.found.then_some(errand.block[BLOCK - 1]))
}

#[test]
fn an_errand_looks_at_what_is_below(rt: HostRuntime) {
    let alloc = rt.alloc();
    let mut bare = fresh(&rt, alloc, &[]);
    same(&rt, run(&mut bare), Ok(Some(0)));
    same(&rt, put(&rt, alloc, &mut bare, 0, 0, &[7]), true);
    same(&rt, run(&mut bare), Ok(Some(7)));
}

/// Numbers that are added one by one. No addition stops in its midst.
struct Adding;

impl Staged for Adding {
    ghost use Rattle.std.specs.Prelude.{ℕ, ◌+◌, ◌≡◌};

    ghost State = { ℕ };

    ghost Stage = { ℕ };

    ghost does = { record { after = λ sum n. sum + n; In = λ sum n new. new ≡ sum } };
}

#[test]
fn laws_are_called_at_types_that_there_are(_rt: HostRuntime) {
    stages_are_stopped::<Adding>();
    stages_follow_stages::<Adding>();
    stages_within_others::<Adding, Adding>();
    calls_follow_calls::<u8, (), Failed, (), Failed>();
    disks_stay_beside_one::<u8, (), Failed>();
}
