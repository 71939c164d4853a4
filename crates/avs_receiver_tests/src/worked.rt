// Worked values, over one volume of 64 blocks.
ghost use Rattle.std.specs.Prelude.{◌≡◌, ◌∷◌, []};
ghost use Rattle.avs_dev.specs.Bare.{below_of};
ghost use Rattle.avs_halves.specs.Over.{AreLoadable};
ghost use Rattle.avs_receiver_plain.specs.Sized.{AreOne, ArePartsSized, IsOne};

use crate::disks::{bitmap, disk, landing, opened, same};
use Came::{Applied, Done, Refused};
use Step::{Apply, Ask, Log, Write};
use avs_dev::{Bare, Below, MemDisk, Tear};
use avs_model::{Host, Refusal, State, Word};
use avs_receiver_plain::calls::{Half, Parts};
use avs_receiver_plain::steps::{Came, Put, Range, Step, of};
use avs_sync::{HalfParts, HalfSet, HalfSets};
use std::alloc::Global;
use std::process::Abort;

fn volume(rt: &impl Abort, alloc: Global) -> Bare<MemDisk>
    ensures { IsOne 64 (below_of result) }
{
    let mut bare = opened(rt, alloc, disk(rt, alloc, 2));
    assert!(rt; bare.add(disk(rt, alloc, 64)).is_ok());
    assert!(rt; bare.count() == 1);
    assert!(rt; bare.size(0) == 64);
    bare
}

fn set(rt: &impl Abort, alloc: Global) -> HalfSets<MemDisk>
    ensures { AreOne result }
{
    let one = HalfSet {
        vol: 0,
        slot: 0,
        bits: bitmap(rt, alloc, 64),
    };
    HalfSets::new(Vec::from_array(alloc, [one]).expect(rt, "memory"))
}

fn parts(rt: &impl Abort, alloc: Global) -> Parts
    ensures loadable { AreLoadable (below_of result.below) result.sets }
    ensures sized { ArePartsSized (64 ∷ []) (0 ∷ []) (below_of result.below) result.sets }
{
    HalfParts {
        host: Host::S,
        below: volume(rt, alloc),
        sets: set(rt, alloc),
        queue: None,
        land: landing(rt, alloc),
    }
}

fn half(rt: &impl Abort, alloc: Global) -> Half {
    let sizes = Vec::from_array(alloc, [64]).expect(rt, "memory");
    let vols = Vec::from_array(alloc, [0]).expect(rt, "memory");
    match Half::load(alloc, parts(rt, alloc), sizes, vols) {
        Ok(half) => half,
        Err(_) => panic!(rt; "a receiver"),
    }
}

fn plays(rt: &impl Abort, alloc: Global, half: &mut Half, steps: &[(Step, Came)]) {
    for &(step, want) in steps {
        let came = match step {
            Ask(session) => half.ask(session),
            Apply(session, place, put) => half.apply(alloc, session, place, put),
            Log => half.log(),
            Write(range) => half.write(alloc, range),
            _ => Came::Barred,
        };
        same(rt, (step, came), (step, want));
    }
}

fn due(rt: &impl Abort, alloc: Global, half: &Half, want: &[u32]) {
    match half.bits(alloc, 0) {
        Some(Ok(found)) => assert!(rt; found.as_slice() == want),
        _ => panic!(rt; "the bits"),
    }
}

const COPY: Put = Put::Copy(Range {
    set: 0,
    at: 0,
    count: 64,
    byte: 0x11,
});

const PUT: Put = Put::Write(Range {
    set: 0,
    at: 3,
    count: 1,
    byte: 0x22,
});

#[test]
fn a_session_goes_its_way(rt: HostRuntime) {
    let alloc = rt.alloc();
    let mut half = half(&rt, alloc);
    let early = Refused(Refusal::Early { next: 3 });
    let other = Refused(Refusal::Stale { ours: 1, theirs: 2 });
    let again = Refused(Refusal::Stale { ours: 1, theirs: 1 });
    let steps = [
        (Ask(1), Done),
        (Apply(1, 1, COPY), Applied(1)),
        (Apply(1, 2, Put::Mark), Applied(2)),
    ];
    plays(&rt, alloc, &mut half, &steps);
    same(&rt, half.stand(), (2, State::Replicating));
    let steps = [
        (Apply(1, 4, PUT), early),
        (Apply(1, 2, Put::Mark), Applied(2)),
        (Apply(2, 3, PUT), other),
        (Ask(1), again),
    ];
    plays(&rt, alloc, &mut half, &steps);
    same(&rt, half.stand(), (2, State::Replicating));
    due(&rt, alloc, &half, &[]);
}

// Before the mark there are no contents, in a session it is not written, and the bits of its own writes go at the mark.
#[test]
fn refusals_at_their_edges(rt: HostRuntime) {
    let alloc = rt.alloc();
    let mut half = half(&rt, alloc);
    let local = Write(of(0, 63, 1, 0x33));
    let away = Refused(Refusal::WrongState(Word::Logging));
    let steps = [
        (local, Done),
        (Apply(0, 1, PUT), away),
        (Ask(0), Refused(Refusal::Stale { ours: 0, theirs: 0 })),
        (Ask(1), Done),
        (local, Refused(Refusal::WrongState(Word::Receiving))),
        (Apply(1, 2, PUT), Refused(Refusal::Early { next: 1 })),
        (Apply(1, 0, PUT), Applied(0)),
        (
            Apply(0, 1, PUT),
            Refused(Refusal::Stale { ours: 1, theirs: 0 }),
        ),
        (Log, Done),
        (Log, Done),
        (local, Refused(Refusal::NoContents)),
        (Apply(1, 1, PUT), away),
    ];
    plays(&rt, alloc, &mut half, &steps);
    due(&rt, alloc, &half, &[0]);
    let steps = [
        (Ask(1 << 62), Done),
        (Apply(1 << 62, 1, Put::Mark), Applied(1)),
        (local, Refused(Refusal::WrongState(Word::Replicating))),
    ];
    plays(&rt, alloc, &mut half, &steps);
    due(&rt, alloc, &half, &[]);
}

// Without a queue the landing volume stands behind the bitmap.
#[test]
fn disks_without_a_queue_have_their_numbers(rt: HostRuntime) {
    let alloc = rt.alloc();
    let mut half = half(&rt, alloc);
    let tear = Tear {
        skip: 0,
        from: 0,
        count: 0,
    };
    same(&rt, [half.written(1), half.written(2)], [Some(2), None]);
    same(&rt, half.arm(2, tear), false);
    same(&rt, half.arm(1, tear), true);
    let steps = [(Ask(1), Done), (Apply(1, 1, PUT), Refused(Refusal::Fault))];
    plays(&rt, alloc, &mut half, &steps);
}
