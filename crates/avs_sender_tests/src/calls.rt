// Calls at the edges of what they take, and values that were worked out by hand.

use crate::lies::same;
use crate::plays::{act, new_sender, play, step};
use avs_dev::Tear;
use avs_model::{Host, Refusal, Word};
use avs_sender_plain::calls::{Begin, Call, Came};
use avs_sender_plain::disks::Harm;
use std::alloc::Global;
use std::process::Abort;

fn begin(number: u64) -> Call {
    Call::Begin(Begin {
        number,
        full: false,
        theirs: ([true, false, true], [false, true, false]),
    })
}

// What each of some calls on a new sender answers.
fn answers(rt: &impl Abort, alloc: Global, calls: &[(Call, Came)]) {
    let mut one = new_sender(rt, alloc, Host::P, Harm::None);
    for (call, want) in calls {
        one = act(rt, alloc, one, *call);
        same(rt, one.came, *want);
    }
}

#[test]
fn a_session_is_begun_in_none_alone(rt: HostRuntime) {
    let alloc = rt.alloc();
    let wrong = Came::Refused(Refusal::WrongState(Word::Syncing));
    let none = Came::Refused(Refusal::WrongState(Word::Logging));
    let calls = [
        (Call::Tick(0), none),
        (begin(1), Came::Done),
        (begin(2), wrong),
        (Call::Tick(0), Came::Known(0)),
        (Call::Tick(1), Came::Refused(Refusal::NoPlace(0))),
        (Call::Log, Came::Done),
        (Call::Tick(0), none),
        (begin(2), Came::Done),
    ];
    answers(&rt, alloc, &calls);
}

#[test]
fn a_session_from_s_is_reverse(rt: HostRuntime) {
    let alloc = rt.alloc();
    for host in [Host::P, Host::S] {
        let calls = [
            begin(5),
            Call::Lend,
            Call::Crash,
            begin(1 << 62),
            Call::Broken,
        ];
        same(&rt, play(&rt, alloc, host, &calls, Harm::None), 0);
    }
}

#[test]
fn disks_have_numbers(rt: HostRuntime) {
    let alloc = rt.alloc();
    let mut one = new_sender(&rt, alloc, Host::P, Harm::None);
    let tear = Tear {
        skip: 0,
        from: 0,
        count: 0,
    };
    same(&rt, one.rig.arm(3, tear), false);
    same(&rt, one.rig.written(3), None);
    let before = [one.rig.written(0), one.rig.written(1), one.rig.written(2)];
    same(&rt, before, [Some(2), Some(2), Some(1)]);
    let (one, is_stopped) = step(&rt, alloc, one, begin(1));
    assert!(&rt; !is_stopped);
    let after = [one.rig.written(0), one.rig.written(1), one.rig.written(2)];
    same(&rt, after, [Some(4), Some(3), Some(1)]);
}
