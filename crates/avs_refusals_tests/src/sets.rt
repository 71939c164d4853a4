// Commands on sets, and on overflow volumes.
use crate::facts::{DOWN, UP, busy, no_set, same, set, volume, wrong};
use avs_model::{
    AttachFacts, BitsFacts, DisableFacts, Host, Kind, Lack, NamedSetFacts, OneSetFacts,
    OverflowFacts, Refusal, Role, SetFacts, SlotsFacts, UpdateFacts, Word,
};
use avs_refusals::{
    abort_refusal, attach_refusal, bits_refusal, copy_refusal, detach_refusal, disable_refusal,
    overflow_refusal, slots_refusal, status_refusal, update_refusal,
};

const LACK: Option<Lack> = Some(Lack { need: 4, slots: 3 });

const OFFLINE: Option<Refusal> = Some(Refusal::Offline { need: 4, slots: 3 });

fn one(set: SetFacts) -> OneSetFacts {
    OneSetFacts { host: UP, set }
}

fn named(set: SetFacts, word: u32) -> NamedSetFacts {
    NamedSetFacts {
        set,
        word,
        again: false,
        is_other: false,
        master_again: false,
    }
}

fn update(to_master: bool) -> UpdateFacts {
    UpdateFacts {
        host: UP,
        to_master,
        group_there: true,
    }
}

#[test]
fn a_cause_comes_before_a_set(rt: HostRuntime) {
    let mut exported = named(set(Kind::Ind), 3);
    exported.set.exported = true;
    let mut copying = named(set(Kind::Ind), 4);
    copying.set.back = 7;
    let mut again = named(set(Kind::Ind), 5);
    again.again = true;
    let missing = named(no_set(), 6);
    let to_shadow = update(false);
    same(
        &rt,
        update_refusal(&to_shadow, &[copying, exported, again, missing]),
        Some(Refusal::NoSet),
    );
    same(
        &rt,
        update_refusal(&to_shadow, &[copying, exported, again]),
        Some(Refusal::Unlike(5)),
    );
    same(
        &rt,
        update_refusal(&to_shadow, &[copying, exported]),
        wrong(Word::Exported),
    );
    same(
        &rt,
        update_refusal(&to_shadow, &[copying]),
        Some(Refusal::Copying(7)),
    );
    same(&rt, update_refusal(&to_shadow, &[]), None);
}

#[test]
fn the_way_of_an_update_tells_what_excludes_it(rt: HostRuntime) {
    let mut offline = named(set(Kind::Compact), 3);
    offline.set.offline = LACK;
    same(&rt, update_refusal(&update(false), &[offline]), None);
    same(&rt, update_refusal(&update(true), &[offline]), OFFLINE);
    let mut second = named(set(Kind::Dep), 4);
    second.master_again = true;
    same(
        &rt,
        update_refusal(&update(false), &[offline, second]),
        None,
    );
    same(
        &rt,
        update_refusal(&update(true), &[offline, second]),
        Some(Refusal::Unlike(4)),
    );
    let mut half = named(set(Kind::Ind), 3);
    half.set.half = Some(Word::Receiving);
    same(&rt, update_refusal(&update(false), &[half]), None);
    same(
        &rt,
        update_refusal(&update(true), &[half]),
        wrong(Word::Receiving),
    );
    let mut empty = named(set(Kind::Ind), 3);
    empty.set.master_empty = true;
    same(&rt, update_refusal(&update(true), &[empty]), None);
    same(
        &rt,
        update_refusal(&update(false), &[empty]),
        Some(Refusal::NoContents),
    );
}

#[test]
fn a_group_that_is_not_there_comes_behind_a_host_that_is_down(rt: HostRuntime) {
    let mut none = update(true);
    none.group_there = false;
    same(&rt, update_refusal(&none, &[]), Some(Refusal::NoGroup));
    none.host = DOWN;
    same(
        &rt,
        update_refusal(&none, &[]),
        Some(Refusal::Down(Host::P)),
    );
}

#[test]
fn a_set_that_is_copied_stays(rt: HostRuntime) {
    let mut facts = DisableFacts {
        host: UP,
        is_import: false,
        set: set(Kind::Ind),
    };
    same(&rt, disable_refusal(&facts), None);
    facts.set.left = 1;
    same(&rt, disable_refusal(&facts), Some(Refusal::Copying(1)));
    facts.set.back = 2;
    same(&rt, disable_refusal(&facts), Some(Refusal::Copying(2)));
    facts.set.exported = true;
    same(&rt, disable_refusal(&facts), wrong(Word::Exported));
    facts.is_import = true;
    same(&rt, disable_refusal(&facts), None);
    facts.is_import = false;
    facts.set = no_set();
    same(&rt, disable_refusal(&facts), Some(Refusal::NoSet));
}

#[test]
fn a_set_that_is_offline_is_copied_and_told_of(rt: HostRuntime) {
    let mut facts = one(set(Kind::Compact));
    facts.set.offline = LACK;
    same(&rt, copy_refusal(&facts), None);
    same(&rt, status_refusal(&facts), None);
    same(&rt, abort_refusal(&facts), OFFLINE);
    facts.set.stopped = true;
    same(&rt, copy_refusal(&facts), wrong(Word::Stopped));
    facts.set.exported = true;
    same(&rt, copy_refusal(&facts), wrong(Word::Exported));
    same(&rt, status_refusal(&one(no_set())), Some(Refusal::NoSet));
}

#[test]
fn a_shadow_set_has_no_bits(rt: HostRuntime) {
    for (kind, word) in [
        (Kind::Ind, Word::Ind),
        (Kind::Dep, Word::Dep),
        (Kind::Compact, Word::Compact),
    ] {
        let facts = BitsFacts {
            host: UP,
            there: true,
            kind: Some(kind),
        };
        same(&rt, bits_refusal(&facts), wrong(word));
    }
}

#[test]
fn a_host_has_so_many_overflow_volumes(rt: HostRuntime) {
    let mut facts = OverflowFacts {
        host: UP,
        volume: volume(Role::Plain, 65),
        overflows: 63,
    };
    same(&rt, overflow_refusal(&facts), None);
    facts.overflows = 64;
    same(&rt, overflow_refusal(&facts), Some(Refusal::Limit(64)));
    facts.volume.role = Role::Overflow;
    same(&rt, overflow_refusal(&facts), busy(Role::Overflow));
    let told = SlotsFacts {
        host: UP,
        volume: volume(Role::Queue, 64),
    };
    same(&rt, slots_refusal(&told), busy(Role::Queue));
}

#[test]
fn an_overflow_volume_serves_compact_sets_of_one_group(rt: HostRuntime) {
    let mut facts = AttachFacts {
        host: UP,
        volume: volume(Role::Overflow, 65),
        elsewhere: false,
        set: set(Kind::Compact),
    };
    same(&rt, attach_refusal(&facts), None);
    facts.set.offline = LACK;
    same(&rt, attach_refusal(&facts), OFFLINE);
    facts.set.attached = true;
    same(&rt, attach_refusal(&facts), wrong(Word::Attached));
    facts.set.kind = Kind::Dep;
    same(&rt, attach_refusal(&facts), wrong(Word::Dep));
    facts.elsewhere = true;
    same(&rt, attach_refusal(&facts), busy(Role::Overflow));
    facts.volume.role = Role::Plain;
    facts.elsewhere = false;
    same(&rt, attach_refusal(&facts), busy(Role::Plain));
}

#[test]
fn slots_that_are_used_stay_attached(rt: HostRuntime) {
    let mut facts = one(set(Kind::Compact));
    facts.set.offline = LACK;
    same(&rt, detach_refusal(&facts), wrong(Word::Detached));
    facts.set.attached = true;
    same(&rt, detach_refusal(&facts), OFFLINE);
    facts.set.used = 1;
    same(&rt, detach_refusal(&facts), wrong(Word::Used));
}
