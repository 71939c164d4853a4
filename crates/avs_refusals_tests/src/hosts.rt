// Statements on hosts, volumes and disks.
use crate::facts::{DOWN, UP, busy, no_volume, same, volume, wrong};
use avs_model::{
    ArmFacts, AttachTapFacts, DropTapFacts, Host, HostFacts, MakeFacts, MoveFacts, Refusal, Role,
    TextFacts, Word,
};
use avs_refusals::{
    arm_refusal, attach_tap_refusal, drop_tap_refusal, host_refusal, make_refusal, move_refusal,
    recover_refusal, text_refusal, unarmed_refusal, word_refusal,
};

const OTHER: HostFacts = HostFacts {
    name: Host::S,
    up: true,
};

fn made(blocks: u32, all_blocks: u32) -> MakeFacts {
    MakeFacts {
        host: UP,
        taken: false,
        blocks,
        all_blocks,
    }
}

#[test]
fn a_volume_is_neither_too_small_nor_too_large(rt: HostRuntime) {
    let largest = 262_144;
    let all = 1_048_576;
    let small = Refusal::Size { need: 64, have: 63 };
    same(&rt, make_refusal(&made(63, 0)), Some(small));
    same(&rt, make_refusal(&made(64, 0)), None);
    same(&rt, make_refusal(&made(largest, all - largest)), None);
    same(
        &rt,
        make_refusal(&made(largest, all - largest + 1)),
        Some(Refusal::Limit(1_048_576)),
    );
    same(
        &rt,
        make_refusal(&made(largest + 1, all)),
        Some(Refusal::Limit(262_144)),
    );
    let mut taken = made(63, 0);
    taken.taken = true;
    same(&rt, make_refusal(&taken), Some(Refusal::Exists));
    let last = 4_294_967_295;
    same(
        &rt,
        make_refusal(&made(64, last)),
        Some(Refusal::Limit(1_048_576)),
    );
}

#[test]
fn a_host_is_up_or_down(rt: HostRuntime) {
    same(&rt, host_refusal(&UP), None);
    same(&rt, host_refusal(&DOWN), Some(Refusal::Down(Host::P)));
    same(&rt, recover_refusal(&UP), wrong(Word::Up));
    same(&rt, recover_refusal(&DOWN), None);
    same(&rt, word_refusal(&UP, 1), Some(Refusal::BadWord(1)));
    same(&rt, word_refusal(&DOWN, 1), Some(Refusal::Down(Host::P)));
}

#[test]
fn a_disk_is_named_by_a_volume_or_a_group(rt: HostRuntime) {
    let mut facts = ArmFacts {
        host: UP,
        of_group: false,
        there: false,
    };
    same(&rt, arm_refusal(&facts), Some(Refusal::NoVolume));
    facts.of_group = true;
    same(&rt, arm_refusal(&facts), Some(Refusal::NoGroup));
    facts.there = true;
    same(&rt, arm_refusal(&facts), None);
    same(&rt, unarmed_refusal(false), wrong(Word::Unarmed));
    same(&rt, unarmed_refusal(true), None);
}

#[test]
fn a_volume_without_a_role_moves(rt: HostRuntime) {
    let mut facts = MoveFacts {
        from: UP,
        to: OTHER,
        volume: volume(Role::Plain, 64),
        taken: false,
    };
    same(&rt, move_refusal(&facts), None);
    facts.volume.role = Role::Shadow;
    same(&rt, move_refusal(&facts), busy(Role::Shadow));
    facts.volume.role = Role::Away;
    same(&rt, move_refusal(&facts), None);
    facts.volume.imported = true;
    same(&rt, move_refusal(&facts), busy(Role::Away));
    facts.taken = true;
    same(&rt, move_refusal(&facts), Some(Refusal::Exists));
    facts.volume = no_volume();
    same(&rt, move_refusal(&facts), Some(Refusal::NoVolume));
    facts.to.up = false;
    same(&rt, move_refusal(&facts), Some(Refusal::Down(Host::S)));
    facts.from.up = false;
    same(&rt, move_refusal(&facts), Some(Refusal::Down(Host::P)));
}

#[test]
fn a_tap_is_in_the_list_or_attached(rt: HostRuntime) {
    let mut attached = AttachTapFacts {
        host: UP,
        there: true,
        tap: 2,
        listed: false,
    };
    same(&rt, attach_tap_refusal(&attached), Some(Refusal::NoTap(2)));
    attached.there = false;
    same(&rt, attach_tap_refusal(&attached), Some(Refusal::NoVolume));
    let dropped = DropTapFacts {
        host: UP,
        there: true,
        attached: false,
    };
    same(&rt, drop_tap_refusal(&dropped), Some(Refusal::NoTap(0)));
}

#[test]
fn there_are_so_many_texts_and_lines(rt: HostRuntime) {
    let mut facts = TextFacts {
        is_new: false,
        texts: 16,
        lines: 1023,
    };
    same(&rt, text_refusal(&facts), None);
    facts.lines = 1024;
    same(&rt, text_refusal(&facts), Some(Refusal::Limit(1024)));
    facts.lines = 0;
    facts.is_new = true;
    same(&rt, text_refusal(&facts), Some(Refusal::Limit(16)));
}
