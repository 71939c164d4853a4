// Enabling, and volumes that are given away and come back.
use crate::facts::{DOWN, UP, busy, new_group, no_set, no_volume, same, set, volume, wrong};
use avs_model::{
    EnableFacts, ExportFacts, Host, ImportFacts, JoinFacts, Kind, Refusal, Role, Word,
};
use avs_refusals::{Marked, enable_refusal, export_refusal, import_refusal, join_refusal};
use avs_seg::Failed;

const LIMIT: u64 = 4_611_686_018_427_387_904;

// A label that tells a stamp, or none, and counts.
#[derive(Drop)]
struct Label {
    stamp: Option<u64>,
    looks: u32,
}

impl Marked for Label {
    ghost use Rattle.std.specs.Prelude.{◌≡◌};

    ghost told = { λ old stamp new. stamp ≡ old.stamp };

    ghost faults = { λ label. 0 };

    fn import_stamp(&mut self) -> Result<Option<u64>, Failed> {
        self.looks = self.looks.saturating_add(1);
        Ok(self.stamp)
    }
}

fn marked(stamp: Option<u64>) -> Label {
    Label { stamp, looks: 0 }
}

fn enabled(facts: &EnableFacts, stamp: Option<u64>) -> Option<Refusal> {
    match enable_refusal(facts, &mut marked(stamp)) {
        Ok(why) => why,
        Err(Failed) => Some(Refusal::Fault),
    }
}

fn imported(facts: &ImportFacts, stamp: Option<u64>) -> Option<Refusal> {
    match import_refusal(facts, &mut marked(stamp)) {
        Ok(why) => why,
        Err(Failed) => Some(Refusal::Fault),
    }
}

fn joined(facts: &JoinFacts, stamp: Option<u64>) -> Option<Refusal> {
    match join_refusal(facts, &mut marked(stamp)) {
        Ok(why) => why,
        Err(Failed) => Some(Refusal::Fault),
    }
}

fn enabling(dependent: bool, master: u32, shadow: u32, bitmap: u32) -> EnableFacts {
    EnableFacts {
        host: UP,
        dependent,
        master: volume(Role::Plain, master),
        shadow: volume(Role::Plain, shadow),
        bitmap: volume(Role::Plain, bitmap),
        shadow_twice: false,
        bitmap_twice: false,
        group: new_group(),
        back: 0,
    }
}

fn size(need: u32, have: u32) -> Option<Refusal> {
    Some(Refusal::Size { need, have })
}

#[test]
fn a_bitmap_is_as_large_as_its_set_needs(rt: HostRuntime) {
    same(
        &rt,
        enabled(&enabling(false, 128, 127, 64), None),
        size(128, 127),
    );
    same(&rt, enabled(&enabling(true, 128, 127, 64), None), None);
    same(
        &rt,
        enabled(&enabling(true, 131_072, 131_072, 3), None),
        None,
    );
    same(
        &rt,
        enabled(&enabling(true, 131_072, 131_072, 2), None),
        size(3, 2),
    );
    same(
        &rt,
        enabled(&enabling(true, 131_073, 131_073, 4), None),
        size(5, 4),
    );
    same(&rt, enabled(&enabling(true, 8192, 64, 3), None), None);
    same(&rt, enabled(&enabling(true, 8193, 64, 4), None), size(5, 4));
}

#[test]
fn the_volumes_of_a_set_have_no_other_use(rt: HostRuntime) {
    let mut facts = enabling(true, 128, 128, 2);
    facts.bitmap.role = Role::Queue;
    same(&rt, enabled(&facts, None), busy(Role::Queue));
    same(&rt, enabled(&facts, Some(1)), busy(Role::Import));
    facts.shadow.role = Role::Overflow;
    same(&rt, enabled(&facts, Some(1)), busy(Role::Overflow));
    facts.master.role = Role::Shadow;
    same(&rt, enabled(&facts, None), busy(Role::Shadow));
    facts.master.role = Role::Mirror;
    same(&rt, enabled(&facts, None), busy(Role::Mirror));
    facts.master.role = Role::Import;
    same(&rt, enabled(&facts, None), busy(Role::Import));
    facts.bitmap = no_volume();
    same(&rt, enabled(&facts, None), Some(Refusal::NoVolume));
    facts.host = DOWN;
    same(&rt, enabled(&facts, None), Some(Refusal::Down(Host::P)));
}

#[test]
fn a_name_stands_once_in_a_set(rt: HostRuntime) {
    let mut facts = enabling(true, 128, 128, 64);
    facts.master.role = Role::Master;
    facts.bitmap_twice = true;
    same(&rt, enabled(&facts, None), busy(Role::Plain));
    facts.shadow.role = Role::Master;
    facts.shadow_twice = true;
    same(&rt, enabled(&facts, None), busy(Role::Master));
}

#[test]
fn a_group_has_so_many_sets(rt: HostRuntime) {
    let mut facts = enabling(true, 128, 128, 64);
    facts.master.empty = true;
    same(&rt, enabled(&facts, None), Some(Refusal::NoContents));
    facts.back = 3;
    same(&rt, enabled(&facts, None), Some(Refusal::Copying(3)));
    facts.group.is_other = true;
    same(&rt, enabled(&facts, None), Some(Refusal::Unlike(0)));
    facts.group.groups = 15;
    same(&rt, enabled(&facts, None), Some(Refusal::Unlike(0)));
    facts.group.groups = 16;
    same(&rt, enabled(&facts, None), Some(Refusal::Limit(16)));
    facts.group.is_new = false;
    facts.group.sets = 15;
    same(&rt, enabled(&facts, None), Some(Refusal::Unlike(0)));
    facts.group.sets = 16;
    same(&rt, enabled(&facts, None), Some(Refusal::Limit(16)));
}

#[test]
fn a_label_is_looked_at_where_nothing_stands_before_it(rt: HostRuntime) {
    let mut facts = enabling(true, 128, 128, 64);
    let mut shadow = marked(Some(1));
    facts.shadow.role = Role::Bitmap;
    let early = enable_refusal(&facts, &mut shadow);
    assert!(rt; matches!(early, Ok(Some(Refusal::BusyVolume(Role::Bitmap)))));
    same(&rt, shadow.looks, 0);
    facts.shadow.role = Role::Plain;
    let late = enable_refusal(&facts, &mut shadow);
    assert!(rt; matches!(late, Ok(Some(Refusal::BusyVolume(Role::Import)))));
    same(&rt, shadow.looks, 1);
}

#[test]
fn an_independent_set_is_exported_whole(rt: HostRuntime) {
    let mut facts = ExportFacts {
        host: UP,
        set: set(Kind::Ind),
        stamp: LIMIT,
    };
    same(&rt, export_refusal(&facts), None);
    facts.set.left = 2;
    same(&rt, export_refusal(&facts), Some(Refusal::Copying(2)));
    facts.set.back = 1;
    same(&rt, export_refusal(&facts), Some(Refusal::Copying(1)));
    facts.set.kind = Kind::Compact;
    same(&rt, export_refusal(&facts), wrong(Word::Compact));
    facts.set.exported = true;
    same(&rt, export_refusal(&facts), wrong(Word::Exported));
    facts.stamp = LIMIT + 1;
    same(&rt, export_refusal(&facts), Some(Refusal::Limit(LIMIT)));
    facts.set = no_set();
    same(&rt, export_refusal(&facts), Some(Refusal::NoSet));
}

fn importing() -> ImportFacts {
    ImportFacts {
        host: UP,
        volume: volume(Role::Away, 262_144),
        again: None,
        bitmap: volume(Role::Plain, 2),
        bitmap_twice: false,
        imports: 63,
    }
}

#[test]
fn a_volume_that_is_away_is_imported_once(rt: HostRuntime) {
    let mut facts = importing();
    same(&rt, imported(&facts, Some(9)), None);
    facts.volume.role = Role::Plain;
    same(&rt, imported(&facts, None), wrong(Word::Present));
    facts.imports = 64;
    same(&rt, imported(&facts, None), Some(Refusal::Limit(64)));
    facts.bitmap.blocks = 1;
    same(&rt, imported(&facts, None), size(2, 1));
    facts.bitmap_twice = true;
    same(&rt, imported(&facts, None), busy(Role::Plain));
    facts.bitmap.role = Role::Import;
    same(&rt, imported(&facts, None), busy(Role::Import));
    facts.volume.role = Role::Away;
    facts.volume.imported = true;
    same(&rt, imported(&facts, None), busy(Role::Away));
}

#[test]
fn a_volume_is_imported_again_with_its_own_bitmap(rt: HostRuntime) {
    let mut facts = importing();
    facts.again = Some(3);
    same(&rt, imported(&facts, Some(3)), None);
    same(&rt, imported(&facts, Some(1)), busy(Role::Plain));
    same(&rt, imported(&facts, None), busy(Role::Plain));
}

#[test]
fn a_set_takes_back_what_has_its_stamp(rt: HostRuntime) {
    let mut facts = JoinFacts {
        host: UP,
        set: set(Kind::Ind),
        is_back: true,
        stamp: 3,
        bitmap: volume(Role::Plain, 64),
    };
    facts.set.exported = true;
    let other = Refusal::WrongStamp { ours: 3, theirs: 1 };
    same(&rt, joined(&facts, Some(3)), None);
    same(&rt, joined(&facts, Some(1)), Some(other));
    facts.set.back = 5;
    same(&rt, joined(&facts, Some(1)), Some(Refusal::Copying(5)));
    same(&rt, joined(&facts, None), wrong(Word::Plain));
    facts.bitmap.role = Role::Import;
    same(&rt, joined(&facts, Some(3)), wrong(Word::Plain));
    facts.is_back = false;
    same(&rt, joined(&facts, Some(3)), wrong(Word::Away));
    facts.set.exported = false;
    same(&rt, joined(&facts, Some(3)), wrong(Word::Online));
    facts.bitmap = no_volume();
    facts.set = no_set();
    same(&rt, joined(&facts, None), Some(Refusal::NoVolume));
}
