// What the store of a host keeps, gives out and takes back.
use avs_dev::{Disk, MemDisk, Tear};
use avs_host::{HostStore, told_role};
use avs_model::{Refusal, Role};
use avs_seg::BLOCK;
use avs_stack::Roles;
use std::alloc::Global;
use std::fmt::Debug;
use std::process::Abort;

fn same<T: PartialEq + Debug + Drop>(rt: &impl Abort, found: T, want: T) {
    assert_eq!(rt; found, want);
}

// One call, and what it is to answer.
#[derive(Clone, Copy)]
enum Step<'a> {
    // A name, a number, the blocks of the disk, and why it is refused.
    Add(&'a str, u32, u32, Option<Refusal>),
    // How many blocks the disk has that is taken.
    Take(&'a str, Option<u32>),
    // A name whose disk is away, and the blocks of the one that is put there.
    Put(&'a str, u32),
    // A block is written on a disk that is taken for it: whether there is one, and the write is done.
    Write(&'a str, bool),
    Remove(&'a str, Option<u32>),
    // The contents are gone: whether there is such a name.
    Spend(&'a str, bool),
    // The number of a name, and whether its contents are gone.
    Find(&'a str, Option<(u32, bool)>),
    Blocks(&'a str, Option<u32>),
    // Of the facts: whether it is there, its role, its blocks, and whether it is empty.
    Facts(&'a str, (bool, Role, u32, bool)),
    Written(u32, Option<u64>),
    Tear(u32, bool),
}

fn disk(rt: &impl Abort, alloc: Global, blocks: u32) -> MemDisk {
    MemDisk::new(alloc, blocks, Vec::new(alloc)).expect(rt, "a disk")
}

fn blocks_of(disk: Option<MemDisk>) -> Option<u32> {
    match disk {
        Some(disk) => Some(disk.blocks()),
        None => None,
    }
}

fn add(
    rt: &impl Abort,
    alloc: Global,
    store: &mut HostStore<MemDisk>,
    name: &str,
    number: u32,
    blocks: u32,
    want: Option<Refusal>,
) {
    match store.add(alloc, name, number, disk(rt, alloc, blocks)) {
        Ok(()) => same(rt, None, want),
        Err(back) => {
            same(rt, Some(back.why), want);
            same(rt, back.parts.blocks(), blocks);
        }
    }
}

fn put(rt: &impl Abort, store: &mut HostStore<MemDisk>, name: &str, disk: MemDisk) {
    assert!(rt; store.take(name).is_none());
    assert!(rt; store.stack().place(name).is_some());
    store.put(name, disk);
}

fn write(rt: &impl Abort, store: &mut HostStore<MemDisk>, name: &str) -> bool {
    match store.take(name) {
        Some(mut disk) => {
            let done = disk.blocks() > 0 && disk.write(0, &[1; BLOCK]).is_ok();
            put(rt, store, name, disk);
            done
        }
        None => false,
    }
}

fn spend(store: &mut HostStore<MemDisk>, name: &str) -> bool {
    let spent = Roles {
        spent: true,
        ..Roles::none()
    };
    store.set_roles(name, spent)
}

fn find(store: &HostStore<MemDisk>, name: &str) -> Option<(u32, bool)> {
    let number = store.stack().find(name)?;
    let roles = store.stack().roles(name)?;
    Some((number, roles.spent))
}

fn facts(store: &HostStore<MemDisk>, name: &str) -> (bool, Role, u32, bool) {
    let facts = store.facts(name);
    (facts.there, facts.role, facts.blocks, facts.empty)
}

fn act(rt: &impl Abort, alloc: Global, store: &mut HostStore<MemDisk>, step: Step) {
    match step {
        Step::Add(name, number, blocks, want) => add(rt, alloc, store, name, number, blocks, want),
        Step::Take(name, want) => same(rt, blocks_of(store.take(name)), want),
        Step::Put(name, blocks) => put(rt, store, name, disk(rt, alloc, blocks)),
        Step::Write(name, want) => same(rt, write(rt, store, name), want),
        Step::Remove(name, want) => same(rt, blocks_of(store.remove(name)), want),
        Step::Spend(name, want) => same(rt, spend(store, name), want),
        Step::Find(name, want) => same(rt, find(store, name), want),
        Step::Blocks(name, want) => same(rt, store.blocks(name), want),
        Step::Facts(name, want) => same(rt, facts(store, name), want),
        Step::Written(number, want) => same(rt, store.written(number), want),
        Step::Tear(number, want) => same(rt, tear(store, number), want),
    }
}

// The next write fails, and stores nothing.
fn tear(store: &mut HostStore<MemDisk>, number: u32) -> bool {
    let tear = Tear {
        skip: 0,
        from: 0,
        count: 0,
    };
    store.arm(number, tear)
}

// Steps on a new store.
fn story(rt: &impl Abort, alloc: Global, steps: &[Step]) {
    let mut store = HostStore::new(alloc, 5);
    for step in steps {
        act(rt, alloc, &mut store, *step);
    }
    same(rt, store.stamp(), 5);
}

#[test]
fn disks_are_numbered_in_order_of_making_while_they_rest(rt: HostRuntime) {
    let steps = [
        Step::Written(0, None),
        Step::Add("/v/b", 7, 3, None),
        Step::Add("/v/a", 4, 2, None),
        Step::Add("/v/c", 9, 5, None),
        Step::Write("/v/a", true),
        Step::Written(0, Some(0)),
        Step::Written(1, Some(1)),
        Step::Written(2, Some(0)),
        Step::Written(3, None),
        Step::Take("/v/b", Some(3)),
        Step::Written(0, Some(1)),
        Step::Written(2, None),
        Step::Put("/v/b", 8),
        Step::Written(0, Some(0)),
        Step::Written(1, Some(1)),
        Step::Take("/v/b", Some(8)),
        Step::Find("/v/b", Some((7, false))),
    ];
    story(&rt, rt.alloc(), &steps);
}

#[test]
fn a_name_is_taken_until_its_volume_is_removed(rt: HostRuntime) {
    let steps = [
        Step::Add("/v/a", 4, 2, None),
        Step::Add("/v/a", 5, 3, Some(Refusal::Exists)),
        Step::Remove("/v/b", None),
        Step::Take("/v/b", None),
        Step::Take("/v/a", Some(2)),
        Step::Take("/v/a", None),
        Step::Remove("/v/a", None),
        Step::Add("/v/a", 5, 3, Some(Refusal::Exists)),
        Step::Put("/v/a", 6),
        Step::Remove("/v/a", Some(6)),
        Step::Find("/v/a", None),
        Step::Add("/v/a", 5, 3, None),
        Step::Find("/v/a", Some((5, false))),
    ];
    story(&rt, rt.alloc(), &steps);
}

#[test]
fn roles_stay_while_a_disk_is_away_and_go_with_the_name(rt: HostRuntime) {
    let steps = [
        Step::Spend("/v/a", false),
        Step::Add("/v/b", 1, 2, None),
        Step::Add("/v/a", 2, 2, None),
        Step::Spend("/v/a", true),
        Step::Facts("/v/a", (true, Role::Plain, 2, true)),
        Step::Facts("/v/b", (true, Role::Plain, 2, false)),
        Step::Facts("/v/c", (false, Role::Plain, 0, false)),
        Step::Blocks("/v/a", Some(2)),
        Step::Take("/v/a", Some(2)),
        Step::Blocks("/v/a", None),
        Step::Find("/v/a", Some((2, true))),
        Step::Find("/v/b", Some((1, false))),
        Step::Put("/v/a", 2),
        Step::Find("/v/a", Some((2, true))),
        Step::Remove("/v/a", Some(2)),
        Step::Spend("/v/a", false),
        Step::Add("/v/a", 3, 2, None),
        Step::Find("/v/a", Some((3, false))),
    ];
    story(&rt, rt.alloc(), &steps);
}

#[test]
fn a_tear_is_armed_on_the_disk_of_its_number(rt: HostRuntime) {
    let steps = [
        Step::Tear(0, false),
        Step::Add("/v/b", 1, 2, None),
        Step::Add("/v/a", 2, 2, None),
        Step::Add("/v/c", 3, 2, None),
        Step::Take("/v/b", Some(2)),
        Step::Tear(1, true),
        Step::Tear(2, false),
        Step::Write("/v/b", false),
        Step::Write("/v/a", true),
        Step::Write("/v/c", false),
        Step::Write("/v/c", true),
        Step::Written(0, Some(1)),
        Step::Written(1, Some(1)),
    ];
    story(&rt, rt.alloc(), &steps);
}

// All roles but the first so many.
fn roles_behind(first: u32) -> Roles {
    Roles {
        away: if first == 0 { Some(7) } else { None },
        mirror: first <= 1,
        master: first <= 2,
        shadow: first <= 3,
        bitmap: first <= 4,
        overflow: first <= 5,
        queue: first <= 6,
        import: first <= 7,
        ..Roles::none()
    }
}

#[test]
fn the_first_role_is_told(rt: HostRuntime) {
    same(&rt, told_role(&roles_behind(0)), Role::Away);
    same(&rt, told_role(&roles_behind(1)), Role::Mirror);
    same(&rt, told_role(&roles_behind(2)), Role::Master);
    same(&rt, told_role(&roles_behind(3)), Role::Shadow);
    same(&rt, told_role(&roles_behind(4)), Role::Bitmap);
    same(&rt, told_role(&roles_behind(5)), Role::Overflow);
    same(&rt, told_role(&roles_behind(6)), Role::Queue);
    same(&rt, told_role(&roles_behind(7)), Role::Import);
    same(&rt, told_role(&roles_behind(8)), Role::Plain);
}
