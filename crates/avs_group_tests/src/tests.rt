// What a group is told, keeps where a write fails, and refuses.
use avs_dev::{Arm, Disk, MemDisk, Tear};
use avs_group::ShadowGroup;
use avs_model::Refusal;
use std::alloc::Global;
use std::fmt::Debug;
use std::process::Abort;

fn same<T: PartialEq + Debug + Drop>(rt: &impl Abort, found: T, want: T) {
    assert_eq!(rt; found, want);
}

fn disk(rt: &impl Abort, alloc: Global, blocks: u32) -> MemDisk {
    MemDisk::new(alloc, blocks, Vec::new(alloc)).expect(rt, "a disk")
}

fn make(rt: &impl Abort, alloc: Global, state: MemDisk) -> ShadowGroup<MemDisk> {
    assert!(rt; state.blocks() >= 64);
    match ShadowGroup::new(alloc, state) {
        Ok(group) => group,
        Err(_) => panic!(rt; "made"),
    }
}

// Adds a volume, and answers its number.
fn add(rt: &impl Abort, alloc: Global, group: &mut ShadowGroup<MemDisk>, blocks: u32) -> u32 {
    match group.add_volume(disk(rt, alloc, blocks)) {
        Ok(number) => number,
        Err(_) => panic!(rt; "added"),
    }
}

#[test]
fn a_new_group_takes_volumes_and_a_note(rt: HostRuntime) {
    let alloc = rt.alloc();
    let mut group = make(&rt, alloc, disk(&rt, alloc, 64));
    same(&rt, group.count(), 0);
    same(&rt, group.volume_size(0), None);
    same(&rt, add(&rt, alloc, &mut group, 64), 0);
    same(&rt, add(&rt, alloc, &mut group, 100), 1);
    same(&rt, group.count(), 2);
    same(&rt, group.volume_size(1), Some(100));
    same(&rt, group.note(), [0; 64]);
    assert!(rt; group.set_note(&[7; 64]).is_ok());
    same(&rt, group.note(), [7; 64]);
}

#[test]
fn a_note_that_a_tear_stops_is_not_told(rt: HostRuntime) {
    let alloc = rt.alloc();
    let mut state = disk(&rt, alloc, 64);
    let tear = Tear {
        skip: 1,
        from: 0,
        count: 1,
    };
    assert!(rt; state.arm(tear));
    let mut group = make(&rt, alloc, state);
    assert!(rt; group.set_note(&[7; 64]).is_err());
    same(&rt, group.note(), [0; 64]);
    assert!(rt; group.set_note(&[8; 64]).is_ok());
    same(&rt, group.note(), [8; 64]);
}

#[test]
fn a_set_that_is_not_there_is_refused(rt: HostRuntime) {
    let alloc = rt.alloc();
    let mut group = make(&rt, alloc, disk(&rt, alloc, 64));
    assert!(rt; group.status(0).is_none());
    assert!(rt; matches!(group.step(0), Err(Refusal::NoSet)));
    assert!(rt; matches!(group.abort(15), Err(Refusal::NoSet)));
}
