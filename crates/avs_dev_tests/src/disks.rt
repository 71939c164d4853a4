// Disks and racks in memory.
use crate::helpers::{arm, disk_of, same, shows, write};
use avs_dev::{Disk, MemDisk, MemRack, Rack, RackFault};
use std::alloc::Global;
use std::process::Abort;

fn make<R: Rack>(rack: &mut R, alloc: Global, blocks: u32) -> Result<R::D, RackFault> {
    rack.make(alloc, blocks)
}

#[test]
fn a_disk_gives_what_was_written(rt: HostRuntime) {
    let alloc = rt.alloc();
    let mut disk = disk_of(&rt, alloc, 4, &[]);
    same(&rt, disk.blocks(), 4);
    shows(&rt, alloc, &mut disk, &[0, 0, 0, 0]);
    same(&rt, write(&rt, alloc, &mut disk, 1, &[7, 8]), true);
    same(&rt, write(&rt, alloc, &mut disk, 2, &[9]), true);
    shows(&rt, alloc, &mut disk, &[0, 7, 9, 0]);
    same(&rt, disk.written(), 3);
}

// A disk of four blocks after the write that meets the tear, from block 1 on. A write of 4, 5 and 6 is skipped, one of 1, 2 and 3 is torn.
fn torn(rt: &impl Abort, alloc: Global, skip: u32, from: u32, count: u32) -> MemDisk {
    let mut disk = disk_of(rt, alloc, 4, &[]);
    same(rt, arm(&mut disk, 9, 0, 4), true);
    same(rt, arm(&mut disk, skip, from, count), true);
    if skip == 1 {
        same(rt, write(rt, alloc, &mut disk, 1, &[4, 5, 6]), true);
    }
    same(rt, write(rt, alloc, &mut disk, 1, &[1, 2, 3]), false);
    disk
}

#[test]
fn a_tear_stores_a_part_of_the_write_that_it_meets(rt: HostRuntime) {
    let alloc = rt.alloc();
    for (skip, from, count, want) in [
        (0, 0, 0, [0, 0, 0, 0]),
        (0, 1, 1, [0, 0, 2, 0]),
        (0, 0, 2, [0, 1, 2, 0]),
        (0, 2, 9, [0, 0, 0, 3]),
        (0, 5, 1, [0, 0, 0, 0]),
        (1, 1, 2, [0, 4, 2, 3]),
    ] {
        let mut disk = torn(&rt, alloc, skip, from, count);
        shows(&rt, alloc, &mut disk, &want);
        same(&rt, disk.written(), 3 * skip as u64);
    }
}

#[test]
fn a_tear_is_used_once(rt: HostRuntime) {
    let alloc = rt.alloc();
    let mut disk = torn(&rt, alloc, 0, 1, 1);
    same(&rt, write(&rt, alloc, &mut disk, 0, &[7]), true);
    shows(&rt, alloc, &mut disk, &[7, 0, 2, 0]);
}

#[test]
fn a_call_of_the_list_leaves_a_tear_armed(rt: HostRuntime) {
    let alloc = rt.alloc();
    let mut disk = disk_of(&rt, alloc, 2, &[2, 4]);
    same(&rt, arm(&mut disk, 1, 1, 1), true);
    shows(&rt, alloc, &mut disk, &[0, 0]);
    for want in [false, true, false, false, true] {
        same(&rt, write(&rt, alloc, &mut disk, 0, &[1, 2]), want);
    }
    same(&rt, disk.written(), 4);
}

#[test]
fn a_rack_refuses_the_listed_call(rt: HostRuntime) {
    let alloc = rt.alloc();
    let mut rack = MemRack::new([2].to_vec(alloc).expect(&rt, "memory"), Vec::new(alloc));
    same(&rt, make(&mut rack, alloc, 64).err(), None);
    same(
        &rt,
        make(&mut rack, alloc, 64).err(),
        Some(RackFault::Refused),
    );
    let mut third = make(&mut rack, alloc, 70).expect(&rt, "a disk");
    shows(&rt, alloc, &mut third, &[0; 70]);
}

#[test]
fn the_disks_of_a_rack_fail_at_the_listed_call(rt: HostRuntime) {
    let alloc = rt.alloc();
    let mut rack = MemRack::new(Vec::new(alloc), [2].to_vec(alloc).expect(&rt, "memory"));
    for blocks in [64, 70] {
        let mut disk = make(&mut rack, alloc, blocks).expect(&rt, "a disk");
        for want in [true, false, true] {
            same(&rt, write(&rt, alloc, &mut disk, 0, &[5]), want);
        }
    }
}
