// Disks that are taken, given back and refused.

use crate::sets::{
    BLOCKS, again, bitmap_blocks, copy, disk, give, has, made, moved_part, put_blocks, same, sees,
    sizes, write,
};
use avs_chunks::Chunks;
use avs_dev::{Arm, Back, Closed2, Disk, MemDisk, Tear, Why};
use avs_model::Kind;
use avs_seg::BLOCK;
use std::alloc::Global;
use std::process::Abort;

fn take(rt: &impl Abort, set: &mut Chunks<MemDisk>) -> MemDisk {
    match set.take_shadow() {
        Some(shadow) => shadow,
        None => panic!(rt; "a shadow"),
    }
}

fn copies(rt: &impl Abort, set: &mut Chunks<MemDisk>, master: &mut MemDisk, want: Option<u32>) {
    same(rt, copy(rt, set, master).ok(), Some(want));
}

// A set of three chunks of which the second is split, and the others are the same on both disks.
fn settled(rt: &impl Abort, alloc: Global, master: &mut MemDisk) -> Chunks<MemDisk> {
    let mut set = made(rt, alloc, Kind::Ind, BLOCKS);
    assert!(rt; write(rt, &mut set, master, 70, &[0x11; BLOCK]));
    copies(rt, &mut set, master, Some(0));
    copies(rt, &mut set, master, Some(2));
    copies(rt, &mut set, master, None);
    set
}

#[test]
fn a_shadow_is_taken_once_and_given_back(rt: HostRuntime) {
    let mut master = disk(&rt, rt.alloc(), BLOCKS, &[]);
    let mut set = settled(&rt, rt.alloc(), &mut master);
    let mut shadow = take(&rt, &mut set);
    assert!(&rt; set.take_shadow().is_none());
    assert!(&rt; put_blocks(&rt, &mut shadow, 3, &[0x22; BLOCK]));
    let mut set = again(&rt, rt.alloc(), set, false);
    same(&rt, sizes(&set), (0, 0, 1));
    same(&rt, has(&moved_part(&rt, &set, 0), 1), true);
    same(&rt, set.written(0), Some(6));
    same(&rt, set.written(1), None);
    give(&rt, &mut set, shadow);
    sees(&rt, &mut set, &mut master, 3, 0x22);
    sees(&rt, &mut set, &mut master, 70, 0x11);
    same(&rt, set.written(0), Some(138));
    same(&rt, set.written(1), Some(6));
}

#[test]
fn states_are_staged_and_turned_without_the_shadow(rt: HostRuntime) {
    let mut master = disk(&rt, rt.alloc(), BLOCKS, &[]);
    let mut set = settled(&rt, rt.alloc(), &mut master);
    let shadow = take(&rt, &mut set);
    assert!(&rt; set.turn_to_shadow(false).is_ok());
    set.turn();
    same(&rt, sizes(&set), (1, 0, 0));
    give(&rt, &mut set, shadow);
    sees(&rt, &mut set, &mut master, 70, 0);
    copies(&rt, &mut set, &mut master, Some(1));
    copies(&rt, &mut set, &mut master, None);
}

fn why_not(rt: &impl Abort, made: Result<Chunks<MemDisk>, Closed2<MemDisk>>) -> Why {
    match made {
        Ok(_) => panic!(rt; "it was made"),
        Err(back) => back.why,
    }
}

#[test]
fn disks_that_are_small_or_fail_are_handed_back(rt: HostRuntime) {
    let size = |need, have| Why::Size { need, have };
    for (blocks, states, fails, want) in [
        (135, 3, 0, size(136, 135)),
        (136, 2, 0, size(3, 2)),
        (136, 3, 1, Why::Fault),
        (136, 3, 2, Why::Fault),
        (136, 3, 3, Why::Fault),
    ] {
        let shadow = disk(&rt, rt.alloc(), blocks, &[]);
        let bitmap = disk(&rt, rt.alloc(), states, &[fails]);
        let made = Chunks::make(rt.alloc(), Kind::Dep, shadow, bitmap, BLOCKS);
        same(&rt, why_not(&rt, made), want);
    }
}

type Loaded = Result<Chunks<MemDisk>, Back<(Option<MemDisk>, MemDisk), Why>>;

fn why_lost(rt: &impl Abort, loaded: Loaded) -> Why {
    match loaded {
        Ok(_) => panic!(rt; "it was found"),
        Err(back) => back.why,
    }
}

// A bitmap whose label has another byte at a place, which is a field of it.
fn altered(rt: &impl Abort, alloc: Global, place: usize, field: u32) {
    let (shadow, mut bitmap) = made(rt, alloc, Kind::Dep, BLOCKS).into_disks();
    let mut label = [0; BLOCK];
    assert!(rt; 0 < bitmap.blocks() && place < BLOCK);
    assert!(rt; bitmap.read(0, &mut label).is_ok());
    label[place] = label[place].wrapping_add(1);
    assert!(rt; put_blocks(rt, &mut bitmap, 0, &label));
    let loaded = Chunks::load(alloc, Kind::Dep, shadow, bitmap, BLOCKS, false);
    same(rt, why_lost(rt, loaded), Why::BadRecord(field));
}

#[test]
fn a_label_of_another_set_is_refused_by_its_field(rt: HostRuntime) {
    same(&rt, bitmap_blocks(BLOCKS), 3);
    for (place, field) in [
        (0, 0),
        (11, 1),
        (15, 2),
        (19, 3),
        (23, 4),
        (31, 5),
        (32, 6),
        (511, 6),
    ] {
        altered(&rt, rt.alloc(), place, field);
    }
}

// A new set of these disks, as it is found again.
fn is_found(rt: &impl Abort, loaded: Loaded) -> bool {
    match loaded {
        Ok(set) => {
            same(rt, sizes(&set), (BLOCKS.div_ceil(64), 0, 0));
            true
        }
        Err(back) => {
            same(rt, back.why, Why::BadRecord(0));
            false
        }
    }
}

// A stop at a write of a new set, after so many others. Says whether a set is found then.
fn torn_make(rt: &impl Abort, alloc: Global, skip: u32, count: u32) -> bool {
    let shadow = disk(rt, alloc, BLOCKS, &[]);
    let mut bitmap = disk(rt, alloc, bitmap_blocks(BLOCKS), &[]);
    let tear = Tear {
        skip,
        from: 0,
        count,
    };
    assert!(rt; bitmap.arm(tear));
    match Chunks::make(alloc, Kind::Ind, shadow, bitmap, BLOCKS) {
        Ok(_) => panic!(rt; "a stop"),
        Err(back) => {
            same(rt, back.why, Why::Fault);
            let (shadow, bitmap) = back.parts;
            let loaded = Chunks::load(alloc, Kind::Ind, Some(shadow), bitmap, BLOCKS, false);
            is_found(rt, loaded)
        }
    }
}

#[test]
fn a_set_that_is_made_in_part_is_found_by_its_label(rt: HostRuntime) {
    for (skip, count, want) in [
        (0, 0, false),
        (0, 1, true),
        (1, 0, true),
        (1, 1, true),
        (2, 0, true),
        (2, 1, true),
    ] {
        same(&rt, torn_make(&rt, rt.alloc(), skip, count), want);
    }
}

fn present(rt: &impl Abort, found: Result<Chunks<MemDisk>, Closed2<MemDisk>>) -> Chunks<MemDisk> {
    match found {
        Ok(set) => set,
        Err(_) => panic!(rt; "a set"),
    }
}

// Its states in memory are those of a new set, and those on its disk are what they were.
#[test]
fn a_set_is_found_without_its_states(rt: HostRuntime) {
    let alloc = rt.alloc();
    let mut master = disk(&rt, alloc, BLOCKS, &[]);
    let mut set = settled(&rt, alloc, &mut master);
    let shadow = take(&rt, &mut set);
    let (_, bitmap) = set.into_disks();
    let set = present(&rt, Chunks::found(alloc, Kind::Ind, shadow, bitmap, BLOCKS));
    same(&rt, sizes(&set), (3, 0, 0));
    same(&rt, set.written(1), Some(6));
    same(&rt, sizes(&again(&rt, alloc, set, false)), (0, 0, 1));
}

#[test]
fn a_set_is_not_found_on_disks_that_are_small(rt: HostRuntime) {
    for (blocks, states, need, have) in [(135, 3, 136, 135), (136, 2, 3, 2)] {
        let shadow = disk(&rt, rt.alloc(), blocks, &[]);
        let bitmap = disk(&rt, rt.alloc(), states, &[]);
        let found = Chunks::found(rt.alloc(), Kind::Dep, shadow, bitmap, BLOCKS);
        same(&rt, why_not(&rt, found), Why::Size { need, have });
    }
}
