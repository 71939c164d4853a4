// Volumes that are refused, and each field of a label and of a header.
use crate::entries::{Put, below, byte_at, land, redo, shows};
use crate::volumes::{BLOCKS, HEADER, LABEL, alter, block, disk, made, refused, same};
use avs_dev::{Arm, MemDisk, Tear, Why};
use avs_land::Land;
use avs_seg::BLOCK;
use std::alloc::Global;
use std::process::Abort;

const ENTRY: Put = Put::Write(1, 5, 3, 0x11);

// A disk on which an entry has landed.
fn landed(rt: &impl Abort, alloc: Global) -> MemDisk {
    let mut volume = made(rt, alloc, &[]);
    assert!(rt; land(rt, alloc, &mut volume, 1, ENTRY));
    volume.into_disk()
}

fn check(rt: &impl Abort, alloc: Global, block: u32, at: usize, byte: u8, field: u32) {
    let mut disk = landed(rt, alloc);
    alter(rt, &mut disk, block, at, byte);
    refused(rt, Land::load(alloc, disk), Why::BadRecord(field));
}

#[test]
fn a_header_and_its_blocks_lie_at_their_bytes(rt: HostRuntime) {
    let alloc = rt.alloc();
    let mut volume = made(&rt, alloc, &[]);
    assert!(rt; land(&rt, alloc, &mut volume, 1, Put::Write(2, 5, 1, 0x22)));
    assert!(rt; land(&rt, alloc, &mut volume, 1, Put::Write(3, 6, 2, 0x33)));
    let mut disk = volume.into_disk();
    let header = block(&rt, &mut disk, HEADER);
    assert!(rt;
        header.starts_with(
            b"AVSL\0\0\0\x01\0\0\0\0\0\0\0\x01\0\0\0\0\0\0\0\x03\0\0\0\x01\0\0\0\x01\0\0\0\x06\0\0\0\x02\0"
        )
    );
    for (at, byte) in [(2, 0x22), (3, 0), (258, 0x33), (259, 0x33), (260, 0)] {
        same(&rt, block(&rt, &mut disk, at), [byte; BLOCK]);
    }
}

#[test]
fn the_first_field_of_the_header_that_breaks_its_rule_is_named(rt: HostRuntime) {
    let alloc = rt.alloc();
    for (at, byte, field) in [
        (3, b'l', 0),
        (7, 2, 1),
        (8, 0x41, 2),
        (16, 0x41, 3),
        (27, 4, 4),
        (27, 3, 7),
        (38, 1, 7),
        (39, 0, 7),
        (40, 1, 8),
        (511, 1, 8),
    ] {
        check(&rt, alloc, HEADER, at, byte, field);
    }
}

#[test]
fn the_first_field_of_the_label_that_breaks_its_rule_is_named(rt: HostRuntime) {
    let alloc = rt.alloc();
    for (at, byte, field) in [
        (0, b'a', 0),
        (11, 2, 1),
        (15, 2, 2),
        (19, 1, 3),
        (23, 1, 4),
        (31, 1, 5),
        (32, 1, 6),
    ] {
        check(&rt, alloc, LABEL, at, byte, field);
    }
}

#[test]
fn a_disk_that_is_too_small_is_refused(rt: HostRuntime) {
    let alloc = rt.alloc();
    let small = Why::Size {
        need: 514,
        have: 513,
    };
    refused(&rt, Land::make(alloc, disk(&rt, alloc, 513, &[])), small);
    refused(&rt, Land::load(alloc, disk(&rt, alloc, 513, &[])), small);
}

#[test]
fn a_disk_that_fails_is_handed_back(rt: HostRuntime) {
    let alloc = rt.alloc();
    for call in [1, 2] {
        let fresh = disk(&rt, alloc, BLOCKS, &[call]);
        refused(&rt, Land::make(alloc, fresh), Why::Fault);
    }
    let fresh = disk(&rt, alloc, BLOCKS, &[1]);
    refused(&rt, Land::load(alloc, fresh), Why::Fault);
}

// What a stop of `make` leaves on a disk.
fn stopped_make(
    rt: &impl Abort,
    alloc: Global,
    mut disk: MemDisk,
    skip: u32,
    count: u32,
) -> MemDisk {
    assert!(rt;
        disk.arm(Tear {
            skip,
            from: 0,
            count
        })
    );
    refused(rt, Land::make(alloc, disk), Why::Fault)
}

#[test]
fn a_stopped_make_leaves_no_volume_or_an_empty_one(rt: HostRuntime) {
    let alloc = rt.alloc();
    for (skip, count) in [(0, 0), (0, 1), (1, 0)] {
        let disk = stopped_make(&rt, alloc, disk(&rt, alloc, BLOCKS, &[]), skip, count);
        refused(&rt, Land::load(alloc, disk), Why::BadRecord(0));
    }
    let disk = stopped_make(&rt, alloc, disk(&rt, alloc, BLOCKS, &[]), 1, 1);
    match Land::load(alloc, disk) {
        Ok(volume) => shows(&rt, &volume, None),
        Err(_) => panic!(rt; "a volume"),
    }
}

#[test]
fn a_volume_that_is_made_again_is_empty(rt: HostRuntime) {
    let alloc = rt.alloc();
    let disk = stopped_make(&rt, alloc, landed(&rt, alloc), 1, 0);
    match Land::load(alloc, disk) {
        Ok(volume) => shows(&rt, &volume, Some((1, ENTRY))),
        Err(_) => panic!(rt; "a volume"),
    }
    match Land::make(alloc, landed(&rt, alloc)) {
        Ok(volume) => shows(&rt, &volume, None),
        Err(_) => panic!(rt; "a volume"),
    }
}

#[test]
fn what_cannot_be_read_is_not_done(rt: HostRuntime) {
    let alloc = rt.alloc();
    let mut volume = made(&rt, alloc, &[5]);
    assert!(rt; land(&rt, alloc, &mut volume, 1, ENTRY));
    let mut bare = below(&rt, alloc);
    assert!(rt; !redo(&rt, &mut volume, &mut bare));
    same(&rt, byte_at(&rt, &mut bare, 5), 0);
    assert!(rt; redo(&rt, &mut volume, &mut bare));
    same(&rt, byte_at(&rt, &mut bare, 5), 0x11);
}

#[test]
fn an_entry_has_room_where_its_set_and_its_range_are_there(rt: HostRuntime) {
    let alloc = rt.alloc();
    let bare = below(&rt, alloc);
    let mut volume = made(&rt, alloc, &[]);
    assert!(rt; volume.has_room(&bare, &[]));
    assert!(rt; land(&rt, alloc, &mut volume, 1, Put::Write(1, 290, 10, 0x11)));
    assert!(rt; volume.has_room(&bare, &[9, 1]));
    assert!(rt; !volume.has_room(&bare, &[1]));
    assert!(rt; !volume.has_room(&bare, &[1, 0]));
    assert!(rt; !volume.has_room(&bare, &[1, 2]));
    assert!(rt; land(&rt, alloc, &mut volume, 1, Put::Write(2, 291, 10, 0x11)));
    assert!(rt; !volume.has_room(&bare, &[9, 1]));
    assert!(rt; land(&rt, alloc, &mut volume, 1, Put::Mark(3)));
    assert!(rt; volume.has_room(&bare, &[]));
}
