// Imports that are made and found, or refused.
use crate::disks::{
    BLOCKS, Held, STAMP, again, alter, armed, block, disk, filled, found, fresh, made, refused,
    same, shows, write,
};
use avs_dev::MemDisk;
use avs_join::{Import, check_stamp};
use avs_model::Refusal;
use avs_seg::BLOCK;
use std::alloc::Global;
use std::process::Abort;

// The bitmap of an import of which segments 0 and 3 are written, with another stamp.
fn former(rt: &impl Abort, alloc: Global) -> MemDisk {
    let volume = disk(rt, alloc, BLOCKS, &[]);
    let mut held = made(rt, alloc, volume, disk(rt, alloc, 2, &[]), 1);
    assert!(rt; write(rt, alloc, &mut held, (10, 1, 0x11)));
    assert!(rt; write(rt, alloc, &mut held, (199, 1, 0x11)));
    let (_, bitmap) = held.import.into_disks();
    bitmap
}

fn counts(rt: &impl Abort, held: &Held, volume: u64, bitmap: u64) {
    same(rt, held.import.written(0), Some(volume));
    same(rt, held.import.written(1), Some(bitmap));
    same(rt, held.import.written(2), None);
}

#[test]
fn a_new_import_has_no_segment(rt: HostRuntime) {
    let alloc = rt.alloc();
    let mut held = fresh(&rt, alloc);
    same(&rt, held.import.stamp(), STAMP);
    shows(&rt, alloc, &mut held, &[], &[(0, 0), (199, 0)]);
    counts(&rt, &held, 0, 3);
    let mut held = again(&rt, alloc, held);
    same(&rt, held.import.stamp(), STAMP);
    shows(&rt, alloc, &mut held, &[], &[(0, 0)]);
    counts(&rt, &held, 0, 3);
}

#[test]
fn whatever_the_bitmap_was_it_is_formatted(rt: HostRuntime) {
    let alloc = rt.alloc();
    let volume = disk(&rt, alloc, BLOCKS, &[]);
    let mut held = made(&rt, alloc, volume, filled(&rt, alloc, 7, 0xff), STAMP);
    shows(&rt, alloc, &mut held, &[], &[]);
    assert!(rt; write(&rt, alloc, &mut held, (60, 10, 0x22)));
    let (_, mut bitmap) = held.import.into_disks();
    assert!(rt;
        block(&rt, &mut bitmap, 0).starts_with(
            b"AVSVOL01\0\0\0\x01\0\0\0\x09\0\0\0\xc8\0\0\0\x04\0\0\0\0\0\0\0\x03\0\0"
        )
    );
    assert!(rt; block(&rt, &mut bitmap, 1).starts_with(b"\x03\0\0\0\0\0\0\0\0"));
    same(&rt, block(&rt, &mut bitmap, 2), [0xff; BLOCK]);
    same(&rt, block(&rt, &mut bitmap, 6), [0xff; BLOCK]);
    let volume = disk(&rt, alloc, BLOCKS, &[]);
    let mut held = made(&rt, alloc, volume, former(&rt, alloc), STAMP);
    shows(&rt, alloc, &mut held, &[], &[]);
}

fn check_label(rt: &impl Abort, alloc: Global, at: usize, byte: u8, field: u32) {
    let (volume, mut bitmap) = fresh(rt, alloc).import.into_disks();
    alter(rt, &mut bitmap, 0, at, byte);
    refused(
        rt,
        Import::load(alloc, volume, bitmap),
        Refusal::BadRecord(field),
    );
}

#[test]
fn the_first_field_of_the_label_that_breaks_its_rule_is_named(rt: HostRuntime) {
    let alloc = rt.alloc();
    for (at, byte, field) in [
        (0, b'a', 0),
        (11, 2, 1),
        (15, 10, 2),
        (15, 4, 5),
        (19, 0xc9, 3),
        (23, 5, 4),
        (24, 0x41, 5),
        (32, 1, 6),
        (511, 1, 6),
    ] {
        check_label(&rt, alloc, at, byte, field);
    }
}

#[test]
fn a_volume_of_another_size_is_refused(rt: HostRuntime) {
    let alloc = rt.alloc();
    let (_, bitmap) = fresh(&rt, alloc).import.into_disks();
    let (_, bitmap) = refused(
        &rt,
        Import::load(alloc, disk(&rt, alloc, 201, &[]), bitmap),
        Refusal::BadRecord(3),
    );
    found(&rt, alloc, disk(&rt, alloc, BLOCKS, &[]), bitmap);
}

#[test]
fn a_bitmap_that_is_too_small_is_refused(rt: HostRuntime) {
    let alloc = rt.alloc();
    let small = Refusal::Size { need: 2, have: 1 };
    let volume = disk(&rt, alloc, BLOCKS, &[]);
    let bitmap = filled(&rt, alloc, 1, 0xaa);
    let (volume, bitmap) = refused(&rt, Import::make(alloc, volume, bitmap, STAMP), small);
    let (_, mut bitmap) = refused(&rt, Import::load(alloc, volume, bitmap), small);
    same(&rt, block(&rt, &mut bitmap, 0), [0xaa; BLOCK]);
}

fn check_fault(rt: &impl Abort, alloc: Global, call: u64) {
    let volume = disk(rt, alloc, BLOCKS, &[]);
    let bitmap = disk(rt, alloc, 2, &[call]);
    refused(
        rt,
        Import::make(alloc, volume, bitmap, STAMP),
        Refusal::Fault,
    );
}

#[test]
fn a_disk_that_fails_is_handed_back(rt: HostRuntime) {
    let alloc = rt.alloc();
    for call in [1, 2, 3, 4] {
        check_fault(&rt, alloc, call);
    }
    let volume = disk(&rt, alloc, BLOCKS, &[]);
    let bitmap = disk(&rt, alloc, 2, &[1]);
    refused(&rt, Import::load(alloc, volume, bitmap), Refusal::Fault);
}

// What a stop of `make` over the bitmap of a former import leaves.
fn stopped(
    rt: &impl Abort,
    alloc: Global,
    torn: (u32, u32, u32),
) -> Result<Import<MemDisk>, avs_join::Returned2<MemDisk>> {
    let volume = disk(rt, alloc, BLOCKS, &[]);
    let bitmap = armed(rt, former(rt, alloc), torn);
    let (volume, bitmap) = refused(
        rt,
        Import::make(alloc, volume, bitmap, STAMP),
        Refusal::Fault,
    );
    Import::load(alloc, volume, bitmap)
}

// The import of which some segments are written.
fn is(
    rt: &impl Abort,
    alloc: Global,
    loaded: Result<Import<MemDisk>, avs_join::Returned2<MemDisk>>,
    stamp: u64,
    segments: &[u32],
) {
    match loaded {
        Ok(import) => {
            same(rt, import.stamp(), stamp);
            let bits = import.bits(alloc).expect(rt, "memory");
            assert_eq!(rt; bits.as_slice(), segments);
        }
        Err(_) => panic!(rt; "an import"),
    }
}

#[test]
fn a_stopped_make_leaves_the_old_import_or_none_or_the_new_one(rt: HostRuntime) {
    let alloc = rt.alloc();
    is(&rt, alloc, stopped(&rt, alloc, (0, 0, 0)), 1, &[0, 3]);
    for torn in [(0, 0, 1), (1, 0, 0), (1, 0, 1), (2, 0, 0)] {
        refused(&rt, stopped(&rt, alloc, torn), Refusal::BadRecord(0));
    }
    is(&rt, alloc, stopped(&rt, alloc, (2, 0, 1)), STAMP, &[]);
}

#[test]
fn a_stamp_that_differs_is_refused_with_both(rt: HostRuntime) {
    same(&rt, check_stamp(3, 3), Ok(()));
    for (ours, theirs) in [(3, 1), (1, 3), (2, 1)] {
        same(
            &rt,
            check_stamp(ours, theirs),
            Err(Refusal::WrongStamp { ours, theirs }),
        );
    }
}
