// Disks that are refused are handed back in their order.
use crate::half::{FIRST, SECOND, below, bitmap, disk, disks, load, same};
use avs_dev::{Disk, MemDisk, Why};
use std::alloc::Global;
use std::process::Abort;

// Why the sets on these disks are refused.
fn refused(rt: &impl Abort, alloc: Global, first: MemDisk, second: MemDisk, want: Why) {
    let (bare, sizes) = (below(rt, alloc), (first.blocks(), second.blocks()));
    match load(rt, alloc, &bare, first, second) {
        Ok(_) => panic!(rt; "they were taken"),
        Err(back) => {
            same(rt, back.why, want);
            let (first, second) = disks(rt, back.parts);
            same(rt, (first.blocks(), second.blocks()), sizes);
        }
    }
}

#[test]
fn the_first_disk_that_is_refused_is_told(rt: HostRuntime) {
    let alloc = rt.alloc();
    let small = Why::BadRecord(64);
    refused(&rt, alloc, disk(&rt, alloc, 1), disk(&rt, alloc, 1), small);
    refused(
        &rt,
        alloc,
        bitmap(&rt, alloc, FIRST),
        disk(&rt, alloc, 1),
        small,
    );
    let blank = Why::BadRecord(0);
    refused(&rt, alloc, disk(&rt, alloc, 7), disk(&rt, alloc, 1), blank);
    let other = Why::BadRecord(3);
    refused(
        &rt,
        alloc,
        bitmap(&rt, alloc, SECOND),
        disk(&rt, alloc, 7),
        other,
    );
}
