// Writes to an import, each stop of one, and what is found then.
use crate::disks::{Held, again, arm, byte_at, fresh, same, shows, write};
use std::alloc::Global;
use std::process::Abort;

// An import to which these writes were done.
fn with(rt: &impl Abort, alloc: Global, writes: &[(u32, u32, u8)]) -> Held {
    let mut held = fresh(rt, alloc);
    for &one in writes {
        assert!(rt; write(rt, alloc, &mut held, one));
    }
    held
}

#[test]
fn each_segment_that_is_written_is_kept(rt: HostRuntime) {
    let alloc = rt.alloc();
    let mut held = with(&rt, alloc, &[(63, 2, 0x11)]);
    shows(
        &rt,
        alloc,
        &mut held,
        &[0, 1],
        &[(62, 0), (63, 0x11), (64, 0x11), (65, 0)],
    );
    assert!(rt; write(&rt, alloc, &mut held, (199, 1, 0x22)));
    shows(&rt, alloc, &mut held, &[0, 1, 3], &[(199, 0x22), (198, 0)]);
    let mut held = again(&rt, alloc, held);
    shows(
        &rt,
        alloc,
        &mut held,
        &[0, 1, 3],
        &[(63, 0x11), (199, 0x22), (0, 0)],
    );
}

#[test]
fn a_second_import_goes_on(rt: HostRuntime) {
    let alloc = rt.alloc();
    let mut held = again(&rt, alloc, with(&rt, alloc, &[(0, 1, 0x11)]));
    assert!(rt; write(&rt, alloc, &mut held, (128, 64, 0x22)));
    let mut held = again(&rt, alloc, held);
    same(&rt, held.import.stamp(), 3);
    shows(&rt, alloc, &mut held, &[0, 2], &[(0, 0x11), (191, 0x22)]);
}

#[test]
fn bits_are_written_once(rt: HostRuntime) {
    let alloc = rt.alloc();
    let mut held = fresh(&rt, alloc);
    for (at, volume, bitmap) in [
        (0, 10, 4),
        (5, 20, 4),
        (60, 30, 5),
        (120, 40, 6),
        (60, 50, 6),
    ] {
        assert!(rt; write(&rt, alloc, &mut held, (at, 10, 0x11)));
        same(&rt, held.import.written(0), Some(volume));
        same(&rt, held.import.written(1), Some(bitmap));
    }
}

// What is found after a tear on one of the disks stopped a write of 80 blocks from block 60 on.
fn check_stop(
    rt: &impl Abort,
    alloc: Global,
    (disk, from, count): (u32, u32, u32),
    segments: &[u32],
    bytes: &[(u32, u8)],
) {
    let mut held = with(rt, alloc, &[(199, 1, 0x11)]);
    assert!(rt; arm(&mut held, disk, (0, from, count)));
    assert!(rt; !write(rt, alloc, &mut held, (60, 80, 0x22)));
    let mut held = again(rt, alloc, held);
    shows(rt, alloc, &mut held, segments, bytes);
}

#[test]
fn a_stopped_write_has_its_bits_first(rt: HostRuntime) {
    let alloc = rt.alloc();
    let old = [(59, 0), (60, 0), (100, 0), (139, 0), (199, 0x11)];
    check_stop(&rt, alloc, (1, 0, 0), &[3], &old);
    check_stop(&rt, alloc, (1, 0, 1), &[0, 1, 2, 3], &old);
    check_stop(&rt, alloc, (0, 0, 0), &[0, 1, 2, 3], &old);
    check_stop(
        &rt,
        alloc,
        (0, 10, 20),
        &[0, 1, 2, 3],
        &[(60, 0), (69, 0), (70, 0x22), (89, 0x22), (90, 0)],
    );
    check_stop(
        &rt,
        alloc,
        (0, 0, 80),
        &[0, 1, 2, 3],
        &[(59, 0), (60, 0x22), (139, 0x22), (140, 0)],
    );
}

#[test]
fn a_disk_that_is_not_there_is_not_armed(rt: HostRuntime) {
    let alloc = rt.alloc();
    let mut held = fresh(&rt, alloc);
    assert!(rt; !arm(&mut held, 2, (0, 0, 0)));
    assert!(rt; write(&rt, alloc, &mut held, (0, 1, 0x11)));
    same(&rt, byte_at(&rt, &mut held, 0), 0x11);
}
