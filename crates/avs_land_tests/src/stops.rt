// Landings one after another, each stop of one, and what is found then.
use crate::entries::{Put, below, byte_at, land, redo, shows, stands};
use crate::volumes::{again, arm, made, same};
use Put::{Copy, Mark, Write};
use avs_dev::MemDisk;
use avs_land::Land;
use std::alloc::Global;
use std::process::Abort;

// A volume on which these entries of session 1 have landed.
fn with(rt: &impl Abort, alloc: Global, before: &[Put]) -> Land<MemDisk> {
    let mut volume = made(rt, alloc, &[]);
    for &put in before {
        assert!(rt; land(rt, alloc, &mut volume, 1, put));
    }
    volume
}

// What has landed is found again, and done below.
fn finds(rt: &impl Abort, alloc: Global, volume: Land<MemDisk>, want: Option<(u64, Put)>) {
    let mut volume = again(rt, alloc, volume);
    shows(rt, &volume, want);
    let mut bare = below(rt, alloc);
    assert!(rt; redo(rt, &mut volume, &mut bare));
    match want {
        None => same(rt, byte_at(rt, &mut bare, 0), 0),
        Some((_, put)) => stands(rt, &mut bare, put),
    }
}

// A landing whose write number `skip` stores `count` of its blocks and fails.
fn stopped(
    rt: &impl Abort,
    alloc: Global,
    before: &[Put],
    (session, put): (u64, Put),
    (skip, count): (u32, u32),
) -> Land<MemDisk> {
    let mut volume = with(rt, alloc, before);
    assert!(rt; arm(&mut volume, 0, skip, count));
    assert!(rt; !land(rt, alloc, &mut volume, session, put));
    volume
}

// Each stop of a landing of session 1: in its blocks, and in its header.
fn each_stop(rt: &impl Abort, alloc: Global, before: &[Put], put: Put) {
    let old = before.last().map(|put| (1, *put));
    for tear in [(0, 0), (0, 1), (0, 2), (0, 9), (1, 0)] {
        finds(rt, alloc, stopped(rt, alloc, before, (1, put), tear), old);
    }
    finds(
        rt,
        alloc,
        stopped(rt, alloc, before, (1, put), (1, 1)),
        Some((1, put)),
    );
}

#[test]
fn the_old_or_the_new_entry_is_found(rt: HostRuntime) {
    let alloc = rt.alloc();
    each_stop(&rt, alloc, &[], Write(1, 7, 9, 0x11));
    each_stop(&rt, alloc, &[Copy(1, 0, 64, 0x11)], Write(2, 3, 9, 0x22));
    each_stop(
        &rt,
        alloc,
        &[Copy(1, 0, 64, 0x11), Write(2, 3, 9, 0x22)],
        Copy(3, 64, 33, 0x33),
    );
    each_stop(&rt, alloc, &[Mark(1)], Write(2, 3, 256, 0x22));
    each_stop(
        &rt,
        alloc,
        &[Write(1, 0, 256, 0x11), Mark(2)],
        Write(3, 0, 10, 0x33),
    );
}

#[test]
fn a_mark_is_found_or_not(rt: HostRuntime) {
    let alloc = rt.alloc();
    for (before, place) in [(Write(1, 5, 6, 0x11), 2), (Write(2, 5, 6, 0x11), 3)] {
        let volume = stopped(&rt, alloc, &[before], (1, Mark(place)), (0, 0));
        finds(&rt, alloc, volume, Some((1, before)));
        let volume = stopped(&rt, alloc, &[before], (1, Mark(place)), (0, 1));
        finds(&rt, alloc, volume, Some((1, Mark(place))));
    }
}

#[test]
fn entries_land_one_after_another(rt: HostRuntime) {
    let alloc = rt.alloc();
    let mut volume = made(&rt, alloc, &[]);
    shows(&rt, &volume, None);
    same(&rt, volume.written(0), Some(2));
    for (put, written) in [
        (Copy(1, 0, 64, 0x11), 67),
        (Mark(2), 68),
        (Write(3, 200, 1, 0x33), 70),
        (Write(4, 0, 256, 0x44), 327),
    ] {
        assert!(rt; land(&rt, alloc, &mut volume, 1, put));
        shows(&rt, &volume, Some((1, put)));
        same(&rt, volume.written(0), Some(written));
    }
    same(&rt, volume.written(1), None);
    same(&rt, arm(&mut volume, 1, 0, 0), false);
    finds(&rt, alloc, volume, Some((1, Write(4, 0, 256, 0x44))));
}

#[test]
fn an_entry_of_an_older_session_keeps_its_header(rt: HostRuntime) {
    let alloc = rt.alloc();
    let old = Write(1, 20, 4, 0x11);
    let volume = stopped(&rt, alloc, &[old], (2, Write(1, 30, 6, 0x22)), (0, 2));
    let mut volume = again(&rt, alloc, volume);
    shows(&rt, &volume, Some((1, old)));
    let mut bare = below(&rt, alloc);
    assert!(rt; redo(&rt, &mut volume, &mut bare));
    same(&rt, byte_at(&rt, &mut bare, 21), 0x22);
    same(&rt, byte_at(&rt, &mut bare, 22), 0x11);
}

#[test]
fn an_entry_of_an_older_session_in_the_other_area_stands(rt: HostRuntime) {
    let alloc = rt.alloc();
    let old = Write(2, 20, 4, 0x11);
    let new = Write(1, 30, 6, 0x22);
    finds(
        &rt,
        alloc,
        stopped(&rt, alloc, &[old], (2, new), (0, 2)),
        Some((1, old)),
    );
    finds(
        &rt,
        alloc,
        stopped(&rt, alloc, &[old], (2, new), (1, 1)),
        Some((2, new)),
    );
}
