// Writes of a half that is in no session, its note, and each stop of one.
use crate::half::{again, below, has, made, same};
use avs_dev::{Bare, Below, MemDisk, Tear};
use avs_halves::{MirrorSets, write_note};
use avs_model::{HalfRole, State};
use avs_seg::{BLOCK, seg_count};
use avs_sync::{NOTE, Note, get_note};
use std::alloc::Global;
use std::process::Abort;

/// A write: its set, its first block, how many blocks, and the byte that they are filled with.
#[derive(Clone, Copy, Debug, PartialEq, Eq)]
struct Put {
    set: u32,
    at: u32,
    count: usize,
    byte: u8,
}

fn of(set: u32, at: u32, count: usize, byte: u8) -> Put {
    Put {
        set,
        at,
        count,
        byte,
    }
}

// Whether a write was done.
fn write(
    rt: &impl Abort,
    alloc: Global,
    sets: &mut MirrorSets<MemDisk>,
    below: &mut Bare<MemDisk>,
    put: Put,
) -> bool {
    assert!(rt; 0 < put.count && put.count <= 256);
    let bytes = vec![in alloc; put.byte; BLOCK * put.count].expect(rt, "memory");
    assert!(rt; (put.set as usize) < sets.count());
    let vol = sets.vol(put.set);
    assert!(rt; vol < below.count());
    let blocks = below.size(vol);
    assert!(rt; blocks <= 1000 && put.at < blocks && put.count as u32 <= blocks - put.at);
    assert!(rt; sets.segs(put.set) == seg_count(blocks));
    sets.write_noted(below, put.set, put.at, &bytes).is_ok()
}

// The byte that a block of a volume has throughout.
fn byte_at(rt: &impl Abort, below: &mut Bare<MemDisk>, vol: u32, at: u32) -> u8 {
    let mut block = [0xee; BLOCK];
    assert!(rt; vol < below.count());
    assert!(rt; at < below.size(vol));
    assert!(rt; below.read(vol, at, &mut block).is_ok());
    let first = block[0];
    assert!(rt; block == [first; BLOCK]);
    first
}

// A volume has these bytes in the blocks from one on.
fn shows(rt: &impl Abort, below: &mut Bare<MemDisk>, vol: u32, at: u32, want: &[u8]) {
    let mut block = at;
    for byte in want {
        same(rt, byte_at(rt, below, vol, block), *byte);
        block = block.saturating_add(1);
    }
}

// The volume of the second set, and the place of its disk below.
const VOL: u32 = 1;

fn arm(rt: &impl Abort, below: &mut Bare<MemDisk>, disk: u32, count: u32) {
    let tear = Tear {
        skip: 0,
        from: 0,
        count,
    };
    assert!(rt; below.arm(disk, tear));
}

#[test]
fn a_write_sets_the_bits_that_it_touches(rt: HostRuntime) {
    let alloc = rt.alloc();
    let mut bare = below(&rt, alloc);
    let mut sets = made(&rt, alloc, &bare);
    for one in [of(0, 126, 3, 0x11), of(0, 299, 1, 0x22), of(1, 63, 1, 0x33)] {
        assert!(rt; write(&rt, alloc, &mut sets, &mut bare, one));
    }
    shows(&rt, &mut bare, 0, 125, &[0, 0x11, 0x11, 0x11, 0]);
    shows(&rt, &mut bare, 0, 298, &[0, 0x22]);
    shows(&rt, &mut bare, VOL, 62, &[0, 0x33, 0]);
    let sets = again(&rt, alloc, &bare, sets);
    has(&rt, alloc, &sets, 0, &[1, 2, 4]);
    has(&rt, alloc, &sets, 1, &[0]);
    same(&rt, [bare.written(1), bare.written(2)], [Some(4), Some(1)]);
    same(&rt, bare.written(0), Some(0));
}

#[test]
fn bits_that_are_set_already_are_not_written(rt: HostRuntime) {
    let alloc = rt.alloc();
    let mut bare = below(&rt, alloc);
    let mut sets = made(&rt, alloc, &bare);
    assert!(rt; write(&rt, alloc, &mut sets, &mut bare, of(1, 0, 70, 0x11)));
    let written = sets.written(1);
    assert!(rt; write(&rt, alloc, &mut sets, &mut bare, of(1, 60, 9, 0x22)));
    same(&rt, sets.written(1), written);
    same(&rt, bare.written(2), Some(79));
}

// A write of the second set that is stopped: on the disk of the bitmap, which is 0 here, or below.
fn stopped(rt: &impl Abort, alloc: Global, disk: u32, count: u32, want: (&[u32], [u8; 4])) {
    let mut bare = below(rt, alloc);
    let mut sets = made(rt, alloc, &bare);
    if disk == 0 {
        crate::half::arm(rt, &mut sets, 1, count);
    } else {
        arm(rt, &mut bare, disk, count);
    }
    assert!(rt; !write(rt, alloc, &mut sets, &mut bare, of(VOL, 63, 2, 0x44)));
    let sets = again(rt, alloc, &bare, sets);
    has(rt, alloc, &sets, 0, &[]);
    has(rt, alloc, &sets, 1, want.0);
    shows(rt, &mut bare, VOL, 62, &want.1);
    same(rt, bare.written(2), Some(0));
}

#[test]
fn a_stopped_write_has_its_bits_before_its_blocks(rt: HostRuntime) {
    let alloc = rt.alloc();
    stopped(&rt, alloc, 0, 0, (&[], [0; 4]));
    stopped(&rt, alloc, 0, 1, (&[0, 1], [0; 4]));
    stopped(&rt, alloc, 2, 0, (&[0, 1], [0; 4]));
    stopped(&rt, alloc, 2, 1, (&[0, 1], [0, 0x44, 0, 0]));
    stopped(&rt, alloc, 2, 2, (&[0, 1], [0, 0x44, 0x44, 0]));
}

// ---- the note

const NOTES: [Note; 2] = [
    Note {
        session: 7,
        role: HalfRole::Receiver,
        state: State::Receiving,
        empty: 0x8001,
        reverse: true,
        mark: 0,
    },
    Note {
        session: 8,
        role: HalfRole::Sender,
        state: State::Replicating,
        empty: 0,
        reverse: false,
        mark: 1 << 62,
    },
];

// What lies below, found again on its disks.
fn found(rt: &impl Abort, alloc: Global, below: Bare<MemDisk>) -> [u8; NOTE] {
    let (state, _volumes) = below.into_parts();
    match Bare::new(alloc, state) {
        Ok(bare) => bare.note(),
        Err(_) => panic!(rt; "below"),
    }
}

fn is_note(rt: &impl Abort, bytes: &[u8; NOTE], want: Note) {
    match get_note(bytes) {
        Ok(note) => same(rt, note, want),
        Err(_) => panic!(rt; "a note"),
    }
}

#[test]
fn a_note_is_found_again(rt: HostRuntime) {
    let alloc = rt.alloc();
    for note in NOTES {
        let mut bare = below(&rt, alloc);
        assert!(rt; write_note(&mut bare, &note).is_ok());
        is_note(&rt, &bare.note(), note);
        same(&rt, bare.written(0), Some(1));
        same(&rt, [bare.written(1), bare.written(2)], [Some(0), Some(0)]);
        is_note(&rt, &found(&rt, alloc, bare), note);
    }
}

#[test]
fn a_stopped_note_is_the_old_or_the_new_one(rt: HostRuntime) {
    let alloc = rt.alloc();
    let [old, new] = NOTES;
    for (count, want) in [(0, old), (1, new)] {
        let mut bare = below(&rt, alloc);
        assert!(rt; write_note(&mut bare, &old).is_ok());
        arm(&rt, &mut bare, 0, count);
        assert!(rt; write_note(&mut bare, &new).is_err());
        is_note(&rt, &found(&rt, alloc, bare), want);
    }
}
