// Sets of one chunk, and of as many as a block has states for, and of one more.

use crate::sets::{
    again, byte_in, copy, disk, has, made, moved_part, put_blocks, read, same, save_all, sizes,
    stage, write,
};
use avs_chunks::Chunks;
use avs_dev::{Disk, MemDisk, Tear};
use avs_model::Kind;
use avs_seg::BLOCK;
use std::alloc::Global;
use std::process::Abort;

/// A step on one set. A block is told by its number, and by the byte in it.
#[derive(Clone, Copy)]
enum Step {
    Master(u32, u8),
    Shadow(u32, u8),
    Renew(bool),
    Restore,
    // What is staged is not committed: the write of its block with this number stores so many blocks, and fails.
    Stops(u32, u32),
    // A chunk is copied ahead, and all parts are staged with it split, and turned.
    Joins(u32),
    // The set is found again on its disks.
    Loads,
    // So many copy steps are left, the first of this chunk.
    Copies(u32, u32),
    // A block of the shadow, and one of the master's disk.
    Sees(u32, u8),
    Holds(u32, u8),
    // The sizes of `left`, `back` and `moved`.
    Sizes(u32, u32, u32),
    // Whether a chunk is split.
    Moved(u32, bool),
}

// Copy steps until none is left. Gives how many there were, and the chunk of the first one.
fn copy_all(rt: &impl Abort, set: &mut Chunks<MemDisk>, master: &mut MemDisk) -> (u32, u32) {
    let mut first = 0;
    for count in 0..5_000 {
        match copy(rt, set, master) {
            Ok(Some(chunk)) if count == 0 => first = chunk,
            Ok(Some(_)) => {}
            Ok(None) => return (count, first),
            Err(_) => return (5_000, first),
        }
    }
    (5_000, first)
}

fn join(rt: &impl Abort, set: &mut Chunks<MemDisk>, master: &mut MemDisk, chunk: u32) {
    for part in 0..set.chunks().div_ceil(2048) {
        stage(rt, set, master, part, chunk);
    }
    set.turn();
}

fn change(rt: &impl Abort, set: &mut Chunks<MemDisk>, master: &mut MemDisk, step: Step) {
    match step {
        Step::Master(at, byte) => {
            assert!(rt; save_all(rt, set, master, at, 1));
            assert!(rt; put_blocks(rt, master, at, &[byte; BLOCK]));
        }
        Step::Shadow(at, byte) => {
            assert!(rt; write(rt, set, master, at, &[byte; BLOCK]));
        }
        Step::Renew(whole) => {
            assert!(rt; set.turn_to_shadow(whole).is_ok());
            set.turn();
        }
        Step::Restore => {
            assert!(rt; set.turn_to_master().is_ok());
            set.turn();
        }
        Step::Joins(chunk) => join(rt, set, master, chunk),
        Step::Stops(skip, count) => {
            let tear = Tear {
                skip,
                from: 0,
                count,
            };
            assert!(rt; set.arm(1, tear));
            assert!(rt; set.turn_to_shadow(true).is_err());
        }
        _ => {}
    }
}

fn block_of(rt: &impl Abort, set: &mut Chunks<MemDisk>, master: &mut MemDisk, at: u32) -> u8 {
    let mut block = [0; BLOCK];
    read(rt, set, master, at, &mut block);
    byte_in(rt, &block, 0)
}

fn block_on(rt: &impl Abort, disk: &mut MemDisk, at: u32) -> u8 {
    let mut block = [0; BLOCK];
    assert!(rt; at < disk.blocks());
    assert!(rt; disk.read(at, &mut block).is_ok());
    byte_in(rt, &block, 0)
}

fn look(rt: &impl Abort, set: &mut Chunks<MemDisk>, master: &mut MemDisk, step: Step) {
    match step {
        Step::Copies(chunk, count) => same(rt, copy_all(rt, set, master), (count, chunk)),
        Step::Sees(at, byte) => same(rt, block_of(rt, set, master, at), byte),
        Step::Holds(at, byte) => same(rt, block_on(rt, master, at), byte),
        Step::Sizes(left, back, moved) => same(rt, sizes(set), (left, back, moved)),
        Step::Moved(chunk, is_moved) => {
            let bits = moved_part(rt, set, chunk / 2048);
            same(rt, has(&bits, chunk % 2048), is_moved);
        }
        _ => {}
    }
}

// Plays steps on a new set of so many blocks.
fn play(rt: &impl Abort, alloc: Global, kind: Kind, blocks: u32, steps: &[Step]) {
    let mut master = disk(rt, alloc, blocks, &[]);
    let mut set = made(rt, alloc, kind, blocks);
    let mut live_b = false;
    for &step in steps {
        change(rt, &mut set, &mut master, step);
        look(rt, &mut set, &mut master, step);
        if matches!(step, Step::Renew(_) | Step::Restore | Step::Joins(_)) {
            live_b = !live_b;
        }
        if matches!(step, Step::Loads | Step::Stops(..)) {
            set = again(rt, alloc, set, live_b);
        }
    }
}

// A set whose last block is `last`: it is written, given to the master, copied, and written on the master.
fn independent(rt: &impl Abort, alloc: Global, last: u32) {
    assert!(rt; last < 1 << 20);
    let chunk = last / 64;
    let steps = [
        Step::Sizes(chunk + 1, 0, 0),
        Step::Shadow(last, 0x11),
        Step::Moved(chunk, true),
        Step::Holds(last, 0),
        Step::Loads,
        Step::Sizes(chunk, 0, 1),
        Step::Stops(chunk / 2048, 0),
        Step::Stops(chunk / 2048, 1),
        Step::Stops(0, 0),
        Step::Sizes(chunk, 0, 1),
        Step::Sees(last, 0x11),
        Step::Restore,
        Step::Sizes(chunk, 1, 0),
        Step::Loads,
        Step::Moved(chunk, false),
        Step::Copies(0, chunk + 1),
        Step::Holds(last, 0x11),
        Step::Master(last, 0x22),
        Step::Loads,
        Step::Sizes(0, 0, 1),
        Step::Sees(last, 0x11),
        Step::Renew(false),
        Step::Sizes(1, 0, 0),
        Step::Loads,
        Step::Sizes(1, 0, 0),
        Step::Sees(last, 0x22),
        Step::Copies(chunk, 1),
        Step::Renew(true),
        Step::Loads,
        Step::Sizes(chunk + 1, 0, 0),
        Step::Joins(chunk),
        Step::Sizes(chunk, 0, 1),
        Step::Loads,
        Step::Sizes(chunk, 0, 1),
        Step::Moved(chunk, true),
        Step::Master(last, 0x33),
        Step::Sees(last, 0x22),
    ];
    play(rt, alloc, Kind::Ind, last + 1, &steps);
}

fn dependent(rt: &impl Abort, alloc: Global, last: u32) {
    assert!(rt; last < 1 << 20);
    let chunk = last / 64;
    let steps = [
        Step::Sizes(0, 0, 0),
        Step::Master(last, 0x11),
        Step::Moved(chunk, true),
        Step::Sees(last, 0),
        Step::Loads,
        Step::Sizes(0, 0, 1),
        Step::Stops(chunk / 2048, 0),
        Step::Stops(chunk / 2048, 1),
        Step::Stops(0, 0),
        Step::Sizes(0, 0, 1),
        Step::Sees(last, 0),
        Step::Restore,
        Step::Sizes(0, 1, 0),
        Step::Loads,
        Step::Moved(chunk, false),
        Step::Holds(last, 0x11),
        Step::Copies(chunk, 1),
        Step::Holds(last, 0),
        Step::Copies(0, 0),
        Step::Shadow(last, 0x22),
        Step::Loads,
        Step::Sees(last, 0x22),
        Step::Renew(false),
        Step::Loads,
        Step::Sees(last, 0),
        Step::Sizes(0, 0, 0),
        Step::Joins(chunk),
        Step::Moved(chunk, true),
        Step::Loads,
        Step::Sizes(0, 0, 1),
        Step::Master(last, 0x33),
        Step::Sees(last, 0),
    ];
    play(rt, alloc, Kind::Dep, last + 1, &steps);
}

#[test]
fn sets_of_one_chunk_are_kept_as_others(rt: HostRuntime) {
    for last in [0, 2, 63] {
        independent(&rt, rt.alloc(), last);
        dependent(&rt, rt.alloc(), last);
    }
}

#[test]
fn a_block_has_the_states_of_2048_chunks(rt: HostRuntime) {
    // The first block of chunk 2,047, and of chunk 2,048.
    for last in [131_008, 131_072] {
        independent(&rt, rt.alloc(), last);
        dependent(&rt, rt.alloc(), last);
    }
}
