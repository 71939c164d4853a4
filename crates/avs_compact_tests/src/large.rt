// Sets of one chunk, and of as many as a block has entries, and of one more.

use crate::sets::{
    Came, add_slots, again, byte_in, copy, get_blocks, made, made_over, over_again, put_blocks,
    read, save, stage, state, write,
};
use crate::tests::{disk, same};
use avs_compact::{ChunkState, Compact};
use avs_dev::{MemDisk, Tear};
use avs_over::Over;
use avs_seg::BLOCK;
use std::alloc::Global;
use std::process::Abort;

/// A step on one set. A block is told by its number, and by the byte in it.
#[derive(Clone, Copy)]
enum Step {
    Master(u32, u8),
    Shadow(u32, u8),
    // The write of the entry of the chunk of a block stores so many blocks, and fails.
    Stops(u32, u32),
    // What is staged is not committed: the write of its block with this number stores so many
    // blocks, and fails.
    StagesInPart(u32, u32),
    // The master becomes the shadow.
    Restore,
    // The shadow becomes the master.
    Renew,
    // A chunk is copied ahead, and all parts are staged with it split, and turned.
    Joins(u32),
    // The set is found again on its disks.
    Loads,
    // A copy step.
    Copies(Option<u32>),
    // A block of the shadow, and one of the master's disk.
    Sees(u32, u8),
    Holds(u32, u8),
    // The slots that it needs, and its room.
    Slots(u32, u32),
    State(u32, ChunkState),
    // The least chunk with a slot of the overflow volume, and that slot.
    Next(Option<(u32, u32)>),
}

const NUMBER: u32 = 7;

fn tear(rt: &impl Abort, set: &mut Compact<MemDisk>, skip: u32, count: u32) {
    let tear = Tear {
        skip,
        from: 0,
        count,
    };
    assert!(rt; set.arm(1, tear));
}

fn release(over: &mut Option<Over<MemDisk>>) {
    if let Some(over) = over {
        over.release_set(NUMBER);
    }
}

fn join(
    rt: &impl Abort,
    set: &mut Compact<MemDisk>,
    master: &mut MemDisk,
    over: &mut Option<Over<MemDisk>>,
    chunk: u32,
) {
    for part in 0..set.chunks().div_ceil(2048) {
        stage(rt, set, master, over, part, chunk);
    }
    set.turn();
}

fn change(
    rt: &impl Abort,
    set: &mut Compact<MemDisk>,
    master: &mut MemDisk,
    over: &mut Option<Over<MemDisk>>,
    step: Step,
) {
    match step {
        Step::Master(at, byte) => {
            same(rt, save(rt, set, master, over, (at, 1)), Came::Done);
            assert!(rt; put_blocks(rt, master, at, &[byte; BLOCK]));
        }
        Step::Shadow(at, byte) => {
            let came = write(rt, set, master, over, at, &[byte; BLOCK]);
            same(rt, came, Came::Done);
        }
        Step::Stops(at, count) => {
            tear(rt, set, 0, count);
            same(rt, save(rt, set, master, over, (at, 1)), Came::Failed);
        }
        Step::StagesInPart(skip, count) => {
            tear(rt, set, skip, count);
            assert!(rt; set.turn_to_master().is_err());
        }
        Step::Restore => {
            assert!(rt; set.turn_to_master().is_ok());
            set.turn();
        }
        Step::Renew => {
            assert!(rt; set.turn_to_shadow(true).is_ok());
            set.turn();
            release(over);
        }
        Step::Joins(chunk) => join(rt, set, master, over, chunk),
        Step::Copies(want) => same(rt, copy(rt, set, master, over).ok(), Some(want)),
        _ => {}
    }
}

fn look(
    rt: &impl Abort,
    set: &mut Compact<MemDisk>,
    master: &mut MemDisk,
    over: &mut Option<Over<MemDisk>>,
    step: Step,
) {
    let mut block = [0; BLOCK];
    match step {
        Step::Sees(at, byte) => {
            read(rt, set, master, over, at, &mut block);
            same(rt, byte_in(rt, &block, 0), byte);
        }
        Step::Holds(at, byte) => {
            get_blocks(rt, master, at, &mut block);
            same(rt, byte_in(rt, &block, 0), byte);
        }
        Step::Slots(need, slots) => same(rt, (set.need(), set.room(over)), (need, slots)),
        Step::State(chunk, want) => same(rt, state(rt, set, chunk), want),
        Step::Next(want) => same(rt, set.next_over(0), Ok(want)),
        _ => {}
    }
}

// The set and the overflow volume as they are found again.
fn found_again(
    rt: &impl Abort,
    alloc: Global,
    set: Compact<MemDisk>,
    over: Option<Over<MemDisk>>,
    live_b: bool,
) -> (Compact<MemDisk>, Option<Over<MemDisk>>) {
    let set = again(rt, alloc, NUMBER, set, live_b);
    let mut pairs = Vec::new(alloc);
    add_slots(rt, &mut pairs, NUMBER, &set);
    let over = over_again(rt, alloc, over, &pairs);
    (set, over)
}

// Plays steps on a new set of so many blocks, with one own slot and two of an overflow volume.
fn play(rt: &impl Abort, alloc: Global, blocks: u32, steps: &[Step]) {
    let mut master = disk(rt, alloc, blocks);
    let mut set = made(rt, alloc, NUMBER, 64, blocks);
    let mut over = made_over(rt, alloc, 2);
    let mut live_b = false;
    for &step in steps {
        change(rt, &mut set, &mut master, &mut over, step);
        look(rt, &mut set, &mut master, &mut over, step);
        if matches!(step, Step::Renew | Step::Restore | Step::Joins(_)) {
            live_b = !live_b;
        }
        if matches!(step, Step::Loads | Step::Stops(..) | Step::StagesInPart(..)) {
            (set, over) = found_again(rt, alloc, set, over, live_b);
        }
    }
}

// A set whose last block is `last`: its last chunk is stopped, saved, given to the master and
// copied, in its own slot.
fn one_slot(rt: &impl Abort, alloc: Global, last: u32) {
    assert!(rt; last < 1 << 20);
    let chunk = last / 64;
    let steps = [
        Step::Slots(0, 3),
        Step::Stops(last, 0),
        Step::State(chunk, ChunkState::OnMaster),
        Step::Slots(0, 3),
        Step::Stops(last, 1),
        Step::State(chunk, ChunkState::Split),
        Step::Slots(1, 3),
        Step::Shadow(last, 0x11),
        Step::Holds(last, 0),
        Step::Loads,
        Step::Sees(last, 0x11),
        Step::Master(last, 0x22),
        Step::Sees(last, 0x11),
        Step::Next(None),
        Step::StagesInPart(0, 0),
        Step::StagesInPart(chunk / 128, 0),
        Step::StagesInPart(chunk / 128, 1),
        Step::State(chunk, ChunkState::Split),
        Step::Restore,
        Step::State(chunk, ChunkState::OnShadow),
        Step::Loads,
        Step::State(chunk, ChunkState::OnShadow),
        Step::Holds(last, 0x22),
        Step::Copies(Some(chunk)),
        Step::Copies(None),
        Step::Loads,
        Step::State(chunk, ChunkState::OnBoth),
        Step::Slots(1, 3),
        Step::Holds(last, 0x11),
        Step::Renew,
        Step::Slots(0, 3),
        Step::Loads,
        Step::State(chunk, ChunkState::OnMaster),
        Step::Slots(0, 3),
        Step::Joins(chunk),
        Step::Slots(1, 3),
        Step::State(chunk, ChunkState::Split),
        Step::Loads,
        Step::State(chunk, ChunkState::Split),
        Step::Master(last, 0x33),
        Step::Sees(last, 0x11),
        Step::Slots(1, 3),
    ];
    play(rt, alloc, last + 1, &steps);
}

// The same where the first chunk has the own slot.
fn two_slots(rt: &impl Abort, alloc: Global, last: u32) {
    assert!(rt; last < 1 << 20);
    let chunk = last / 64;
    let steps = [
        Step::Master(0, 0x33),
        Step::Stops(last, 0),
        Step::Slots(1, 3),
        Step::Stops(last, 1),
        Step::Slots(2, 3),
        Step::Next(Some((chunk, 0))),
        Step::Shadow(last, 0x11),
        Step::Loads,
        Step::Sees(0, 0),
        Step::Sees(last, 0x11),
        Step::Restore,
        Step::State(chunk, ChunkState::OnShadow),
        Step::Copies(Some(0)),
        Step::Copies(Some(chunk)),
        Step::Copies(None),
        Step::Holds(0, 0),
        Step::Holds(last, 0x11),
        Step::Next(Some((chunk, 0))),
        Step::Renew,
        Step::Slots(0, 3),
        Step::Next(None),
        Step::Loads,
        Step::Slots(0, 3),
        Step::State(0, ChunkState::OnMaster),
        Step::Joins(chunk),
        Step::Joins(0),
        Step::Slots(2, 3),
        Step::Next(Some((0, 0))),
        Step::Loads,
        Step::Sees(0, 0),
        Step::Sees(last, 0x11),
    ];
    play(rt, alloc, last + 1, &steps);
}

#[test]
fn sets_of_one_chunk_are_kept_as_others(rt: HostRuntime) {
    for last in [0, 2, 63] {
        one_slot(&rt, rt.alloc(), last);
    }
}

#[test]
fn a_block_has_the_entries_of_128_chunks(rt: HostRuntime) {
    // The first block of chunk 127, the last of five of chunk 128, and chunk 2,048, which is another part.
    for last in [8_128, 8_196, 131_072] {
        one_slot(&rt, rt.alloc(), last);
        two_slots(&rt, rt.alloc(), last);
    }
}
