// Rows of calls drawn from a number, and after each of them all entries are asked for.
ghost use Rattle.std.specs.Prelude.{◌≡◌, ◌<◌, ◌≤◌, length};
ghost use Rattle.avs_mqueue.specs.Queue.{next_place};

use avs_model::{Blocks, Entry, EntryKind, Full, Limits};
use avs_mqueue::MemQueue;
use avs_seg::BLOCK;
use std::alloc::Global;
use std::fmt::Debug;
use std::process::Abort;

// How many entries and blocks a queue holds at most.
const WRITES: u32 = 5;

const BLOCKS: u32 = 300;

// The queue, and the plain reading of it: the first and the next place, and of each place how many blocks its entry has.
#[derive(Drop)]
struct Held {
    queue: MemQueue,
    first: u64,
    next: u64,
    counts: [u32; 26],
    ghost follows: { 0 < length queue.entries → next_place queue ≡ next },
}

fn same<T: PartialEq + Debug + Drop>(rt: &impl Abort, found: T, want: T) {
    assert_eq!(rt; found, want);
}

// The number behind another, and one below a limit that is made of it.
fn drawn(number: u64) -> u64 {
    number.wrapping_mul(1_103_515_245).wrapping_add(12_345) & 0x7fff_ffff
}

fn below(number: u64, limit: u32) -> u32 {
    match u64::from(limit) {
        0 => 0,
        some => (number / 65_536 % some) as u32,
    }
}

fn new(rt: &impl Abort, alloc: Global) -> Held {
    let limits = Limits {
        writes: WRITES,
        blocks: BLOCKS,
        block_mode: true,
    };
    Held {
        queue: MemQueue::new(alloc, limits).expect(rt, "memory"),
        first: 1,
        next: 1,
        counts: [0; 26],
    }
}

// What tells the entry of a place.
fn byte_of(place: u64) -> u8 {
    (place % 251) as u8
}

fn at_of(place: u64) -> u32 {
    (place % 1_000) as u32
}

// The entry of a place: so many blocks, each byte of them the place.
fn entry_of(rt: &impl Abort, alloc: Global, place: u64, count: u32) -> Entry {
    assert!(rt; count <= 256);
    let bytes = vec![in alloc; byte_of(place); BLOCK * count as usize].expect(rt, "memory");
    Entry {
        kind: EntryKind::Write,
        set: count,
        at: at_of(place),
        bytes: Blocks::new(bytes),
    }
}

// Its first and its last byte tell that it is that one.
fn is_entry(rt: &impl Abort, entry: &Entry, place: u64, count: u32) {
    same(rt, (entry.at, entry.set), (at_of(place), count));
    let bytes = entry.bytes.as_slice();
    assert!(rt; count <= 256);
    same(rt, bytes.len(), BLOCK * count as usize);
    let want = if count == 0 {
        None
    } else {
        Some(byte_of(place))
    };
    same(rt, bytes.first().copied(), want);
    same(rt, bytes.last().copied(), want);
}

// How many blocks the entry of a place has, by the plain reading.
fn count_at(held: &Held, place: u64) -> Option<u32> {
    if place < held.first || held.next <= place {
        return None;
    }
    held.counts.get(place as usize).copied()
}

// What the plain reading holds.
fn full_of(held: &Held) -> Full {
    let (mut writes, mut blocks) = (0u32, 0u32);
    for place in 0..26 {
        if let Some(count) = count_at(held, place) {
            writes = writes.saturating_add(1);
            blocks = blocks.saturating_add(count);
        }
    }
    Full { writes, blocks }
}

fn note_push(rt: &impl Abort, counts: &mut [u32; 26], place: u64, count: u32) {
    match counts.get_mut(place as usize) {
        Some(noted) => *noted = count,
        None => panic!(rt; "too many entries"),
    }
}

// An entry comes to the queue, or is handed back where it is full.
fn push(rt: &impl Abort, alloc: Global, held: &mut Held, count: u32) {
    let place = held.next;
    assert!(rt; place < 26 && count <= 256);
    let full = full_of(held);
    let takes = full.writes < WRITES && full.blocks.saturating_add(count) <= BLOCKS;
    note_push(rt, &mut held.counts, place, count);
    match held.queue.push(place, entry_of(rt, alloc, place, count)) {
        Ok(()) => {
            held.next = place + 1;
            same(rt, takes, true);
        }
        Err((back, why)) => {
            same(rt, takes, false);
            same(rt, why, full);
            is_entry(rt, &back, place, count);
        }
    }
}

// Each entry up to a place goes.
fn advance(held: &mut Held, upto: u64) {
    held.queue.advance(upto);
    held.first = held.first.max(upto.saturating_add(1)).min(held.next);
}

fn check_at(rt: &impl Abort, held: &Held, place: u64) {
    match (held.queue.get(place), count_at(held, place)) {
        (Some(entry), Some(count)) => is_entry(rt, entry, place, count),
        (found, want) => same(rt, found.is_some(), want.is_some()),
    }
}

// A call that a number names.
fn act(rt: &impl Abort, alloc: Global, held: &mut Held, number: u64) {
    let kind = below(number, 9);
    let count = below(drawn(number), if kind < 6 { 20 } else { 257 });
    if held.next < 24 && kind % 3 < 2 {
        push(rt, alloc, held, count);
    } else {
        let back = u64::from(count % 4);
        advance(held, held.first.saturating_add(back).saturating_sub(1));
    }
    for place in 0..26 {
        check_at(rt, held, place);
    }
}

fn play(rt: &impl Abort, alloc: Global, seed: u64, calls: u32) {
    let mut held = new(rt, alloc);
    let mut number = seed;
    for _ in 0..calls {
        number = drawn(drawn(number));
        act(rt, alloc, &mut held, number);
    }
    advance(&mut held, u64::MAX);
    same(
        rt,
        full_of(&held),
        Full {
            writes: 0,
            blocks: 0,
        },
    );
    check_at(rt, &held, 0);
}

#[test]
fn rows_of_calls_hold_the_entries_that_came_and_have_not_gone(rt: HostRuntime) {
    let alloc = rt.alloc();
    for seed in [1, 7, 42, 77_777] {
        play(&rt, alloc, seed, 30);
    }
}
