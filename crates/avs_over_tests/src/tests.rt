// What an overflow volume gives out, keeps, and finds again.
use avs_dev::{Arm, Disk, MemDisk, Tear, Why};
use avs_over::Over;
use avs_seg::BLOCK;
use std::alloc::Global;
use std::fmt::Debug;
use std::process::Abort;

fn same<T: PartialEq + Debug + Drop>(rt: &impl Abort, found: T, want: T) {
    assert_eq!(rt; found, want);
}

fn disk(rt: &impl Abort, alloc: Global, blocks: u32) -> MemDisk {
    MemDisk::new(alloc, blocks, Vec::new(alloc)).expect(rt, "a disk")
}

fn make(rt: &impl Abort, alloc: Global, disk: MemDisk) -> Over<MemDisk> {
    assert!(rt; disk.blocks() > 0);
    match Over::make(alloc, disk) {
        Ok(over) => over,
        Err(_) => panic!(rt; "made"),
    }
}

// One call, and what it is to answer.
#[derive(Clone, Copy)]
enum Step {
    Take(u32, Option<u32>),
    Release(u32),
    Used(u32),
    // A slot, a block of it, how many blocks, and the byte in them.
    Write(u32, u32, usize, u8),
    Fails(u32, u32, usize, u8),
    Byte(u32, u32, u8),
    // The writes to skip, and the blocks of the one that fails that are stored.
    Tear(u32, u32, u32),
}

fn write(
    rt: &impl Abort,
    over: &mut Over<MemDisk>,
    slot: u32,
    at: u32,
    blocks: usize,
    byte: u8,
) -> bool {
    let bytes = [byte; 4 * BLOCK];
    assert!(rt; slot < over.slots() && 0 < blocks && blocks <= 4 && at <= 60);
    over.write(slot, at, &bytes[..BLOCK * blocks]).is_ok()
}

fn byte(rt: &impl Abort, over: &mut Over<MemDisk>, slot: u32, at: u32) -> u8 {
    let mut block = [0; BLOCK];
    assert!(rt; slot < over.slots() && at < 64);
    match over.read(slot, at, &mut block) {
        Ok(()) => block[0],
        Err(_) => 255,
    }
}

fn act(rt: &impl Abort, over: &mut Over<MemDisk>, step: Step) {
    match step {
        Step::Take(set, want) => same(rt, over.take(set), want),
        Step::Release(set) => over.release_set(set),
        Step::Used(want) => same(rt, over.used(), want),
        Step::Write(slot, at, blocks, byte) => same(
            rt,
            write(rt, over, slot, at, blocks, byte),
            true,
        ),
        Step::Fails(slot, at, blocks, byte) => same(
            rt,
            write(rt, over, slot, at, blocks, byte),
            false,
        ),
        Step::Byte(slot, at, want) => same(rt, byte(rt, over, slot, at), want),
        Step::Tear(skip, from, count) => same(rt, over.arm(0, Tear { skip, from, count }), true),
    }
}

fn play(rt: &impl Abort, over: &mut Over<MemDisk>, steps: &[Step]) {
    for step in steps {
        act(rt, over, *step);
    }
}

// What `load` answers for a disk and a list of slots that are given: how many are used, or why it is refused.
fn loads(
    rt: &impl Abort,
    alloc: Global,
    disk: MemDisk,
    taken: &[(u32, u32)],
    want: Result<u32, Why>,
) {
    match Over::load(alloc, disk, taken) {
        Ok(over) => same(rt, Ok(over.used()), want),
        Err(back) => same(rt, Err(back.why), want),
    }
}

// Steps on a new volume, and steps on what `load` makes of its disk.
fn story(rt: &impl Abort, alloc: Global, before: &[Step], taken: &[(u32, u32)], behind: &[Step]) {
    let mut over = make(rt, alloc, disk(rt, alloc, 256));
    play(rt, &mut over, before);
    match Over::load(alloc, over.into_disk(), taken) {
        Ok(mut over) => play(rt, &mut over, behind),
        Err(_) => panic!(rt; "found"),
    }
}

#[test]
fn slots_are_given_once_from_the_least_on(rt: HostRuntime) {
    let before = [
        Step::Used(0),
        Step::Take(7, Some(0)),
        Step::Take(9, Some(1)),
        Step::Take(7, Some(2)),
        Step::Used(3),
        Step::Take(9, None),
        Step::Release(7),
        Step::Used(1),
        Step::Take(3, Some(0)),
        Step::Release(8),
        Step::Used(2),
    ];
    let behind = [
        Step::Used(2),
        Step::Take(4, Some(2)),
        Step::Take(4, None),
        Step::Release(3),
        Step::Take(5, Some(0)),
    ];
    story(&rt, rt.alloc(), &before, &[(3, 0), (9, 1)], &behind);
}

#[test]
fn a_disk_of_one_block_more_has_a_slot_more(rt: HostRuntime) {
    for (blocks, slots) in [(1, 0), (64, 0), (65, 1), (128, 1), (129, 2)] {
        same(
            &rt,
            make(&rt, rt.alloc(), disk(&rt, rt.alloc(), blocks)).slots(),
            slots,
        );
    }
}

#[test]
fn blocks_of_a_slot_stay_apart_from_those_of_another(rt: HostRuntime) {
    let before = [
        Step::Write(1, 0, 1, 11),
        Step::Write(1, 60, 4, 12),
        Step::Byte(0, 63, 0),
        Step::Byte(1, 0, 11),
        Step::Byte(1, 1, 0),
        Step::Byte(1, 63, 12),
        Step::Byte(2, 0, 0),
    ];
    let behind = [Step::Byte(1, 0, 11), Step::Byte(1, 60, 12)];
    story(&rt, rt.alloc(), &before, &[], &behind);
}

#[test]
fn a_torn_write_leaves_old_or_new_blocks(rt: HostRuntime) {
    let before = [
        Step::Write(0, 8, 4, 1),
        Step::Tear(1, 1, 2),
        Step::Write(1, 8, 4, 3),
        Step::Fails(0, 8, 4, 2),
        Step::Byte(0, 8, 1),
        Step::Byte(0, 9, 2),
        Step::Byte(0, 11, 1),
        Step::Tear(0, 0, 0),
        Step::Fails(1, 8, 4, 4),
    ];
    let behind = [
        Step::Byte(0, 10, 2),
        Step::Byte(1, 8, 3),
        Step::Byte(1, 12, 0),
    ];
    story(&rt, rt.alloc(), &before, &[(1, 1)], &behind);
}

#[test]
fn a_list_names_slots_that_are_there_each_once(rt: HostRuntime) {
    let bad = Err(Why::BadRecord(64));
    loads(
        &rt,
        rt.alloc(),
        make(&rt, rt.alloc(), disk(&rt, rt.alloc(), 256)).into_disk(),
        &[(1, 2), (1, 0)],
        Ok(2),
    );
    loads(
        &rt,
        rt.alloc(),
        make(&rt, rt.alloc(), disk(&rt, rt.alloc(), 256)).into_disk(),
        &[(1, 3)],
        bad,
    );
    loads(
        &rt,
        rt.alloc(),
        make(&rt, rt.alloc(), disk(&rt, rt.alloc(), 256)).into_disk(),
        &[(1, 2), (2, 2)],
        bad,
    );
    loads(
        &rt,
        rt.alloc(),
        disk(&rt, rt.alloc(), 256),
        &[],
        Err(Why::BadRecord(0)),
    );
    loads(&rt, rt.alloc(), disk(&rt, rt.alloc(), 0), &[], bad);
}

// A disk whose label was not written, or was.
fn torn_label(rt: &impl Abort, alloc: Global, count: u32, want: Result<u32, Why>) {
    let mut torn = disk(rt, alloc, 256);
    let _ = avs_dev::Arm::arm(
        &mut torn,
        Tear {
            skip: 0,
            from: 0,
            count,
        },
    );
    assert!(rt; torn.blocks() > 0);
    match Over::make(alloc, torn) {
        Ok(_) => panic!(rt; "torn"),
        Err(back) => {
            same(rt, back.why, Why::Fault);
            loads(rt, alloc, back.parts, &[], want);
        }
    }
}

#[test]
fn a_label_is_there_or_not(rt: HostRuntime) {
    torn_label(&rt, rt.alloc(), 0, Err(Why::BadRecord(0)));
    torn_label(&rt, rt.alloc(), 1, Ok(0));
}

// The next number of a row.
fn next(seed: &mut u64) -> u32 {
    *seed = seed
        .wrapping_mul(6364136223846793005)
        .wrapping_add(1442695040888963407);
    (*seed >> 33) as u32
}

// How many slots the volume of random calls has.
const SLOTS: u32 = 8;

// A volume by a plain table and a whole image: 0 stands for a free slot, and each block has one byte throughout.
#[derive(Clone, Copy)]
struct Plain {
    owners: [u32; 8],
    image: [u8; 512],
}

impl Plain {
    fn take(&mut self, set: u32) -> Option<u32> {
        for slot in 0..8 {
            if self.owners[slot] == 0 {
                self.owners[slot] = set;
                return Some(slot as u32);
            }
        }
        None
    }

    fn release(&mut self, set: u32) {
        for slot in 0..8 {
            if self.owners[slot] == set {
                self.owners[slot] = 0;
            }
        }
    }

    fn used(&self) -> u32 {
        self.owners.iter().filter(|owner| **owner != 0).count() as u32
    }

    // The byte in a block of a slot.
    fn byte(&self, slot: u32, at: u32) -> u8 {
        self.image[(64 * (slot % 8) + at % 64) as usize]
    }

    // Blocks of a slot are written.
    fn put(&mut self, slot: u32, at: u32, count: u32, byte: u8) {
        for place in 0..64 {
            if at <= place && place - at < count {
                self.image[(64 * (slot % 8) + place) as usize] = byte;
            }
        }
    }
}

// Blocks are written: where that fails each of them is old or new.
fn random_write(rt: &impl Abort, over: &mut Over<MemDisk>, plain: &mut Plain, number: u32) -> bool {
    let (slot, at) = (number % SLOTS, number / 8 % 61);
    let (count, value) = (number / 512 % 4 + 1, (number / 2_048 % 256) as u8);
    let is_done = write(rt, over, slot, at, count as usize, value);
    if is_done {
        plain.put(slot, at, count, value);
    } else {
        for place in at..at + count {
            let found = byte(rt, over, slot, place);
            assert!(rt; found == plain.byte(slot, place) || found == value);
            plain.put(slot, place, 1, found);
        }
    }
    is_done
}

fn random_step(rt: &impl Abort, over: &mut Over<MemDisk>, plain: &mut Plain, number: u32) -> bool {
    let set = number / 8 % 4 + 1;
    match number % 8 {
        0 => {
            over.release_set(set);
            plain.release(set);
        }
        1..=3 => same(rt, over.take(set), plain.take(set)),
        4 => {
            let tear = Tear {
                skip: number / 8 % 3,
                from: number / 32 % 3,
                count: number / 128 % 4,
            };
            same(rt, over.arm(0, tear), true);
        }
        _ => return random_write(rt, over, plain, number / 8),
    }
    same(rt, over.used(), plain.used());
    true
}

// The slots that are given, as pairs of the set and the slot.
fn pairs_of(rt: &impl Abort, alloc: Global, plain: &Plain) -> Vec<(u32, u32)> {
    let mut pairs = Vec::new(alloc);
    for slot in 0..8 {
        if plain.owners[slot] != 0 {
            pairs
                .push((plain.owners[slot], slot as u32))
                .expect(rt, "memory");
        }
    }
    pairs
}

// The whole image.
fn shows(rt: &impl Abort, over: &mut Over<MemDisk>, plain: &Plain) {
    for place in 0..512 {
        let found = byte(rt, over, place / 64, place % 64);
        assert!(rt; found == plain.byte(place / 64, place % 64));
    }
}

fn found_again(
    rt: &impl Abort,
    alloc: Global,
    over: Over<MemDisk>,
    plain: &Plain,
) -> Over<MemDisk> {
    match Over::load(alloc, over.into_disk(), &pairs_of(rt, alloc, plain)) {
        Ok(over) => over,
        Err(_) => panic!(rt; "found"),
    }
}

// After each write that stops, the volume is found again. Gives how many did.
fn random_steps(rt: &impl Abort, alloc: Global, mut seed: u64) -> u32 {
    let mut over = make(rt, alloc, disk(rt, alloc, 514));
    let mut plain = Plain {
        owners: [0; 8],
        image: [0; 512],
    };
    let mut stops: u32 = 0;
    for _ in 0..2_000 {
        if !random_step(rt, &mut over, &mut plain, next(&mut seed)) {
            over = found_again(rt, alloc, over, &plain);
            shows(rt, &mut over, &plain);
            stops = stops.saturating_add(1);
        }
    }
    shows(rt, &mut over, &plain);
    stops
}

#[test]
fn random_calls_agree_with_a_plain_reading(rt: HostRuntime) {
    for seed in [1, 2, 3] {
        let stops = random_steps(&rt, rt.alloc(), seed);
        assert!(&rt; stops > 50);
    }
}
