// The disks of a receiver, and how it is found on them.
ghost use Rattle.std.specs.Prelude.{◌≡◌, ◌∷◌, [], length};
ghost use Rattle.avs_dev.specs.Bare.{below_of};
ghost use Rattle.avs_halves.specs.Over.{AreLoadable};
ghost use Rattle.avs_receiver_plain.specs.Sized.{ArePartsSized, AreTwo, AreThree};

use avs_bits::Bits;
use avs_dev::{Arm, Back, Bare, Below, Disk, MemDisk, Tear, Why};
use avs_land::Land;
use avs_model::{HalfRole, Host, State};
use avs_receiver_plain::calls::{Half, Parts};
use avs_receiver_plain::plain::{Plain, SIZES, SLOTS, VOLS};
use avs_receiver_plain::steps::Spot;
use avs_seg::BLOCK;
use avs_sync::{HalfParts, HalfSet, HalfSets, Note};
use std::alloc::Global;
use std::fmt::Debug;
use std::process::Abort;

/// How many blocks the spare volume has, and a landing volume.
pub const SPARE_BLOCKS: u32 = 3;

pub const LANDING: u32 = 514;

pub fn same<T: PartialEq + Debug + Drop>(rt: &impl Abort, found: T, want: T) {
    assert_eq!(rt; found, want);
}

/// The disks of a receiver: of the note, of the volumes of its two sets and of the spare one, of the bitmaps, of a queue,
/// which is only kept, and of what lands.
#[derive(Drop)]
pub struct Disks {
    pub host: Host,
    pub state: MemDisk,
    pub first: MemDisk,
    pub second: MemDisk,
    pub spare: MemDisk,
    pub first_bits: MemDisk,
    pub second_bits: MemDisk,
    pub queue: Option<MemDisk>,
    pub land: MemDisk,
}

/// A disk of zeros.
pub fn disk(rt: &impl Abort, alloc: Global, blocks: u32) -> MemDisk {
    MemDisk::new(alloc, blocks, Vec::new(alloc)).expect(rt, "a disk")
}

/// The bitmap of a volume of so many blocks, without bits.
pub fn bitmap(rt: &impl Abort, alloc: Global, blocks: u32) -> MemDisk {
    bitmap_on(rt, alloc, disk(rt, alloc, 2), blocks)
}

/// The same on a disk.
pub fn bitmap_on(rt: &impl Abort, alloc: Global, disk: MemDisk, blocks: u32) -> MemDisk {
    match Bits::make(alloc, disk, blocks, false, 0) {
        Ok(bits) => bits.into_disk(),
        Err(_) => panic!(rt; "a bitmap"),
    }
}

/// A landing volume on which nothing has landed.
pub fn landing(rt: &impl Abort, alloc: Global) -> MemDisk {
    landing_on(rt, alloc, disk(rt, alloc, LANDING))
}

/// The same on a disk.
pub fn landing_on(rt: &impl Abort, alloc: Global, disk: MemDisk) -> MemDisk {
    match Land::make(alloc, disk) {
        Ok(land) => land.into_disk(),
        Err(_) => panic!(rt; "a landing volume"),
    }
}

/// What lies below, with no volume.
pub fn opened(rt: &impl Abort, alloc: Global, state: MemDisk) -> Bare<MemDisk> {
    assert!(rt; state.blocks() >= 2);
    match Bare::new(alloc, state) {
        Ok(bare) => bare,
        Err(_) => panic!(rt; "a state disk"),
    }
}

fn role_byte(role: HalfRole) -> u8 {
    match role {
        HalfRole::Lone => 0,
        HalfRole::Sender => 1,
        HalfRole::Receiver => 2,
    }
}

fn state_byte(state: State) -> u8 {
    match state {
        State::Logging => 0,
        State::Syncing | State::Receiving => 1,
        State::Replicating => 2,
        State::Queuing => 3,
    }
}

/// A state disk with a note, byte by byte.
pub fn state_with(rt: &impl Abort, alloc: Global, note: Note) -> MemDisk {
    let mut block = [0; BLOCK];
    block[400..408].copy_from_slice(&note.session.to_be_bytes());
    block[408] = role_byte(note.role);
    block[409] = state_byte(note.state);
    block[410..412].copy_from_slice(&note.empty.to_be_bytes());
    block[412] = note.reverse as u8;
    block[416..424].copy_from_slice(&note.mark.to_be_bytes());
    let mut state = disk(rt, alloc, 2);
    assert!(rt; 1 < state.blocks());
    assert!(rt; state.write(1, &block).is_ok());
    state
}

/// New disks: the half was in no session.
pub fn new_disks(rt: &impl Abort, alloc: Global, host: Host) -> Disks {
    Disks {
        host,
        state: state_with(rt, alloc, Plain::new(host).note()),
        first: disk(rt, alloc, SIZES[0]),
        second: disk(rt, alloc, SIZES[1]),
        spare: disk(rt, alloc, SPARE_BLOCKS),
        first_bits: bitmap(rt, alloc, SIZES[0]),
        second_bits: bitmap(rt, alloc, SIZES[1]),
        queue: Some(disk(rt, alloc, 1)),
        land: landing(rt, alloc),
    }
}

// The second set lies on volume 0, and the first one on volume 2.
fn below(rt: &impl Abort, alloc: Global, state: MemDisk, volumes: [MemDisk; 3]) -> Bare<MemDisk>
    ensures { AreThree 72 6 (below_of result) }
{
    let [second, spare, first] = volumes;
    let mut bare = opened(rt, alloc, state);
    assert!(rt; bare.add(second).is_ok());
    assert!(rt; bare.add(spare).is_ok());
    assert!(rt; bare.add(first).is_ok());
    assert!(rt; bare.count() == 3);
    assert!(rt; bare.size(0) == SIZES[1] && bare.size(2) == SIZES[0]);
    bare
}

fn sets(rt: &impl Abort, alloc: Global, first: MemDisk, second: MemDisk) -> HalfSets<MemDisk>
    ensures { AreTwo result }
{
    let first = HalfSet {
        vol: 2,
        slot: SLOTS[0],
        bits: first,
    };
    let second = HalfSet {
        vol: 0,
        slot: SLOTS[1],
        bits: second,
    };
    HalfSets::new(Vec::from_array(alloc, [first, second]).expect(rt, "memory"))
}

/// The parts of a half on these disks.
fn parts(rt: &impl Abort, alloc: Global, disks: Disks) -> Parts
    ensures loadable { AreLoadable (below_of result.below) result.sets }
    ensures sized { ArePartsSized (72 ∷ 6 ∷ []) (2 ∷ 0 ∷ []) (below_of result.below) result.sets }
{
    let Disks {
        host,
        state,
        first,
        second,
        spare,
        first_bits,
        second_bits,
        queue,
        land,
    } = disks;
    HalfParts {
        host,
        below: below(rt, alloc, state, [second, spare, first]),
        sets: sets(rt, alloc, first_bits, second_bits),
        queue,
        land,
    }
}

fn bitmaps(rt: &impl Abort, sets: HalfSets<MemDisk>) -> (MemDisk, MemDisk) {
    let mut sets = sets.into_vec();
    match (sets.pop(), sets.pop(), sets.pop()) {
        (Some(second), Some(first), None) => {
            same(rt, [first.slot, second.slot], SLOTS);
            (first.bits, second.bits)
        }
        _ => panic!(rt; "two bitmaps"),
    }
}

/// The disks that parts consist of.
pub fn apart(rt: &impl Abort, parts: Parts) -> Disks {
    let HalfParts {
        host,
        below,
        sets,
        queue,
        land,
    } = parts;
    let (first_bits, second_bits) = bitmaps(rt, sets);
    let (state, mut volumes) = below.into_parts();
    match (volumes.pop(), volumes.pop(), volumes.pop()) {
        (Some(first), Some(spare), Some(second)) => Disks {
            host,
            state,
            first,
            second,
            spare,
            first_bits,
            second_bits,
            queue,
            land,
        },
        _ => panic!(rt; "three volumes"),
    }
}

/// The receiver on these disks, or they are handed back with the cause.
pub fn load(rt: &impl Abort, alloc: Global, disks: Disks) -> Result<Half, (Disks, Why)> {
    let sizes = Vec::from_array(alloc, SIZES).expect(rt, "memory");
    let vols = Vec::from_array(alloc, VOLS).expect(rt, "memory");
    match Half::load(alloc, parts(rt, alloc, disks), sizes, vols) {
        Ok(half) => Ok(half),
        Err(Back { parts, why }) => Err((apart(rt, parts), why)),
    }
}

/// A disk by its name.
pub fn disk_at(disks: &mut Disks, spot: Spot) -> &mut MemDisk {
    match spot {
        Spot::State => &mut disks.state,
        Spot::Volume(0) => &mut disks.first,
        Spot::Volume(_) => &mut disks.second,
        Spot::Bitmap(0) => &mut disks.first_bits,
        Spot::Bitmap(_) => &mut disks.second_bits,
        Spot::Landing => &mut disks.land,
    }
}

/// Arms a tear.
pub fn arm(rt: &impl Abort, disks: &mut Disks, spot: Spot, tear: Tear) {
    assert!(rt; disk_at(disks, spot).arm(tear));
}

/// A block of a disk.
pub fn block(rt: &impl Abort, disk: &mut MemDisk, at: u32) -> [u8; BLOCK] {
    let mut block = [0; BLOCK];
    assert!(rt; at < disk.blocks());
    assert!(rt; disk.read(at, &mut block).is_ok());
    block
}

/// Gives a block of a disk another byte at a place, and answers the one that was there.
pub fn alter(rt: &impl Abort, disk: &mut MemDisk, at: u32, place: usize, byte: u8) -> u8 {
    let mut block = block(rt, disk, at);
    assert!(rt; place < BLOCK);
    let old = block[place];
    block[place] = byte;
    assert!(rt; at < disk.blocks());
    assert!(rt; disk.write(at, &block).is_ok());
    old
}
