// Calls on a set of any kind. Each answers `Barred` where it may not be called.
ghost use Rattle.std.specs.Prelude.{◌≡◌, ℕ, ◌<◌, ◌≤◌, IsTrue};
ghost use Rattle.avs_entries.specs.Entries.{state_by, split};
ghost use Rattle.avs_compact.specs.CompactSet.{chunks_of, entry_of};

use crate::plain::{Image, Stands};
use avs_chunks::{ChunkState as Whole, Chunks};
use avs_compact::{ChunkState as Small, Compact, CompactFault};
use avs_dev::{Disk, MemDisk};
use avs_model::Kind;
use avs_over::Over;
use avs_seg::{BLOCK, Failed, SEGMENT, seg_count};

/// A set: its shadow is as large as its master, or it is compact.
#[derive(Drop)]
pub enum Set {
    Whole(Chunks<MemDisk>),
    Small(Compact<MemDisk>),
}

/// What sets stand over: the master's disk and what its blocks are to be, and the overflow volume.
#[derive(Drop)]
pub struct Below {
    pub master: MemDisk,
    pub image: Image,
    pub over: Option<Over<MemDisk>>,
}

/// What came of a call.
#[derive(Clone, Copy, Debug, PartialEq, Eq, Drop)]
pub enum Came {
    Done,
    Copied(Option<u32>),
    /// The slots that the set would need, and its room.
    Offline(u32, u32),
    Failed,
    Barred,
}

pub(crate) fn done(answer: Result<(), Failed>) -> Came {
    match answer {
        Ok(()) => Came::Done,
        Err(Failed) => Came::Failed,
    }
}

fn outcome(answer: Result<(), CompactFault>) -> Came {
    match answer {
        Ok(()) => Came::Done,
        Err(CompactFault::Offline { need, slots }) => Came::Offline(need, slots),
        Err(CompactFault::Failed) => Came::Failed,
    }
}

fn copied(answer: Result<Option<u32>, Failed>) -> Came {
    match answer {
        Ok(chunk) => Came::Copied(chunk),
        Err(Failed) => Came::Failed,
    }
}

fn save_one(set: &mut Chunks<MemDisk>, below: &mut Below, chunk: u32) -> Came {
    if !set.can_save() || below.master.blocks() != set.blocks() || chunk >= set.chunks() {
        return Came::Barred;
    }
    done(set.save_before(&mut below.master, chunk))
}

fn save_whole(set: &mut Chunks<MemDisk>, below: &mut Below, (first, end): (u32, u32)) -> Came {
    if !set.can_save() || below.master.blocks() != set.blocks() {
        return Came::Barred;
    }
    if first > end || end > set.chunks() {
        return Came::Barred;
    }
    done(set.save_range(&mut below.master, first, end))
}

fn save_small(set: &mut Compact<MemDisk>, below: &mut Below, (first, end): (u32, u32)) -> Came {
    if first > end || end > set.chunks() || below.master.blocks() != set.blocks() {
        return Came::Barred;
    }
    if !set.has_shadow() || !set.is_served(&below.over) {
        return Came::Barred;
    }
    outcome(set.save_before(&mut below.master, &mut below.over, first, end - first))
}

/// Saves the chunks from one up to another.
pub fn save(set: &mut Set, below: &mut Below, range: (u32, u32)) -> Came {
    match set {
        Set::Whole(set) => save_whole(set, below, range),
        Set::Small(set) => save_small(set, below, range),
    }
}

fn save_whole_each(set: &mut Chunks<MemDisk>, below: &mut Below, range: (u32, u32)) -> Came {
    for chunk in range.0..range.1 {
        let came = save_one(set, below, chunk);
        if came != Came::Done {
            return came;
        }
    }
    Came::Done
}

/// The same: of a set that is not compact by a call each.
pub fn save_each(set: &mut Set, below: &mut Below, range: (u32, u32)) -> Came {
    match set {
        Set::Whole(set) => save_whole_each(set, below, range),
        Set::Small(set) => save_small(set, below, range),
    }
}

fn bring_whole(set: &mut Chunks<MemDisk>, below: &mut Below, chunk: u32) -> Came {
    if !set.can_save() || below.master.blocks() != set.blocks() || chunk >= set.chunks() {
        return Came::Barred;
    }
    let now = set.state(chunk);
    if now == Whole::OnShadow || (now == Whole::OnMaster && set.kind() == Kind::Ind) {
        return done(set.settle(&mut below.master, chunk, Whole::OnBoth));
    }
    Came::Done
}

fn bring_small(set: &mut Compact<MemDisk>, below: &mut Below, chunk: u32) -> Came {
    if chunk >= set.chunks() || below.master.blocks() != set.blocks() {
        return Came::Barred;
    }
    if !set.has_shadow() || !set.is_served(&below.over) {
        return Came::Barred;
    }
    done(set.bring_back(&mut below.master, &mut below.over, chunk))
}

/// Copies a chunk that is to be copied. Any other is left alone.
pub fn bring(set: &mut Set, below: &mut Below, chunk: u32) -> Came {
    match set {
        Set::Whole(set) => bring_whole(set, below, chunk),
        Set::Small(set) => bring_small(set, below, chunk),
    }
}

fn copy_small(set: &mut Compact<MemDisk>, below: &mut Below) -> Came {
    if below.master.blocks() != set.blocks() {
        return Came::Barred;
    }
    if !set.has_shadow() || !set.is_served(&below.over) {
        return Came::Barred;
    }
    copied(set.copy_one(&mut below.master, &mut below.over))
}

/// One copy step.
pub fn copy(set: &mut Set, below: &mut Below) -> Came {
    match set {
        Set::Whole(set) if !set.has_shadow() || below.master.blocks() != set.blocks() => {
            Came::Barred
        }
        Set::Whole(set) => copied(set.copy_one(&mut below.master)),
        Set::Small(set) => copy_small(set, below),
    }
}

fn write_whole(set: &mut Chunks<MemDisk>, below: &mut Below, at: u32, bytes: &[u8]) -> Came {
    let count = bytes.len() / BLOCK;
    if count == 0 || bytes.len() != BLOCK * count || count > 4096 || at >= 1 << 30 {
        return Came::Barred;
    }
    if !set.has_shadow() || below.master.blocks() != set.blocks() {
        return Came::Barred;
    }
    if at + count as u32 > set.blocks() {
        return Came::Barred;
    }
    done(set.write(&mut below.master, at, bytes))
}

fn write_small(set: &mut Compact<MemDisk>, below: &mut Below, at: u32, bytes: &[u8]) -> Came {
    let count = bytes.len() / BLOCK;
    if count == 0 || bytes.len() != BLOCK * count || count > 4096 || at >= 1 << 30 {
        return Came::Barred;
    }
    if at + count as u32 > set.blocks() || below.master.blocks() != set.blocks() {
        return Came::Barred;
    }
    if !set.has_shadow() || !set.is_served(&below.over) {
        return Came::Barred;
    }
    outcome(set.write(&mut below.master, &mut below.over, at, bytes))
}

/// Writes blocks of the shadow.
pub fn write(set: &mut Set, below: &mut Below, at: u32, bytes: &[u8]) -> Came {
    match set {
        Set::Whole(set) => write_whole(set, below, at, bytes),
        Set::Small(set) => write_small(set, below, at, bytes),
    }
}

fn put_whole(set: &mut Chunks<MemDisk>, at: u32, bytes: &[u8]) -> Came {
    let count = bytes.len() / BLOCK;
    if count == 0 || bytes.len() != BLOCK * count || count > 4096 || at >= 1 << 30 {
        return Came::Barred;
    }
    if !set.has_shadow() || at + count as u32 > set.blocks() {
        return Came::Barred;
    }
    done(set.put_shadow(at, bytes))
}

// Whether the chunks from one up to another are split.
fn are_split(set: &Compact<MemDisk>, first: u32, end: u32) -> bool
    requires { end ≤ chunks_of set.now }
    ensures { IsTrue result → (c : ℕ) → first ≤ c → c < end → state_by (entry_of set.now c) ≡ split }
{
    for chunk in first..end {
        if set.state(chunk) != Small::Split {
            return false;
        }
    }
    true
}

fn put_small(set: &mut Compact<MemDisk>, below: &mut Below, at: u32, bytes: &[u8]) -> Came {
    let count = bytes.len() / BLOCK;
    if count == 0 || bytes.len() != BLOCK * count || count > 4096 || at >= 1 << 30 {
        return Came::Barred;
    }
    if at + count as u32 > set.blocks() {
        return Came::Barred;
    }
    let end = seg_count(at + count as u32);
    if end > set.chunks() || !are_split(set, at / SEGMENT, end) {
        return Came::Barred;
    }
    if !set.has_shadow() || !set.is_served(&below.over) {
        return Came::Barred;
    }
    done(set.put_shadow(&mut below.over, at, bytes))
}

/// Writes blocks of the shadow whose chunks are split.
pub fn put(set: &mut Set, below: &mut Below, at: u32, bytes: &[u8]) -> Came {
    match set {
        Set::Whole(set) => put_whole(set, at, bytes),
        Set::Small(set) => put_small(set, below, at, bytes),
    }
}

fn read_whole(set: &mut Chunks<MemDisk>, below: &mut Below, at: u32, out: &mut [u8]) -> Came {
    let count = out.len() / BLOCK;
    if count == 0 || out.len() != BLOCK * count || count > 4096 || at >= 1 << 30 {
        return Came::Barred;
    }
    if !set.has_shadow() || below.master.blocks() != set.blocks() {
        return Came::Barred;
    }
    if at + count as u32 > set.blocks() {
        return Came::Barred;
    }
    done(set.read(&mut below.master, at, out))
}

fn read_small(set: &mut Compact<MemDisk>, below: &mut Below, at: u32, out: &mut [u8]) -> Came {
    let count = out.len() / BLOCK;
    if count == 0 || out.len() != BLOCK * count || count > 4096 || at >= 1 << 30 {
        return Came::Barred;
    }
    if at + count as u32 > set.blocks() || below.master.blocks() != set.blocks() {
        return Came::Barred;
    }
    if !set.has_shadow() || !set.is_served(&below.over) {
        return Came::Barred;
    }
    done(set.read(&mut below.master, &mut below.over, at, out))
}

/// Reads blocks of the shadow.
pub fn read(set: &mut Set, below: &mut Below, at: u32, out: &mut [u8]) -> Came {
    match set {
        Set::Whole(set) => read_whole(set, below, at, out),
        Set::Small(set) => read_small(set, below, at, out),
    }
}

fn of_whole(state: Whole) -> Stands {
    match state {
        Whole::OnMaster => Stands::OnMaster,
        Whole::OnBoth => Stands::OnBoth,
        Whole::Split => Stands::Split,
        Whole::OnShadow => Stands::OnShadow,
    }
}

fn of_small(state: Small) -> Stands {
    match state {
        Small::OnMaster => Stands::OnMaster,
        Small::OnBoth => Stands::OnBoth,
        Small::Split => Stands::Split,
        Small::OnShadow => Stands::OnShadow,
    }
}

/// Where the contents of a chunk stand, if it is one of the set.
pub fn state(set: &Set, chunk: u32) -> Option<Stands> {
    match set {
        Set::Whole(set) if chunk < set.chunks() => Some(of_whole(set.state(chunk))),
        Set::Small(set) if chunk < set.chunks() => Some(of_small(set.state(chunk))),
        _ => None,
    }
}

/// How many chunks are left, stand on the shadow alone, and are split.
pub fn sizes(set: &Set) -> (u32, u32, u32) {
    match set {
        Set::Whole(set) => (set.left(), set.back(), set.moved()),
        Set::Small(set) => (set.left(), set.back(), set.moved()),
    }
}

/// The chunks of the first part that are split.
pub fn moved_part(set: &Set, out: &mut [u8; 256]) -> Came {
    match set {
        Set::Whole(set) if 0 < set.chunks() => done(set.moved_part(0, out)),
        Set::Small(set) if 0 < set.chunks() => done(set.moved_part(0, out)),
        _ => Came::Barred,
    }
}

/// The slots that a compact set needs, and its room.
pub fn slots(set: &Set, below: &Below) -> Option<(u32, u32)> {
    match set {
        Set::Whole(_) => None,
        Set::Small(set) => Some((set.need(), set.room(&below.over))),
    }
}

/// How many chunks of a list have no slot, of a compact set.
pub fn lacks(set: &Set, split: &[u8; 256]) -> Option<u32> {
    match set {
        Set::Small(set) if 0 < set.chunks() => set.lacks(0, split).ok(),
        _ => None,
    }
}
