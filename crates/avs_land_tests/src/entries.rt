// Entries that land, and what is done of them below.
ghost use Rattle.std.specs.Prelude.{◌≡◌, ◌<◌, ◌≤◌, length};
ghost use Rattle.avs_land.specs.Landed.{IsEntry};

use crate::volumes::{disk, same};
use avs_dev::{Bare, Below, Disk, MemDisk};
use avs_land::Land;
use avs_model::{Blocks, Entry, EntryKind};
use avs_seg::{BLOCK, Span};
use std::alloc::Global;
use std::process::Abort;

/// An entry: its kind, its place, its first block, how many blocks it has, and the byte that they are filled with.
#[derive(Clone, Copy, Debug, PartialEq, Eq)]
pub enum Put {
    Write(u64, u32, usize, u8),
    Copy(u64, u32, usize, u8),
    Mark(u64),
}

fn blocks(rt: &impl Abort, alloc: Global, count: usize, byte: u8) -> Blocks
    requires { count ≤ 256 }
    ensures { length result ≡ count }
{
    let blocks = Blocks::new(vec![in alloc; byte; BLOCK * count].expect(rt, "memory"));
    assert!(rt; blocks.as_slice().len() == BLOCK * count);
    blocks
}

fn write_of(rt: &impl Abort, alloc: Global, at: u32, count: usize, byte: u8) -> Entry
    requires some { 0 < count }
    requires few { count ≤ 256 }
    ensures { IsEntry result }
{
    Entry {
        kind: EntryKind::Write,
        set: 1,
        at,
        bytes: blocks(rt, alloc, count, byte),
    }
}

fn copy_of(rt: &impl Abort, alloc: Global, at: u32, count: usize, byte: u8) -> Entry
    requires some { 0 < count }
    requires few { count ≤ 64 }
    ensures { IsEntry result }
{
    Entry {
        kind: EntryKind::Copied,
        set: 1,
        at,
        bytes: blocks(rt, alloc, count, byte),
    }
}

fn mark_of(rt: &impl Abort, alloc: Global) -> Entry
    ensures { IsEntry result }
{
    Entry {
        kind: EntryKind::Mark,
        set: 0,
        at: 0,
        bytes: blocks(rt, alloc, 0, 0),
    }
}

fn land_entry(
    rt: &impl Abort,
    land: &mut Land<MemDisk>,
    session: u64,
    place: u64,
    entry: &Entry,
) -> bool
    requires { IsEntry entry.now }
{
    assert!(rt; session <= 1 << 62 && place <= 1 << 62);
    land.land(session, place, entry).is_ok()
}

/// Whether an entry of a session has landed.
pub fn land(
    rt: &impl Abort,
    alloc: Global,
    land: &mut Land<MemDisk>,
    session: u64,
    put: Put,
) -> bool {
    match put {
        Put::Write(place, at, count, byte) => {
            assert!(rt; 0 < count && count <= 256);
            let entry = write_of(rt, alloc, at, count, byte);
            land_entry(rt, land, session, place, &entry)
        }
        Put::Copy(place, at, count, byte) => {
            assert!(rt; 0 < count && count <= 64);
            let entry = copy_of(rt, alloc, at, count, byte);
            land_entry(rt, land, session, place, &entry)
        }
        Put::Mark(place) => {
            let entry = mark_of(rt, alloc);
            land_entry(rt, land, session, place, &entry)
        }
    }
}

fn span_of(at: u32, count: usize) -> Span {
    let len = u32::try_from(count).unwrap_or(0);
    Span { at, len }
}

// What an entry is when it is found: its place, its kind, its set and its range.
fn found(put: Put) -> (u64, EntryKind, u32, Span) {
    match put {
        Put::Write(place, at, count, _) => (place, EntryKind::Write, 1, span_of(at, count)),
        Put::Copy(place, at, count, _) => (place, EntryKind::Copied, 1, span_of(at, count)),
        Put::Mark(place) => (place, EntryKind::Mark, 0, span_of(0, 0)),
    }
}

/// Two volumes below, of 8 blocks and of 300.
pub fn below(rt: &impl Abort, alloc: Global) -> Bare<MemDisk> {
    let state = disk(rt, alloc, 2, &[]);
    assert!(rt; state.blocks() >= 2);
    let mut bare = match Bare::new(alloc, state) {
        Ok(bare) => bare,
        Err(_) => panic!(rt; "below"),
    };
    assert!(rt; bare.add(disk(rt, alloc, 8, &[])).is_ok());
    assert!(rt; bare.add(disk(rt, alloc, 300, &[])).is_ok());
    bare
}

/// On the volume this entry has landed, of that session, or nothing has.
pub fn shows(rt: &impl Abort, land: &Land<MemDisk>, want: Option<(u64, Put)>) {
    match want {
        None => {
            same(rt, land.settled(), None);
            same(rt, land.landed(), None);
        }
        Some((session, put)) => {
            let (place, kind, set, span) = found(put);
            same(rt, land.settled(), Some((session, place)));
            same(rt, land.landed(), Some((kind, set, span)));
        }
    }
}

/// Does the entry that has landed below once more.
pub fn redo(rt: &impl Abort, land: &mut Land<MemDisk>, below: &mut Bare<MemDisk>) -> bool {
    assert!(rt; land.has_room(below, &[0, 1]));
    land.redo(below, &[0, 1]).is_ok()
}

/// The byte that a block of the second volume below has throughout.
pub fn byte_at(rt: &impl Abort, below: &mut Bare<MemDisk>, at: u32) -> u8 {
    let mut block = [0xee; BLOCK];
    assert!(rt; 1 < below.count());
    assert!(rt; at < below.size(1));
    assert!(rt; below.read(1, at, &mut block).is_ok());
    let first = block[0];
    assert!(rt; block.iter().all(|byte| *byte == first));
    first
}

/// The entry stands below, in its range alone.
pub fn stands(rt: &impl Abort, below: &mut Bare<MemDisk>, put: Put) {
    match put {
        Put::Mark(_) => same(rt, byte_at(rt, below, 0), 0),
        Put::Write(_, at, count, byte) | Put::Copy(_, at, count, byte) => {
            assert!(rt; at < 1000 && count < 1000);
            same(rt, byte_at(rt, below, at), byte);
            assert!(rt; 0 < count);
            same(rt, byte_at(rt, below, at + count as u32 - 1), byte);
            same(rt, byte_at(rt, below, at + count as u32), 0);
        }
    }
}

#[test]
fn a_copy_of_an_entry_is_the_same_entry(rt: HostRuntime) {
    let alloc = rt.alloc();
    let entry = write_of(&rt, alloc, 3, 2, 0x11);
    let copy = entry.copy(alloc).expect(&rt, "memory");
    same(
        &rt,
        (copy.kind, copy.set, copy.at),
        (EntryKind::Write, 1, 3),
    );
    assert!(rt; copy.bytes.as_slice() == [0x11; 2 * BLOCK].as_slice());
}
