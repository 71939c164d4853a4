// A receiver over sets of known sizes, and each call on it.
ghost use Rattle.std.specs.Prelude.{◌≡◌, ◌+◌, ◌-◌, ◌*◌, ◌/◌, ◌^◌, ◌<◌, ◌≤◌, ◌∷◌, [], IfOk, IsTrue, false, length, slice_index};
ghost use Rattle.avs_dev.specs.Bare.{below_of};
ghost use Rattle.avs_mirrors.specs.Entries.{is_mark};
ghost use Rattle.avs_land.specs.Landed.{IsEntry};
ghost use Rattle.avs_halves.specs.Over.{AreLoadable};
ghost use Rattle.avs_receiver.specs.Held.{seen_of};
ghost use Rattle.avs_receiver_plain.specs.Sized.{ArePartsSized, IsSized, LieIn, ends};

use crate::errands::{Look, Restore, Scribble};
use crate::steps::{Came, Put, Range};
use avs_dev::{Back, Bare, MemDisk, Tear};
use avs_model::{Blocks, Entry, EntryKind, Refusal, State};
use avs_receiver::Receiver;
use avs_seg::{BLOCK, Failed, NoMemory, SegList};
use avs_sync::{HalfClosed, HalfParts, Session};
use std::alloc::Global;

/// What a half is made of, over disks in memory.
pub type Parts = HalfParts<MemDisk, Bare<MemDisk>>;

/// The parts of one, handed back.
pub type Closed = HalfClosed<MemDisk, Bare<MemDisk>>;

/// A receiver whose sets have volumes of these sizes. The spare volume is of none.
#[derive(Drop)]
pub struct Half {
    receiver: Receiver<MemDisk, Bare<MemDisk>>,
    sizes: Vec<u32>,
    vols: Vec<u32>,
    ghost sized: { IsSized sizes.items vols.items (seen_of below_of receiver) },
}

fn done(answer: Result<(), Refusal>) -> Came {
    match answer {
        Ok(()) => Came::Done,
        Err(why) => Came::Refused(why),
    }
}

fn applied(answer: Result<u64, Refusal>) -> Came {
    match answer {
        Ok(last) => Came::Applied(last),
        Err(why) => Came::Refused(why),
    }
}

fn bytes_of(alloc: Global, range: Range) -> Result<Vec<u8>, NoMemory>
    requires { range.count ≤ 256 }
    ensures { IfOk result (λ v. length v.items ≡ 512 * range.count) }
{
    Ok(vec![in alloc; range.byte; BLOCK * range.count as usize]?)
}

// An entry of blocks of one byte.
fn entry_of(alloc: Global, kind: EntryKind, range: Range) -> Result<Entry, NoMemory>
    requires { range.count ≤ 256 }
    ensures kind { IfOk result (λ e. e.kind ≡ kind) }
    ensures set { IfOk result (λ e. e.set ≡ range.set) }
    ensures at { IfOk result (λ e. e.at ≡ range.at) }
    ensures blocks { IfOk result (λ e. length e.bytes ≡ range.count) }
{
    let bytes = bytes_of(alloc, range)?;
    Ok(Entry {
        kind,
        set: range.set,
        at: range.at,
        bytes: Blocks::new(bytes),
    })
}

// The segments of the first and of the last block.
fn ends_of(alloc: Global, range: Range) -> Result<SegList, NoMemory>
    requires some { 0 < range.count }
    requires fits { range.at + range.count < 2 ^ 32 }
    ensures { IfOk result (λ l. l ≡ range.at / 64 ∷ ((range.at + range.count - 1) / 64) ∷ []) }
{
    let mut ends = SegList::new(alloc);
    ends.push(range.at / 64)?;
    ends.push((range.at + range.count - 1) / 64)?;
    Ok(ends)
}

// A mark has none.
const NOTHING: Range = Range {
    set: 0,
    at: 0,
    count: 0,
    byte: 0,
};

impl Half {
    /// The receiver of these parts, whose sets have these volumes of these sizes.
    pub fn load(
        alloc: Global,
        parts: Parts,
        sizes: Vec<u32>,
        vols: Vec<u32>,
    ) -> Result<Half, Closed>
        requires loadable { AreLoadable (below_of parts.below) parts.sets }
        requires sized { ArePartsSized sizes.items vols.items (below_of parts.below) parts.sets }
    {
        let receiver = Receiver::load(alloc, parts)?;
        Ok(Half {
            receiver,
            sizes,
            vols,
        })
    }

    pub fn into_parts(self) -> Parts {
        self.receiver.into_parts()
    }

    pub fn ask(&mut self, session: u64) -> Came {
        if session > 1 << 62 {
            return Came::Barred;
        }
        done(self.receiver.ask(session))
    }

    pub fn log(&mut self) -> Came {
        done(self.receiver.log())
    }

    // Whether blocks lie in the volume of a set.
    fn has(&self, range: Range) -> bool
        ensures lies { IsTrue result → LieIn self.now.sizes.items range.set range.at range.count }
        ensures fits { IsTrue result → range.at + range.count < 2 ^ 32 }
    {
        match self.sizes.get(range.set as usize) {
            Some(size) => range.at <= *size && range.count <= *size - range.at,
            None => false,
        }
    }

    fn apply_entry(&mut self, session: u64, place: u64, entry: &Entry) -> Came
        requires entry { IsEntry entry.now }
        requires lies { is_mark entry.now.kind ≡ false → LieIn self.old.sizes.items entry.now.set entry.now.at (length entry.now.bytes) }
    {
        if place > 1 << 62 {
            return Came::Barred;
        }
        applied(self.receiver.apply(session, place, entry))
    }

    fn apply_write(&mut self, alloc: Global, session: u64, place: u64, range: Range) -> Came {
        if range.count == 0 || range.count > 256 || !self.has(range) {
            return Came::Barred;
        }
        match entry_of(alloc, EntryKind::Write, range) {
            Ok(entry) => self.apply_entry(session, place, &entry),
            Err(NoMemory) => Came::Barred,
        }
    }

    fn apply_copy(&mut self, alloc: Global, session: u64, place: u64, range: Range) -> Came {
        if range.count == 0 || range.count > 64 || !self.has(range) {
            return Came::Barred;
        }
        match entry_of(alloc, EntryKind::Copied, range) {
            Ok(entry) => self.apply_entry(session, place, &entry),
            Err(NoMemory) => Came::Barred,
        }
    }

    fn apply_mark(&mut self, alloc: Global, session: u64, place: u64) -> Came {
        match entry_of(alloc, EntryKind::Mark, NOTHING) {
            Ok(entry) => self.apply_entry(session, place, &entry),
            Err(NoMemory) => Came::Barred,
        }
    }

    /// Applies a place of a session.
    pub fn apply(&mut self, alloc: Global, session: u64, place: u64, put: Put) -> Came {
        match put {
            Put::Write(range) => self.apply_write(alloc, session, place, range),
            Put::Copy(range) => self.apply_copy(alloc, session, place, range),
            Put::Mark => self.apply_mark(alloc, session, place),
        }
    }

    fn write_bytes(&mut self, range: Range, bytes: &[u8]) -> Came
        requires lies { LieIn self.old.sizes.items range.set range.at (length bytes.now / 512) }
        requires some { 0 < length bytes.now }
        requires whole { 512 * (length bytes.now / 512) ≡ length bytes.now }
    {
        done(self.receiver.write(range.set, range.at, bytes))
    }

    /// Writes blocks of a set's volume.
    pub fn write(&mut self, alloc: Global, range: Range) -> Came {
        if range.count == 0 || range.count > 256 || !self.has(range) {
            return Came::Barred;
        }
        match bytes_of(alloc, range) {
            Ok(bytes) => self.write_bytes(range, &bytes),
            Err(NoMemory) => Came::Barred,
        }
    }

    fn restore_marked(
        &mut self,
        marks: &[(u32, SegList)],
        range: Range,
        errand: &mut Restore,
    ) -> Came
        requires marks { marks.now ≡ ends range.set range.at range.count }
        requires lies { LieIn self.old.sizes.items range.set range.at range.count }
        requires some { 0 < range.count }
        requires few { range.count ≤ 64 }
        requires vol { errand.old.vol ≡ slice_index self.old.vols.items range.set }
        requires at { errand.old.at ≡ range.at }
        requires bytes { length errand.old.bytes.items / 512 ≡ range.count }
    {
        done(self.receiver.restore(marks, errand))
    }

    // Whether an errand is on these blocks.
    fn is_on(&self, range: Range, errand: &Restore) -> bool
        ensures vol { IsTrue result → errand.now.vol ≡ slice_index self.now.vols.items range.set }
        ensures at { IsTrue result → errand.now.at ≡ range.at }
        ensures bytes { IsTrue result → length errand.now.bytes.items / 512 ≡ range.count }
    {
        match self.vols.get(range.set as usize) {
            Some(vol) => {
                *vol == errand.vol
                    && range.at == errand.at
                    && errand.bytes.len() == BLOCK * range.count as usize
            }
            None => false,
        }
    }

    /// Restores a set by an errand on these blocks of it, with their segments marked.
    pub fn restore(&mut self, alloc: Global, range: Range, errand: &mut Restore) -> Came {
        if range.count == 0 || range.count > 64 || !self.has(range) || !self.is_on(range, errand) {
            return Came::Barred;
        }
        match ends_of(alloc, range) {
            Ok(ends) => self.restore_marked(&[(range.set, ends)], range, errand),
            Err(NoMemory) => Came::Barred,
        }
    }

    /// The segments of a set that are due.
    pub fn bits(&self, alloc: Global, set: u32) -> Option<Result<SegList, NoMemory>> {
        if set as usize >= self.sizes.len() {
            return None;
        }
        Some(self.receiver.bits(alloc, set))
    }

    pub fn session(&self) -> Session {
        self.receiver.session()
    }

    /// The last applied place, and the state.
    pub fn stand(&self) -> (u64, State) {
        (self.receiver.applied(), self.receiver.state())
    }

    /// Arms a tear on one of its disks.
    pub fn arm(&mut self, disk: u32, tear: Tear) -> bool {
        self.receiver.arm(disk, tear)
    }

    /// The blocks written on one of its disks.
    pub fn written(&self, disk: u32) -> Option<u64> {
        self.receiver.written(disk)
    }

    /// Looks at what lies below.
    pub fn look(&mut self, errand: &mut Look) -> Result<(), Failed> {
        self.receiver.lend(errand)
    }

    /// Writes a block of the spare volume.
    pub fn scribble(&mut self, errand: &mut Scribble) -> Result<(), Failed> {
        self.receiver.lend(errand)
    }
}
