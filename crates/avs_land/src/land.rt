// The landing volume of a receiving half.
ghost use Rattle.std.specs.Prelude.{◌≡◌, ◌↔◌, ◌+◌, ◌*◌, ◌<◌, ◌≤◌, ◌^◌, IsTrue, IfOk, IfErr, OnOk, is_ok, length, take};
ghost use Rattle.avs_code.specs.Header.{HeaderKeeps};
ghost use Rattle.avs_dev.specs.Seen.{IsTold};
ghost use Rattle.avs_land.specs.Landed.{landing_blocks, header_for, no_header, settled_of, range_of, IsEntry};
ghost use Rattle.avs_land.specs.Landing.{Landing, MakesLanding, LandingMakeRefused, LoadsLanding, LandingLoadRefused, Lands, ArmsLanding, landing_written};
ghost use Rattle.avs_land.specs.Redo.{Redoing, Redoes, RewritesRest, IsRoom};
ghost use Rattle.avs_land.specs.Steps.{NoLandingRoom, ReadsEntry};

use crate::area::{AREA, area_of, entry_kind, kind_code, write_area};
use crate::label::{BLOCKS, NO_HEADER, find, format, write_header};
use avs_code::LandHeader;
use avs_dev::{Arm, Back, Below, Closed, Disk, Tear, Why};
use avs_model::{Entry, EntryKind};
use avs_seg::{BLOCK, Failed, NoMemory, Span};
use std::alloc::Global;
use std::marker::Model;

/// A landing volume: the entry of one place with its session, whole. The next entry of the session uses the other area
/// of the volume, so that one of the two stands whatever stops its landing. No call but `make` and `load` takes memory.
#[derive(Drop)]
pub struct Land<D: Disk> {
    disk: D,
    header: LandHeader,
    // Room for the blocks of an entry.
    buffer: Vec<u8>,
}

impl<D: Disk> Model for Land<D> {
    ghost use Rattle.std.specs.Prelude.{◌≡◌, ◌≤◌, length};
    ghost use Rattle.avs_code.specs.Header.{HeaderKeeps};
    ghost use Rattle.avs_land.specs.Landed.{landing_blocks};
    ghost use Rattle.avs_land.specs.Landing.{Landing};

    ghost Value = { Landing };

    ghost view = { λ l. record { disk = D.seen l.disk; header = l.header } };

    ghost invariant = { λ l. HeaderKeeps l.header × (landing_blocks ≤ (D.seen l.disk).size) × (length l.buffer.items ≡ 131072) };
}

// So many bytes of zeros.
fn zeros(alloc: Global, count: usize) -> Result<Vec<u8>, NoMemory>
    ensures { IfOk result (λ v. length v.items ≡ count) }
{
    Ok(vec![in alloc; 0; count]?)
}

// Room for the blocks of an entry, where the disk is large enough.
fn room<D: Disk>(alloc: Global, disk: &D) -> Result<Vec<u8>, Why>
    ensures fits { IfOk result (λ _. landing_blocks ≤ (D.seen disk.now).size) }
    ensures buffer { IfOk result (λ v. length v.items ≡ 131072) }
    ensures refused { IfErr result (λ why. NoLandingRoom (D.seen disk.now) why) }
{
    let have = disk.blocks();
    if have < BLOCKS {
        return Err(Why::Size { need: BLOCKS, have });
    }
    Ok(zeros(alloc, BLOCK * AREA as usize)?)
}

// The header of an entry.
fn header_for(session: u64, place: u64, entry: &Entry) -> LandHeader
    requires { IsEntry entry.now }
    ensures { result ≡ header_for session place entry.now }
{
    LandHeader {
        version: 1,
        session,
        place,
        kind: kind_code(entry.kind),
        set: entry.set,
        at: entry.at,
        len: (entry.bytes.as_slice().len() / BLOCK) as u32,
    }
}

// Reads the blocks of a header's entry to the beginning of the buffer.
fn read_entry<D: Disk>(disk: &mut D, header: &LandHeader, buffer: &mut [u8]) -> Result<(), Failed>
    requires some { 0 < header.now.len }
    requires few { header.now.len ≤ 256 }
    requires room { length buffer.old ≡ 131072 }
    requires size { landing_blocks ≤ (D.seen disk.old).size }
    ensures reads { ReadsEntry (D.seen disk.old) header.now result (D.seen disk.new) (take (512 * header.now.len) buffer.new) }
    ensures len { length buffer.new ≡ length buffer.old }
{
    disk.read(
        area_of(header.place),
        &mut buffer[..BLOCK * header.len as usize],
    )
}

impl<D: Disk> Land<D> {
    /// Writes the label of a landing volume, and a header that says that nothing has landed.
    pub fn make(alloc: Global, mut disk: D) -> Result<Land<D>, Closed<D>>
        ensures made { IfOk result (λ l. MakesLanding (D.seen disk) l) }
        ensures refused { IfErr result (λ e. LandingMakeRefused (D.seen disk) e.why (D.seen e.parts)) }
    {
        let buffer = match room(alloc, &disk) {
            Ok(buffer) => buffer,
            Err(why) => return Err(Back { parts: disk, why }),
        };
        match format(&mut disk) {
            Ok(()) => Ok(Land {
                disk,
                header: NO_HEADER,
                buffer,
            }),
            Err(Failed) => Err(Back {
                parts: disk,
                why: Why::Fault,
            }),
        }
    }

    /// Finds what has landed on a landing volume. `BadRecord` names the field of the label, or of the header, that breaks
    /// its rule.
    pub fn load(alloc: Global, mut disk: D) -> Result<Land<D>, Closed<D>>
        ensures found { IfOk result (λ l. LoadsLanding (D.seen disk) l) }
        ensures refused { IfErr result (λ e. LandingLoadRefused (D.seen disk) e.why (D.seen e.parts)) }
    {
        let buffer = match room(alloc, &disk) {
            Ok(buffer) => buffer,
            Err(why) => return Err(Back { parts: disk, why }),
        };
        match find(&mut disk) {
            Ok(header) => Ok(Land {
                disk,
                header,
                buffer,
            }),
            Err(why) => Err(Back { parts: disk, why }),
        }
    }

    /// Lands the entry of a place: its blocks in the area of the place, and then the header, by which it stands. Where that
    /// fails, the entry before stands, if this place follows its place, or this one does.
    pub fn land(&mut self, session: u64, place: u64, entry: &Entry) -> Result<(), Failed>
        requires session { session ≤ 2 ^ 62 }
        requires place { place ≤ 2 ^ 62 }
        requires entry { IsEntry entry.now }
        ensures { Lands self.old session place entry.now result self.new }
    {
        let header = header_for(session, place, entry);
        write_area(&mut self.disk, place, entry.bytes.as_slice())?;
        write_header(&mut self.disk, &header)?;
        self.header = header;
        Ok(())
    }

    /// The session and the place of the entry that has landed. The header in memory keeps the rule of each field.
    pub fn settled(&self) -> Option<(u64, u64)>
        ensures told { result ≡ settled_of self.now.header }
        ensures keeps { HeaderKeeps self.now.header }
    {
        if self.header.kind == LandHeader::NOTHING {
            return None;
        }
        Some((self.header.session, self.header.place))
    }

    /// The kind, the set and the range of the entry that has landed.
    pub fn landed(&self) -> Option<(EntryKind, u32, Span)>
        ensures { result ≡ range_of self.now.header }
    {
        if self.header.kind == LandHeader::NOTHING {
            return None;
        }
        let span = Span {
            at: self.header.at,
            len: self.header.len,
        };
        Some((entry_kind(self.header.kind), self.header.set, span))
    }

    /// Whether the entry that has landed has its place below: its set is one of `vols`, and its range lies inside that
    /// volume. A mark, and nothing, ask for no place.
    pub fn has_room<B: Below>(&self, below: &B, vols: &[u32]) -> bool
        ensures { IsTrue result ↔ IsRoom self.now.header vols.now (B.seen below.now) }
    {
        if self.header.len == 0 {
            return true;
        }
        let Some(&vol) = vols.get(self.header.set as usize) else {
            return false;
        };
        if vol >= below.count() {
            return false;
        }
        let end = u64::from(self.header.at) + u64::from(self.header.len);
        end <= u64::from(below.size(vol))
    }

    /// Writes the entry that has landed below once more, where it has room there. The volume of set i is the number at place i of `vols`. A mark
    /// has no blocks, and nothing is written for it, nor where nothing has landed.
    pub fn redo<B: Below>(&mut self, below: &mut B, vols: &[u32]) -> Result<(), Failed>
        requires { IsRoom self.old.header vols.now (B.seen below.old) }
        ensures redoes { Redoes (B.IsSound below.old) vols.now (record { land = self.old; below = B.seen below.old }) result
            (record { land = self.new; below = B.seen below.new }) }
        ensures sound { B.IsSound below.old → OnOk result (B.IsSound below.new) }
        ensures rest { RewritesRest B.wrote vols.now self.old (B.rest below.old) (is_ok result) (B.rest below.new) }
    {
        if self.header.len == 0 {
            return Ok(());
        }
        read_entry(&mut self.disk, &self.header, &mut self.buffer)?;
        let bytes = &self.buffer[..BLOCK * self.header.len as usize];
        below.write(vols[self.header.set as usize], self.header.at, bytes)
    }

    /// Hands the disk back. `load` finds on it what has landed.
    pub fn into_disk(self) -> D
        ensures disk { D.seen result ≡ self.disk }
        ensures fits { landing_blocks ≤ self.disk.size }
    {
        let Land { disk, .. } = self;
        disk
    }

    /// How many blocks have been written on a disk. Its number is 0, and there is no other.
    pub fn written(&self, disk: u32) -> Option<u64>
        ensures { result ≡ landing_written self.now disk }
    {
        if disk == 0 {
            Some(self.disk.written())
        } else {
            None
        }
    }

    /// Arms a tear on a disk. Its number is 0, and there is no other.
    pub fn arm(&mut self, disk: u32, tear: Tear) -> bool
    where
        D: Arm,
        ensures { ArmsLanding self.old disk tear result self.new }
    {
        disk == 0 && self.disk.arm(tear)
    }
}
