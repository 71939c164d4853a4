// Errands on what lies below a receiver.
ghost use Rattle.std.specs.Prelude.{◌≡◌, ◌/◌, ◌≤◌, IsTrue, OnErr, length, is_ok};
ghost use Rattle.avs_dev.specs.Bare.{below_of};
ghost use Rattle.avs_dev.specs.Below.{IsRangeOf};
ghost use Rattle.avs_dev.specs.Devices.{OneRose};
ghost use Rattle.avs_receiver_plain.specs.Sized.{LeavesOrPuts, SparesSets};

use crate::plain::Image;
use crate::steps::Range;
use avs_dev::{Bare, Below, Disk, Errand};
use avs_seg::{BLOCK, Failed, NoMemory};
use std::alloc::Global;

/// The volume that is of no set.
pub const SPARE: u32 = 1;

/// Looks at a volume: the note, how many blocks were written on the state disk and on each volume, and the volume's bytes.
#[derive(Drop)]
pub struct Look {
    pub vol: u32,
    pub note: [u8; 64],
    pub written: [Option<u64>; 4],
    pub bytes: Vec<u8>,
}

impl<D: Disk> Errand<Bare<D>> for Look {
    ghost ran = { λ _ below _ _ _ new. SparesSets (below_of below) (below_of new) };

    fn run(&mut self, below: &mut Bare<D>, note: &[u8; 64]) -> Result<(), Failed> {
        self.note = *note;
        self.written = [
            below.written(0),
            below.written(1),
            below.written(2),
            below.written(3),
        ];
        if self.vol >= below.count() || below.size(self.vol) == 0 {
            return Ok(());
        }
        if self.bytes.len() != BLOCK * below.size(self.vol) as usize {
            return Ok(());
        }
        below.read(self.vol, 0, &mut self.bytes)
    }
}

impl Look {
    /// The byte of each block, where each has one throughout.
    pub fn image(&self) -> Option<Image> {
        let mut image = [0; 72];
        for place in 0..72 {
            let start = BLOCK * place;
            if start + BLOCK <= self.bytes.len() {
                let block = &self.bytes[start..start + BLOCK];
                if block[0] != block[BLOCK - 1] || block[0] != block[7] {
                    return None;
                }
                image[place] = block[0];
            }
        }
        Some(image)
    }
}

/// Writes a block of the spare volume.
#[derive(Drop)]
pub struct Scribble {
    pub at: u32,
    pub byte: u8,
}

impl<D: Disk> Errand<Bare<D>> for Scribble {
    ghost ran = { λ _ below _ _ _ new. SparesSets (below_of below) (below_of new) };

    fn run(&mut self, below: &mut Bare<D>, _note: &[u8; 64]) -> Result<(), Failed> {
        if SPARE >= below.count() || self.at >= below.size(SPARE) {
            return Ok(());
        }
        below.write(SPARE, self.at, &[self.byte; BLOCK])
    }
}

/// Restores blocks of a volume: the note that it is given first, and then their bytes. It does nothing where it is idle.
#[derive(Drop)]
pub struct Restore {
    pub vol: u32,
    pub at: u32,
    pub bytes: Vec<u8>,
    pub is_idle: bool,
    /// How often it ran, and the note that it was given.
    pub runs: u32,
    pub given: [u8; 64],
}

/// The errand that gives blocks of a set, which is this volume, their byte.
pub fn restoring(alloc: Global, vol: u32, range: Range, is_idle: bool) -> Result<Restore, NoMemory>
    requires { range.count ≤ 256 }
{
    Ok(Restore {
        vol,
        at: range.at,
        bytes: vec![in alloc; range.byte; BLOCK * range.count as usize]?,
        is_idle,
        runs: 0,
        given: [0; 64],
    })
}

fn restore_on<D: Disk>(
    below: &mut Bare<D>,
    note: &[u8; 64],
    vol: u32,
    at: u32,
    bytes: &[u8],
) -> Result<(), Failed>
    requires { IsRangeOf (below_of below.old) vol at (length bytes.now) }
    ensures puts { LeavesOrPuts vol at (length bytes.now / 512) note.now (is_ok result) (below_of below.old) (below_of below.new) }
    ensures cause { OnErr result (OneRose (below_of below.old).faults (below_of below.new).faults) }
{
    below.set_note(note)?;
    below.write(vol, at, bytes)
}

// Whether so many blocks lie in a volume.
fn lie_in<D: Disk>(below: &Bare<D>, vol: u32, at: u32, bytes: &[u8]) -> bool
    ensures { IsTrue result → IsRangeOf (below_of below.now) vol at (length bytes.now) }
{
    if vol >= below.count() || bytes.is_empty() || bytes.len() % BLOCK != 0 {
        return false;
    }
    let size = below.size(vol);
    at <= size && bytes.len() / BLOCK <= (size - at) as usize
}

impl<D: Disk> Errand<Bare<D>> for Restore {
    ghost ran = { λ e below note ok _ new. LeavesOrPuts e.vol e.at (length e.bytes.items / 512) note ok (below_of below) (below_of new) };

    fn run(&mut self, below: &mut Bare<D>, note: &[u8; 64]) -> Result<(), Failed> {
        self.runs = self.runs.saturating_add(1);
        self.given = *note;
        if self.is_idle || !lie_in(below, self.vol, self.at, &self.bytes) {
            return Ok(());
        }
        restore_on(below, note, self.vol, self.at, &self.bytes)
    }
}
