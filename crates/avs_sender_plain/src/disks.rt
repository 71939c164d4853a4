// The disks of a sender of two sets, and copies of them of which one fails.

use crate::calls::Spot;
use crate::set::SIZES;
use avs_bits::Bits;
use avs_dev::{Arm, Disk, MemDisk, Tear};
use avs_seg::BLOCK;
use std::alloc::Global;

/// The disks: of the note, of both volumes, of the bits of both sets, and of the landing volume.
#[derive(Drop)]
pub struct Disks {
    pub state: MemDisk,
    pub volumes: (MemDisk, MemDisk),
    pub bits: (MemDisk, MemDisk),
    pub land: MemDisk,
}

/// How a disk fails: by a tear, or at its call of a number.
#[derive(Clone, Copy, Debug)]
pub enum Harm {
    None,
    Tear(Spot, Tear),
    Call(Spot, u64),
}

/// A disk of zeros.
pub fn blank(alloc: Global, blocks: u32) -> Option<MemDisk> {
    MemDisk::new(alloc, blocks, Vec::new(alloc)).ok()
}

/// The disk of the bits of a volume of so many blocks, of which none is set.
pub fn bitmap(alloc: Global, blocks: u32) -> Option<MemDisk> {
    match Bits::make(alloc, blank(alloc, 2)?, blocks, false, 0) {
        Ok(bits) => Some(bits.into_disk()),
        Err(_) => None,
    }
}

/// Blank disks, with bitmaps that are made.
pub fn made(alloc: Global) -> Option<Disks> {
    Some(Disks {
        state: blank(alloc, 2)?,
        volumes: (blank(alloc, SIZES[0])?, blank(alloc, SIZES[1])?),
        bits: (bitmap(alloc, SIZES[0])?, bitmap(alloc, SIZES[1])?),
        land: blank(alloc, 1)?,
    })
}

/// All blocks of a disk.
pub fn bytes_of(alloc: Global, disk: &mut MemDisk) -> Option<Vec<u8>> {
    let blocks = disk.blocks();
    if blocks == 0 || blocks > 4096 {
        return None;
    }
    let mut bytes = vec![in alloc; 0; BLOCK * blocks as usize].ok()?;
    disk.read(0, &mut bytes).ok()?;
    Some(bytes)
}

/// Writes whole blocks of a disk.
pub fn put_blocks(disk: &mut MemDisk, at: u32, bytes: &[u8]) -> bool {
    let count = bytes.len() / BLOCK;
    if count == 0 || bytes.len() != BLOCK * count || count > 4096 || at >= 1 << 30 {
        return false;
    }
    at + count as u32 <= disk.blocks() && disk.write(at, bytes).is_ok()
}

// The same blocks on another disk. Behind the one write that fills it, its calls of these numbers fail.
fn copy(alloc: Global, disk: &mut MemDisk, fails: Vec<u64>) -> Option<MemDisk> {
    let bytes = bytes_of(alloc, disk)?;
    let mut new = MemDisk::new(alloc, disk.blocks(), fails).ok()?;
    if put_blocks(&mut new, 0, &bytes) {
        return Some(new);
    }
    None
}

// The same blocks on another disk, which fails where it is that of the harm.
fn harmed(alloc: Global, disk: &mut MemDisk, spot: Spot, harm: Harm) -> Option<MemDisk> {
    let mut fails = Vec::new(alloc);
    if let Harm::Call(at, number) = harm
        && at == spot
    {
        fails.push(number.saturating_add(1)).ok()?;
    }
    let mut new = copy(alloc, disk, fails)?;
    if let Harm::Tear(at, tear) = harm
        && at == spot
    {
        new.arm(tear);
    }
    Some(new)
}

impl Disks {
    /// The same blocks on other disks, of which one fails.
    pub fn copy(&mut self, alloc: Global, harm: Harm) -> Option<Disks> {
        let volumes = (
            harmed(alloc, &mut self.volumes.0, Spot::Volume(0), harm)?,
            harmed(alloc, &mut self.volumes.1, Spot::Volume(1), harm)?,
        );
        let bits = (
            harmed(alloc, &mut self.bits.0, Spot::Bits(0), harm)?,
            harmed(alloc, &mut self.bits.1, Spot::Bits(1), harm)?,
        );
        Some(Disks {
            state: harmed(alloc, &mut self.state, Spot::State, harm)?,
            volumes,
            bits,
            land: harmed(alloc, &mut self.land, Spot::Land, harm)?,
        })
    }
}
