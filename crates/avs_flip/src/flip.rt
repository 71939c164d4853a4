// Two areas of a disk, of which one is live.
ghost use Rattle.std.specs.Prelude.{◌≡◌, ◌+◌, ◌*◌, ◌<◌, ◌≤◌};
ghost use Rattle.avs_flip.specs.Areas.{Areas, live_from, staged_from};
ghost use Rattle.avs_flip.specs.Changes.{Stages, PutsLive, ReadsLive, Turns, ArmsDisk, written_of};

use avs_dev::{Arm, Disk, Tear};
use avs_seg::{BLOCK, Failed};
use std::marker::Model;

/// Two areas of equally many blocks, A and behind it B. One of them is live, and blocks are staged in the other.
#[derive(Drop)]
pub struct Flip<D: Disk> {
    disk: D,
    first: u32,
    len: u32,
    live_b: bool,
}

impl<D: Disk> Model for Flip<D> {
    ghost use Rattle.std.specs.Prelude.{◌+◌, ◌*◌, ◌≤◌};
    ghost use Rattle.avs_flip.specs.Areas.{Areas};

    ghost Value = { Areas };

    ghost view = { λ f. record { disk = D.seen f.disk; first = f.first; len = f.len; live_b = f.live_b } };

    ghost invariant = { λ f. f.first + 2 * f.len ≤ (D.seen f.disk).size };
}

impl<D: Disk> Flip<D> {
    /// Area A has `len` blocks from block `first` on, and B is live where `live_b` says so. Nothing is read.
    pub fn load(disk: D, first: u32, len: u32, live_b: bool) -> Flip<D>
        requires { first + 2 * len ≤ (D.seen disk).size }
        ensures { result ≡ record { disk = D.seen disk; first = first; len = len; live_b = live_b } }
    {
        Flip {
            disk,
            first,
            len,
            live_b,
        }
    }

    // Where the live area begins.
    fn live_from(&self) -> u32
        ensures { result ≡ live_from self.now }
    {
        if self.live_b {
            self.first + self.len
        } else {
            self.first
        }
    }

    // Where the other area begins.
    fn staged_from(&self) -> u32
        ensures { result ≡ staged_from self.now }
    {
        if self.live_b {
            self.first
        } else {
            self.first + self.len
        }
    }

    /// Writes a block of the area that is not live.
    pub fn stage(&mut self, at: u32, block: &[u8; BLOCK]) -> Result<(), Failed>
        requires { at < self.old.len }
        ensures { Stages self.old at block.now result self.new }
    {
        let staged_from = self.staged_from();
        self.disk.write(staged_from + at, block)
    }

    /// Writes a block of the live area. After `Failed` it is the old or the new one.
    pub fn put_live(&mut self, at: u32, block: &[u8; BLOCK]) -> Result<(), Failed>
        requires { at < self.old.len }
        ensures { PutsLive self.old at block.now result self.new }
    {
        let live_from = self.live_from();
        self.disk.write(live_from + at, block)
    }

    /// Reads a block of the live area. A failed read may have changed `out`.
    pub fn live(&mut self, at: u32, out: &mut [u8; BLOCK]) -> Result<(), Failed>
        requires { at < self.old.len }
        ensures { ReadsLive self.old at out.new result self.new }
    {
        let live_from = self.live_from();
        self.disk.read(live_from + at, out)
    }

    /// Makes the other area the live one. Nothing is written: the owner has noted elsewhere which one is.
    pub fn turn(&mut self)
        ensures { Turns self.old self.new }
    {
        self.live_b = !self.live_b;
    }

    /// Hands the disk back. `load` with the same numbers finds the same areas.
    pub fn into_disk(self) -> D
        ensures disk { D.seen result ≡ self.disk }
        ensures fits { self.first + 2 * self.len ≤ self.disk.size }
    {
        let Flip { disk, .. } = self;
        disk
    }

    /// How many blocks have been written on a disk. Its number is 0, and there is no other.
    pub fn written(&self, disk: u32) -> Option<u64>
        ensures { result ≡ written_of self.now disk }
    {
        if disk == 0 {
            Some(self.disk.written())
        } else {
            None
        }
    }

    /// Arms a tear on a disk. Its number is 0, and there is no other.
    pub fn arm(&mut self, disk: u32, tear: Tear) -> bool
    where
        D: Arm,
        ensures { ArmsDisk self.old disk tear result self.new }
    {
        disk == 0 && self.disk.arm(tear)
    }
}
