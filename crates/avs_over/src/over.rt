// An overflow volume over its disk.
ghost use Rattle.std.specs.Prelude.{◌≡◌, ◌/◌, ◌-◌, ◌<◌, ◌≤◌, ◌^◌, IfOk, IfErr, None, length, replicate};
ghost use Rattle.avs_dev.specs.Seen.{IsTold};
ghost use Rattle.avs_over.specs.Slots.{AreApart, AreGiven, slots_of};
ghost use Rattle.avs_over.specs.Over.{IsInSlot, HasLabel, Makes, MakeRefused, Loads, LoadRefused, Takes, Releases, ReadsSlot, WritesSlot, ArmsDisk, AreOnDisk, IsKept, slots, used, written_of};

use crate::formats::{format, read_label};
use crate::owners::{BETWEEN, all_free, first_free, free_of, give_all};
use avs_code::BadRecord;
use avs_dev::{Arm, Back, Closed, Disk, Tear, Why};
use avs_seg::{BLOCK, Failed, NoMemory, SEGMENT};
use std::alloc::Global;
use std::marker::Model;

// How many slots a disk of so many blocks has: those of 64 blocks behind the label.
fn slots_of(blocks: u32) -> usize
    ensures { result ≡ slots_of blocks }
{
    (blocks.saturating_sub(1) / SEGMENT) as usize
}

/// An overflow volume: a disk of slots of 64 blocks, each given to a set or free.
#[derive(Drop)]
pub struct Over<D: Disk> {
    disk: D,
    owners: Vec<Option<u32>>,
    used: u32,
    // No slot below this one is free.
    low: u32,
}

impl<D: Disk> Model for Over<D> {
    ghost use Rattle.avs_over.specs.Over.{OverSet, IsKept};

    ghost Value = { OverSet };

    ghost view = { λ o. record { disk = D.seen o.disk; owners = o.owners.items } };

    ghost invariant = { λ o. IsKept (D.seen o.disk) o.owners.items o.used o.low };
}

impl<D: Disk> Over<D> {
    /// A new overflow volume: its label is written, and every slot is free. The slots are not written.
    pub fn make(alloc: Global, mut disk: D) -> Result<Over<D>, Closed<D>>
        requires { 0 < (D.seen disk).size }
        ensures made { IfOk result (λ o. Makes (D.seen disk) o) }
        ensures refused { IfErr result (λ e. MakeRefused (D.seen disk) e.why (D.seen e.parts)) }
    {
        let owners = match all_free(alloc, slots_of(disk.blocks())) {
            Ok(owners) => owners,
            Err(NoMemory) => return Err(Back {
                parts: disk,
                why: Why::NoMemory,
            }),
        };
        match format(&mut disk) {
            Ok(()) => Ok(Over {
                disk,
                owners,
                used: 0,
                low: 0,
            }),
            Err(Failed) => Err(Back {
                parts: disk,
                why: Why::Fault,
            }),
        }
    }

    /// The overflow volume on a disk, with slots given to sets by pairs of these two. `BadRecord` names the field of the
    /// label that breaks its rule, or by which it is another one; 64 tells that a pair names a slot that is not there or that
    /// another one names, and that the disk has no block.
    pub fn load(alloc: Global, mut disk: D, taken: &[(u32, u32)]) -> Result<Over<D>, Closed<D>>
        ensures loaded { IfOk result (λ o. Loads (D.seen disk) taken.now o) }
        ensures refused { IfErr result (λ e. LoadRefused (D.seen disk) taken.now e.why (D.seen e.parts)) }
    {
        match find(alloc, &mut disk, taken) {
            Ok(owners) => Ok(Over {
                disk,
                owners,
                used: taken.len() as u32,
                low: 0,
            }),
            Err(why) => Err(Back { parts: disk, why }),
        }
    }

    /// How many slots there are.
    pub fn slots(&self) -> u32
        ensures is { result ≡ slots self.now }
        ensures few { result < 2 ^ 26 }
    {
        self.owners.len() as u32
    }

    /// How many slots are given to sets.
    pub fn used(&self) -> u32
        ensures is { result ≡ used self.now }
        ensures most { result ≤ slots self.now }
    {
        self.used
    }

    /// A law: each slot lies on the disk, behind the block of the label. It makes no call of the disk.
    pub fn lies_on_disk(&self)
        ensures { AreOnDisk self.now }
    {
        let _used = self.used;
    }

    /// Gives the least free slot to a set. The answer is None exactly where all are used.
    pub fn take(&mut self, set: u32) -> Option<u32>
        ensures { Takes self.old set result self.new }
    {
        let slot = first_free(&self.owners, self.low as usize)?;
        self.owners[slot] = Some(set);
        self.used += 1;
        self.low = slot as u32 + 1;
        Some(slot as u32)
    }

    /// Frees all slots of a set.
    pub fn release_set(&mut self, set: u32)
        ensures { Releases self.old set self.new }
    {
        self.used -= free_of(&mut self.owners, set) as u32;
        self.low = 0;
    }

    /// Reads blocks of a slot, counted from its first one. A failed read may have changed `out`.
    pub fn read(&mut self, slot: u32, at: u32, out: &mut [u8]) -> Result<(), Failed>
        requires { IsInSlot self.old slot at (length out.old) }
        ensures { ReadsSlot self.old slot at out.new result self.new }
    {
        self.disk.read(1 + SEGMENT * slot + at, out)
    }

    /// Writes blocks of a slot, counted from its first one.
    pub fn write(&mut self, slot: u32, at: u32, bytes: &[u8]) -> Result<(), Failed>
        requires { IsInSlot self.old slot at (length bytes.now) }
        ensures { WritesSlot self.old slot at bytes.now result self.new }
    {
        self.disk.write(1 + SEGMENT * slot + at, bytes)
    }

    /// Hands the disk back. `load` with the pairs of the sets and their slots finds the same overflow volume.
    pub fn into_disk(self) -> D
        ensures { D.seen result ≡ self.disk }
    {
        let Over { disk, .. } = self;
        disk
    }

    /// How many blocks have been written on a disk. Its number is 0, and there is no other.
    pub fn written(&self, disk: u32) -> Option<u64>
        ensures { result ≡ written_of self.now disk }
    {
        if disk == 0 {
            Some(self.disk.written())
        } else {
            None
        }
    }

    /// Arms a tear on a disk. Its number is 0, and there is no other.
    pub fn arm(&mut self, disk: u32, tear: Tear) -> bool
    where
        D: Arm,
        ensures { ArmsDisk self.old disk tear result self.new }
    {
        disk == 0 && self.disk.arm(tear)
    }
}

// Finds an overflow volume on a disk, and the owners of its slots.
fn find<D: Disk>(alloc: Global, disk: &mut D, taken: &[(u32, u32)]) -> Result<Vec<Option<u32>>, Why>
    ensures some { IfOk result (λ _. 0 < (D.seen disk.old).size) }
    ensures kept { IfOk result (λ _. D.seen disk.new ≡ D.seen disk.old) }
    ensures labelled { IfOk result (λ _. IsTold (D.seen disk.old) → HasLabel (D.seen disk.old)) }
    ensures slots { IfOk result (λ v. length v.items ≡ slots_of (D.seen disk.old).size) }
    ensures apart { IfOk result (λ _. AreApart taken.now (length taken.now) (slots_of (D.seen disk.old).size)) }
    ensures given { IfOk result (λ v. AreGiven taken.now (length taken.now) v.items) }
    ensures refused { IfErr result (λ why. LoadRefused (D.seen disk.old) taken.now why (D.seen disk.new)) }
{
    let blocks = disk.blocks();
    if blocks == 0 {
        return Err(Why::BadRecord(BETWEEN));
    }
    let mut owners = all_free(alloc, slots_of(blocks))?;
    read_label(disk)?;
    match give_all(&mut owners, taken) {
        Ok(()) => Ok(owners),
        Err(BadRecord(field)) => Err(Why::BadRecord(field)),
    }
}
