// The state disk of a group.
ghost use Rattle.std.specs.Prelude.{◌≡◌, ◌≤◌, IfOk, IfErr};
ghost use Rattle.avs_code.specs.GroupBlock.{GroupBlockKeeps};
ghost use Rattle.avs_state.specs.StateDisk.{ArmsDisk, Commits, IsNotMade, LoadRefused, Loads, Makes, next_block, state_blocks, written_of};

use crate::first_blocks::{empty_block, format, put_block, read_block};
use avs_code::GroupBlock;
use avs_dev::{Arm, Back, Closed, Disk, Tear, Why};
use avs_seg::Failed;
use std::marker::Model;

/// A state disk, and its block in memory.
#[derive(Drop)]
pub struct StateDisk<D: Disk> {
    disk: D,
    block: GroupBlock,
}

impl<D: Disk> Model for StateDisk<D> {
    ghost use Rattle.avs_state.specs.StateDisk.{StateSeen, IsKept};

    ghost Value = { StateSeen };

    ghost view = { λ s. record { disk = D.seen s.disk; block = s.block } };

    ghost invariant = { λ s. IsKept (record { disk = D.seen s.disk; block = s.block }) };
}

impl<D: Disk> StateDisk<D> {
    /// A new state disk of at least 64 blocks: its label and the block of a group without sets are written by one write.
    pub fn make(mut disk: D) -> Result<StateDisk<D>, Closed<D>>
        requires { state_blocks ≤ (D.seen disk).size }
        ensures made { IfOk result (λ s. Makes (D.seen disk) s) }
        ensures refused { IfErr result (λ e. IsNotMade (D.seen disk) e.why (D.seen e.parts)) }
    {
        match format(&mut disk) {
            Ok(()) => Ok(StateDisk {
                disk,
                block: empty_block(),
            }),
            Err(Failed) => Err(Back {
                parts: disk,
                why: Why::Fault,
            }),
        }
    }

    /// The state disk that stands on a disk. `BadRecord` names the first field of the label that breaks its rule or is of another use,
    /// else the field of the block; 64 tells that the disk has fewer than 64 blocks.
    pub fn load(mut disk: D) -> Result<StateDisk<D>, Closed<D>>
        ensures loaded { IfOk result (λ s. Loads (D.seen disk) s) }
        ensures refused { IfErr result (λ e. LoadRefused (D.seen disk) e.why (D.seen e.parts)) }
    {
        match read_block(&mut disk) {
            Ok(block) => Ok(StateDisk { disk, block }),
            Err(why) => Err(Back { parts: disk, why }),
        }
    }

    /// The block in memory.
    pub fn block(&self) -> &GroupBlock
        ensures is { result.now ≡ self.now.block }
        ensures keeps { GroupBlockKeeps result.now }
    {
        &self.block
    }

    /// The block in memory with the next number, to be changed and committed.
    pub fn next(&self) -> GroupBlock
        ensures is { result ≡ next_block self.now.block }
        ensures keeps { GroupBlockKeeps result }
    {
        GroupBlock {
            sequence: self.block.sequence.wrapping_add(1),
            ..self.block
        }
    }

    /// Writes a block, by one write of one block. Where that fails the memory keeps the old one.
    pub fn commit(&mut self, block: &GroupBlock) -> Result<(), Failed>
        requires { GroupBlockKeeps block.now }
        ensures { Commits self.old block.now result self.new }
    {
        put_block(&mut self.disk, block)?;
        self.block = *block;
        Ok(())
    }

    /// Hands the disk back.
    pub fn into_disk(self) -> D
        ensures { D.seen result ≡ self.disk }
    {
        let StateDisk { disk, .. } = self;
        disk
    }

    /// How many blocks have been written on a disk. Its number is 0, and there is no other.
    pub fn written(&self, disk: u32) -> Option<u64>
        ensures { result ≡ written_of self.now disk }
    {
        if disk == 0 {
            Some(self.disk.written())
        } else {
            None
        }
    }

    /// Arms a tear on a disk. Its number is 0, and there is no other.
    pub fn arm(&mut self, disk: u32, tear: Tear) -> bool
    where
        D: Arm,
        ensures { ArmsDisk self.old disk tear result self.new }
    {
        disk == 0 && self.disk.arm(tear)
    }
}
