// States of the chunks of a compact set, its room, and its disks by number.
ghost use Rattle.std.specs.Prelude.{◌≡◌, ◌==◌, ℕ, ◌+◌, ◌*◌, ◌<◌, ◌≤◌, IsTrue, not, IsOk, IfOk};
ghost use Rattle.avs_bits.specs.Bit.{bit_of};
ghost use Rattle.avs_over.specs.Over.{slots};
ghost use Rattle.avs_sets.specs.Owners.{IsServed, LacksSlot};
ghost use Rattle.avs_model.specs.ShadowSets.{chunks_in};
ghost use Rattle.avs_chunks.specs.States.{code_of, area_len};
ghost use Rattle.avs_entries.specs.Entries.{code_of as slot_code};
ghost use Rattle.avs_compact.specs.CompactSet.{HasTaken, need_of, over_of, room_by_rule, room_of};
ghost use Rattle.avs_sets.specs.Sets.{split, chunks_of};
ghost use Rattle.avs_held.specs.Held.{lists_of, slots_seen};
ghost use Rattle.avs_held.specs.Counting.{told_lacking};
ghost use Rattle.avs_held.specs.Arming.{ArmsOne, written_of};

use crate::slots::HeldCompact;
use avs_chunks::ChunkState;
use avs_compact::ChunkState as SlotState;
use avs_dev::{Arm, Disk, Tear};
use avs_over::Over;
use avs_seg::Failed;

// A state of a chunk of a compact set, as one of a set in chunks.
fn state_of(state: SlotState) -> ChunkState
    ensures { code_of result ≡ slot_code state }
{
    match state {
        SlotState::OnMaster => ChunkState::OnMaster,
        SlotState::OnBoth => ChunkState::OnBoth,
        SlotState::Split => ChunkState::Split,
        SlotState::OnShadow => ChunkState::OnShadow,
    }
}

impl<D: Disk> HeldCompact<D> {
    /// The state of a chunk.
    pub fn state(&self, chunk: u32) -> ChunkState
        requires { chunk < chunks_of (slots_seen self.now) }
        ensures { code_of result ≡ (slots_seen self.now).memory.state chunk }
    {
        self.compact.keeps_form();
        state_of(self.compact.state(chunk))
    }

    /// How many chunks stand in their slots alone.
    pub fn back(&self) -> u32
        ensures { result ≡ chunks_in (slots_seen self.now).size.blocks (lists_of (slots_seen self.now)).back }
    {
        self.compact.keeps_form();
        self.compact.back()
    }

    /// How many chunks are split.
    pub fn moved(&self) -> u32
        ensures { result ≡ chunks_in (slots_seen self.now).size.blocks (lists_of (slots_seen self.now)).moved }
    {
        self.compact.keeps_form();
        self.compact.moved()
    }

    /// How many chunks are still to be copied to the shadow: none of a compact set.
    pub fn left(&self) -> u32
        ensures { result ≡ chunks_in (slots_seen self.now).size.blocks (lists_of (slots_seen self.now)).left }
    {
        self.compact.left()
    }

    /// How many slots the set needs: one for each chunk with contents of its own.
    pub fn need(&self) -> u32
        ensures { result ≡ chunks_in (slots_seen self.now).size.blocks (lists_of (slots_seen self.now)).touched }
    {
        self.compact.need()
    }

    /// How many slots the set has room for: its own, and those of its overflow volume that no other set has taken.
    pub fn room(&self, over: &Option<Over<D>>) -> u32
        ensures is { result ≡ room_of self.now.slots (over_of over.now) }
        ensures by_rule { HasTaken self.now.slots (over_of over.now) → result ≡ room_by_rule self.now.slots (over_of over.now) }
    {
        self.compact.room(over)
    }

    /// Whether the slots in which contents of the set stand are there, in this overflow volume.
    pub fn is_served(&self, over: &Option<Over<D>>) -> bool
        ensures served { IsTrue result → IsServed (slots (over_of over.now)) (slots_seen self.now) }
        ensures lacks { IsTrue (not result) → LacksSlot (slots (over_of over.now)) (slots_seen self.now) }
    {
        self.compact.keeps_form();
        self.compact.is_served(over)
    }

    /// Tells which chunks of a part are split: bit i stands for the i-th chunk. Bits behind the last chunk are zeros.
    pub fn moved_part(&self, part: u32, out: &mut [u8; 256]) -> Result<(), Failed>
        requires { part < area_len (chunks_of (slots_seen self.now)) }
        ensures ok { IsOk result }
        ensures bits { (i : ℕ) → i < 2048 → bit_of out.new i ≡ ((slots_seen self.now).memory.state (2048 * part + i) == split) }
    {
        self.compact.keeps_form();
        self.compact.moved_part(part, out)
    }

    /// How many chunks of a part are told and have no slot.
    pub fn lacks(&self, part: u32, split: &[u8; 256]) -> Result<u32, Failed>
        requires { part < area_len (chunks_of (slots_seen self.now)) }
        ensures ok { IsOk result }
        ensures counted { IfOk result (λ count. count ≡ told_lacking (slots_seen self.now) part split.now) }
    {
        self.compact.lacks(part, split)
    }

    /// Whether the set has room for those chunks of a part that are told and have no slot.
    pub fn has_slots(
        &self,
        over: &Option<Over<D>>,
        part: u32,
        split: &[u8; 256],
    ) -> Result<bool, Failed>
        requires { part < area_len (chunks_of (slots_seen self.now)) }
        ensures ok { IsOk result }
        ensures has { IfOk result (λ has. IsTrue has → need_of self.now.slots + told_lacking (slots_seen self.now) part split.now
            ≤ room_of self.now.slots (over_of over.now)) }
        ensures lacks { IfOk result (λ has. IsTrue (not has) → room_of self.now.slots (over_of over.now)
            < need_of self.now.slots + told_lacking (slots_seen self.now) part split.now) }
    {
        let lacking = self.lacks(part, split)?;
        let need = u64::from(self.compact.need()) + u64::from(lacking);
        Ok(need <= u64::from(self.compact.room(over)))
    }

    /// How many blocks have been written on a disk. The disks that are there are numbered from 0, first the
    /// shadow's and then the bitmap's.
    pub fn written(&self, disk: u32) -> Option<u64>
        ensures { result ≡ written_of (slots_seen self.now) disk }
    {
        self.compact.written(disk)
    }

    /// Arms a tear on a disk, which is numbered as in `written`.
    pub fn arm(&mut self, disk: u32, tear: Tear) -> bool
    where
        D: Arm,
        ensures { ArmsOne (slots_seen self.old) disk tear result (slots_seen self.new) }
    {
        self.compact.arm(disk, tear)
    }
}
