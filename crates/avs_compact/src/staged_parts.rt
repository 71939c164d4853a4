// Chunks that another set's update takes from the master: they are copied ahead, and then staged as split.
ghost use Rattle.std.specs.Prelude.{◌≡◌, ℕ, ◌+◌, ◌-◌, ◌*◌, ◌<◌, ◌≤◌, ◌==◌, nat_lt, Bool, true, ◌&&◌, if◌then◌else◌, IsTrue, is_some};
ghost use Rattle.avs_entries.specs.Entries.{split, entry_for, entry_in, area_len};
ghost use Rattle.avs_entries.specs.Parts.{part_blocks};
ghost use Rattle.avs_compact.specs.CompactSet.{chunks_of, entry_of, need_of, over_of, room_of};
ghost use Rattle.avs_compact.specs.Staging.{StagesBlocks};
ghost use Rattle.avs_compact.specs.Ahead.{CopiesAhead, CopiesPart, CopiesTold, HasRoomFor, StagesPart, split_of};

use crate::compact::Compact;
use crate::copies::copy_in;
use crate::taking::take_slot;
use avs_dev::Disk;
use avs_entries::{
    ChunkState, PART, area_len, entry_for, entry_in, fill_split, has_bit, set_entry, stage_next,
};
use avs_over::Over;
use avs_seg::{Failed, seg_count, seg_span};

// How many blocks of entries a part has.
const BLOCKS: u32 = 16;

// 1 where a slot is one of the set's own.
fn one_own(slot: u32, own: u32) -> u32
    ensures { result ≡ (if nat_lt slot own then 1 else 0) }
{
    if slot < own { 1 } else { 0 }
}

impl<D: Disk> Compact<D> {
    /// Copies a chunk that has no slot into one that the set takes and keeps for it until the entries are turned. Its entry
    /// stays, and the one that is staged in memory tells the slot.
    pub fn copy_ahead(
        &mut self,
        master: &mut D,
        over: &mut Option<Over<D>>,
        chunk: u32,
    ) -> Result<(), Failed>
        requires chunk { chunk < chunks_of self.old }
        requires none { entry_of self.old chunk ≡ 0 }
        requires room { need_of self.old < room_of self.old (over_of over.old) }
        requires blocks { (D.seen master.old).size ≡ self.old.blocks }
        requires there { IsTrue (is_some self.old.shadow) }
        ensures copies { CopiesAhead self.old (over_of over.old) (D.seen master.old) chunk result
            self.new (over_of over.new) (D.seen master.new) }
        ensures still { is_some over.new ≡ is_some over.old }
    {
        let Some(slot) = take_slot(&self.table, self.low, self.set, over) else {
            return Err(Failed);
        };
        let span = seg_span(chunk, self.blocks);
        let buffer = &mut self.buffer;
        copy_in(master, &mut self.shadow, over, self.own, slot, span, buffer)?;
        set_entry(&mut self.next, chunk, entry_for(ChunkState::Split, slot));
        self.ahead += one_own(slot, self.own);
        self.low = self.own.min(slot + 1);
        Ok(())
    }

    // Copies a chunk ahead where it is told and has no slot.
    fn copy_told(
        &mut self,
        master: &mut D,
        over: &mut Option<Over<D>>,
        chunk: u32,
        told: bool,
    ) -> Result<(), Failed>
        requires chunk { chunk < chunks_of self.old }
        requires room { told ≡ true → entry_of self.old chunk ≡ 0 → need_of self.old < room_of self.old (over_of over.old) }
        requires blocks { (D.seen master.old).size ≡ self.old.blocks }
        requires there { IsTrue (is_some self.old.shadow) }
        ensures copies { (list : ℕ → Bool) → list chunk ≡ (told && (entry_of self.old chunk == 0))
            → CopiesTold self.old (over_of over.old) (D.seen master.old) list chunk (chunk + 1) result
            self.new (over_of over.new) (D.seen master.new) }
        ensures still { is_some over.new ≡ is_some over.old }
    {
        if !told {
            return Ok(());
        }
        if entry_in(&self.memory, chunk) != 0 {
            return Ok(());
        }
        self.copy_ahead(master, over, chunk)
    }

    /// Copies those chunks of a part ahead that are told and have no slot.
    pub fn copy_part(
        &mut self,
        master: &mut D,
        over: &mut Option<Over<D>>,
        part: u32,
        split: &[u8; 256],
    ) -> Result<(), Failed>
        requires part { 2048 * part < chunks_of self.old }
        requires room { HasRoomFor self.old (over_of over.old) part split.now }
        requires blocks { (D.seen master.old).size ≡ self.old.blocks }
        requires there { IsTrue (is_some self.old.shadow) }
        ensures copies { CopiesPart self.old (over_of over.old) (D.seen master.old) part split.now result
            self.new (over_of over.new) (D.seen master.new) }
        ensures still { is_some over.new ≡ is_some over.old }
    {
        let first = PART * part;
        let end = seg_count(self.blocks).min(first + PART);
        for chunk in first..end {
            self.copy_told(master, over, chunk, has_bit(split, chunk - first))?;
        }
        Ok(())
    }

    // Stages a block of the entries of a part, with those chunks split that are told.
    fn split_block(&mut self, part: u32, at: u32, split: &[u8; 256]) -> Result<(), Failed>
        requires inside { at < area_len (chunks_of self.old) }
        requires low { 16 * part ≤ at }
        requires high { at < 16 * (part + 1) }
        ensures { StagesBlocks self.old (split_of self.old part split.now) at 1 result self.new }
    {
        let chunks = seg_count(self.blocks);
        fill_split(&mut self.next, &self.memory, part, at, split, chunks);
        stage_next(&mut self.flip, &self.next, at)
    }

    /// Stages the entries of a part as they are, with those chunks split that are told. Each of them has a slot, or was
    /// copied ahead.
    pub fn stage_split(&mut self, part: u32, split: &[u8; 256]) -> Result<(), Failed>
        requires { 2048 * part < chunks_of self.old }
        ensures { StagesBlocks self.old (split_of self.old part split.now) (16 * part) (part_blocks (chunks_of self.old) part)
            result self.new }
    {
        let blocks = area_len(self.blocks);
        let first = BLOCKS * part;
        let count = (blocks - first).min(BLOCKS);
        for place in 0..count {
            self.split_block(part, first + place, split)?;
        }
        Ok(())
    }

    /// Copies those chunks of a part ahead that are told and have no slot, and then stages the part with the told chunks
    /// split. An owner of several sets or parts calls `copy_part` for all of them first and then `stage_split`, since all
    /// copies come before the first staged block.
    pub fn stage_part(
        &mut self,
        master: &mut D,
        over: &mut Option<Over<D>>,
        part: u32,
        split: &[u8; 256],
    ) -> Result<(), Failed>
        requires part { 2048 * part < chunks_of self.old }
        requires room { HasRoomFor self.old (over_of over.old) part split.now }
        requires blocks { (D.seen master.old).size ≡ self.old.blocks }
        requires there { IsTrue (is_some self.old.shadow) }
        ensures stages { StagesPart self.old (over_of over.old) (D.seen master.old) part split.now result
            self.new (over_of over.new) (D.seen master.new) }
        ensures still { is_some over.new ≡ is_some over.old }
    {
        self.copy_part(master, over, part, split)?;
        self.stage_split(part, split)
    }
}
