// Chunks that another set's update takes from the master: they are copied ahead, and then staged as split.
ghost use Rattle.std.specs.Prelude.{◌≡◌, ℕ, ◌+◌, ◌*◌, ◌<◌, Bool};
ghost use Rattle.avs_chunks.specs.States.{area_len};
ghost use Rattle.avs_chunks.specs.ChunkSet.{CanSave, chunks_of};
ghost use Rattle.avs_chunks.specs.Staging.{CopiesTold, StagesPart, told_by, part_end};

use crate::chunks::Chunks;
use crate::parts::has_bit;
use crate::states::{ChunkState, STATES, is_in};
use avs_dev::Disk;
use avs_seg::{Failed, seg_count};

impl<D: Disk> Chunks<D> {
    // Copies a chunk to the shadow where it is told and stands on the master alone.
    fn copy_told(&mut self, master: &mut D, chunk: u32, told: bool) -> Result<(), Failed>
        requires chunk { chunk < chunks_of self.old }
        requires blocks { (D.seen master.old).size ≡ self.old.blocks }
        requires can { CanSave self.old }
        ensures { (list : ℕ → Bool) → list chunk ≡ told → CopiesTold self.old (D.seen master.old) list chunk (chunk + 1) result self.new (D.seen master.new) }
    {
        if told && is_in(&self.memory, chunk, ChunkState::OnMaster) {
            return self.copy_ahead(master, chunk);
        }
        Ok(())
    }

    /// Copies those chunks of a part to the shadow that are told and stand on the master alone. Their states stay.
    pub fn copy_part(&mut self, master: &mut D, part: u32, split: &[u8; 256]) -> Result<(), Failed>
        requires part { part < area_len (chunks_of self.old) }
        requires blocks { (D.seen master.old).size ≡ self.old.blocks }
        requires can { CanSave self.old }
        ensures { CopiesTold self.old (D.seen master.old) (told_by split.now part) (2048 * part) (part_end (chunks_of self.old) part) result self.new (D.seen master.new) }
    {
        let first = STATES * part;
        let end = seg_count(self.blocks).min(first + STATES);
        for chunk in first..end {
            self.copy_told(master, chunk, has_bit(split, chunk - first))?;
        }
        Ok(())
    }

    /// Copies those chunks of a part that are told and stand on the master alone, and then stages the part with the told
    /// chunks split. An owner of several sets or parts calls `copy_part` for all of them first and then `stage_split`,
    /// since all copies come before the first staged block.
    pub fn stage_part(&mut self, master: &mut D, part: u32, split: &[u8; 256]) -> Result<(), Failed>
        requires part { part < area_len (chunks_of self.old) }
        requires blocks { (D.seen master.old).size ≡ self.old.blocks }
        requires can { CanSave self.old }
        ensures { StagesPart self.old (D.seen master.old) part split.now result self.new (D.seen master.new) }
    {
        self.copy_part(master, part, split)?;
        self.stage_split(part, split)
    }
}
