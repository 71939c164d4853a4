// Updates: the entries that a set is to have are staged, and one commit elsewhere makes them live.
ghost use Rattle.std.specs.Prelude.{◌<◌};
ghost use Rattle.avs_entries.specs.Entries.{area_len};
ghost use Rattle.avs_entries.specs.Staging.{to_master, updated};
ghost use Rattle.avs_compact.specs.CompactSet.{chunks_of, entry_of};
ghost use Rattle.avs_compact.specs.Staging.{StagesBlocks, TurnsSet};

use crate::compact::Compact;
use avs_dev::Disk;
use avs_entries::{Tally, Update, area_len, fill_block, map_anew, mark_anew, stage_next};
use avs_seg::{Failed, seg_count};
use std::mem;

impl<D: Disk> Compact<D> {
    // Stages the entries of a block as an update makes them.
    fn stage_one(&mut self, at: u32, update: Update) -> Result<(), Failed>
        requires { at < area_len (chunks_of self.old) }
        ensures { StagesBlocks self.old (λ c. updated update (entry_of self.old c)) at 1 result self.new }
    {
        fill_block(&mut self.next, &self.memory, at, update);
        stage_next(&mut self.flip, &self.next, at)
    }

    // Stages all entries as an update makes them.
    fn stage_all(&mut self, update: Update) -> Result<(), Failed>
        ensures { StagesBlocks self.old (λ c. updated update (entry_of self.old c)) 0 (area_len (chunks_of self.old)) result self.new }
    {
        for at in 0..area_len(self.blocks) {
            self.stage_one(at, update)?;
        }
        Ok(())
    }

    /// Stages the entries that the set has once the shadow is its master again: no chunk has a slot, whether the copy is
    /// whole or not. Once it has turned, the owner gives its slots of the overflow volume up.
    pub fn turn_to_shadow(&mut self, _whole: bool) -> Result<(), Failed>
        ensures { StagesBlocks self.old (λ _. 0) 0 (area_len (chunks_of self.old)) result self.new }
    {
        self.stage_all(Update::ToShadow)
    }

    /// Stages the entries that the set has once the master is its shadow: chunks that are split stand in their slots alone.
    pub fn turn_to_master(&mut self) -> Result<(), Failed>
        ensures { StagesBlocks self.old (λ c. to_master (entry_of self.old c)) 0 (area_len (chunks_of self.old)) result self.new }
    {
        self.stage_all(Update::ToMaster)
    }

    /// Makes the entries that were staged the live ones, once the owner has committed that. Own slots that are in none of
    /// them are free then. Where they break the rules of entries, as where not every block was staged, the set holds none.
    pub fn turn(&mut self)
        ensures { TurnsSet self.old self.new }
    {
        self.flip.turn();
        mem::swap(&mut self.memory, &mut self.next);
        let end = seg_count(self.blocks);
        self.counts = mark_anew(&mut self.table, &mut self.memory, end);
        self.tally = Tally::of(&self.memory, self.own, end);
        map_anew(&mut self.map, &self.memory, end);
        self.low = 0;
        self.ahead = 0;
        self.due = 0;
    }
}
