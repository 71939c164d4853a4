// A chunk that is settled: its contents are copied where they stand on one side alone, and then its entry changes.
ghost use Rattle.std.specs.Prelude.{◌≡◌, ◌+◌, ◌<◌, IsTrue, is_some};
ghost use Rattle.avs_over.specs.Over.{slots};
ghost use Rattle.avs_entries.specs.Entries.{code_of, split};
ghost use Rattle.avs_compact.specs.CompactSet.{chunks_of, entry_of, need_of, over_of, room_of};
ghost use Rattle.avs_compact.specs.Calls.{AreThere};
ghost use Rattle.avs_compact.specs.Keeping.{MaySettle, Settles};

use crate::compact::Compact;
use crate::copies::{copy_back, copy_in};
use crate::taking::take_slot;
use avs_dev::Disk;
use avs_entries::{ChunkState, clear_bit, entry_for, entry_in, mark_slot, put_entry, slot_by};
use avs_over::Over;
use avs_seg::{Failed, seg_span};

impl<D: Disk> Compact<D> {
    /// Saves a chunk that has no slot: it is copied into one that the set takes.
    pub(crate) fn settle_new(
        &mut self,
        master: &mut D,
        over: &mut Option<Over<D>>,
        chunk: u32,
    ) -> Result<(), Failed>
        requires chunk { chunk < chunks_of self.old }
        requires none { entry_of self.old chunk ≡ 0 }
        requires room { need_of self.old < room_of self.old (over_of over.old) }
        requires blocks { (D.seen master.old).size ≡ self.old.blocks }
        requires there { IsTrue (is_some self.old.shadow) }
        ensures settles { Settles self.old (over_of over.old) (D.seen master.old) chunk split result
            self.new (over_of over.new) (D.seen master.new) }
        ensures still { is_some over.new ≡ is_some over.old }
    {
        let Some(slot) = take_slot(&self.table, self.low, self.set, over) else {
            return Err(Failed);
        };
        let span = seg_span(chunk, self.blocks);
        let buffer = &mut self.buffer;
        copy_in(master, &mut self.shadow, over, self.own, slot, span, buffer)?;
        let entry = entry_for(ChunkState::Split, slot);
        put_entry(&mut self.flip, &mut self.memory, chunk, entry)?;
        self.tally = self.tally.changed(self.own, 0, entry);
        self.counts = mark_slot(&mut self.table, self.counts, chunk, slot);
        self.low = self.own.min(slot + 1);
        Ok(())
    }

    /// Gives a chunk that has a slot another state. Where its contents stand in the slot alone, they are copied to the master
    /// before.
    pub(crate) fn settle_old(
        &mut self,
        master: &mut D,
        over: &mut Option<Over<D>>,
        chunk: u32,
        target: ChunkState,
    ) -> Result<(), Failed>
        requires may { MaySettle self.old chunk (code_of target) }
        requires blocks { (D.seen master.old).size ≡ self.old.blocks }
        requires there { IsTrue (is_some self.old.shadow) }
        requires slots { AreThere self.old (over_of over.old) }
        ensures settles { Settles self.old (over_of over.old) (D.seen master.old) chunk (code_of target) result
            self.new (over_of over.new) (D.seen master.new) }
        ensures still { is_some over.new ≡ is_some over.old }
    {
        let old = entry_in(&self.memory, chunk);
        let span = seg_span(chunk, self.blocks);
        let buffer = &mut self.buffer;
        copy_back(old, master, &mut self.shadow, over, self.own, span, buffer)?;
        let entry = entry_for(target, slot_by(old));
        put_entry(&mut self.flip, &mut self.memory, chunk, entry)?;
        self.tally = self.tally.changed(self.own, old, entry);
        clear_bit(&mut self.map, chunk);
        Ok(())
    }
}
