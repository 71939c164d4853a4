// A chunk that is settled: its contents are copied where they stand on one disk alone, and then its state changes.
ghost use Rattle.std.specs.Prelude.{◌≡◌, ◌<◌, IsTrue, is_some};
ghost use Rattle.avs_chunks.specs.States.{code_of, on_master};
ghost use Rattle.avs_chunks.specs.ChunkSet.{CanSave, chunks_of, state_of};
ghost use Rattle.avs_chunks.specs.Calls.{MaySettle, Settles, Saves, CopiesAhead};

use crate::chunks::Chunks;
use crate::copies::copy_chunk;
use crate::put::put_state;
use crate::states::{ChunkState, is_in, state_in};
use avs_dev::Disk;
use avs_seg::{Failed, seg_count, seg_span};

impl<D: Disk> Chunks<D> {
    /// Copies a chunk whose contents stand on one disk alone to the other, and then gives it the state.
    pub fn settle(&mut self, master: &mut D, chunk: u32, target: ChunkState) -> Result<(), Failed>
        requires may { MaySettle self.old chunk (code_of target) }
        requires blocks { (D.seen master.old).size ≡ self.old.blocks }
        requires can { CanSave self.old }
        ensures { Settles self.old (D.seen master.old) chunk (code_of target) result self.new (D.seen master.new) }
    {
        let state = state_in(&self.memory, chunk);
        let span = seg_span(chunk, self.blocks);
        copy_chunk(state, master, &mut self.shadow, span, &mut self.buffer)?;
        let chunks = seg_count(self.blocks);
        let flip = &mut self.flip;
        put_state(
            flip,
            &mut self.memory,
            &mut self.counts,
            chunks,
            chunk,
            target,
        )
    }

    /// Saves a chunk before the master changes there: it is settled as split, unless it is split.
    pub fn save_before(&mut self, master: &mut D, chunk: u32) -> Result<(), Failed>
        requires chunk { chunk < chunks_of self.old }
        requires blocks { (D.seen master.old).size ≡ self.old.blocks }
        requires can { CanSave self.old }
        ensures { Saves self.old (D.seen master.old) chunk result self.new (D.seen master.new) }
    {
        if is_in(&self.memory, chunk, ChunkState::Split) {
            return Ok(());
        }
        self.settle(master, chunk, ChunkState::Split)
    }

    /// Copies a chunk that stands on the master alone to the shadow, and leaves its state.
    pub fn copy_ahead(&mut self, master: &mut D, chunk: u32) -> Result<(), Failed>
        requires chunk { chunk < chunks_of self.old }
        requires left { state_of self.old chunk ≡ on_master }
        requires blocks { (D.seen master.old).size ≡ self.old.blocks }
        requires there { IsTrue (is_some self.old.shadow) }
        ensures { CopiesAhead self.old (D.seen master.old) chunk result self.new (D.seen master.new) }
    {
        let span = seg_span(chunk, self.blocks);
        let buffer = &mut self.buffer;
        copy_chunk(ChunkState::OnMaster, master, &mut self.shadow, span, buffer)
    }
}
