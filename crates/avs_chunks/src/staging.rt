// Updates: the states that a set is to have are staged, and one commit elsewhere makes them live.
ghost use Rattle.std.specs.Prelude.{◌≡◌, ℕ, ◌+◌, ◌*◌, ◌<◌, ◌≤◌, ◌^◌, length};
ghost use Rattle.avs_chunks.specs.States.{code_of, state_in, area_len};
ghost use Rattle.avs_chunks.specs.Counted.{AreCounted};
ghost use Rattle.avs_chunks.specs.ChunkSet.{chunks_of, state_of};
ghost use Rattle.avs_chunks.specs.Staging.{AreSetTo, StagesNext, StagesParts, TurnsSet, to_shadow, to_master, updated};

use crate::chunks::Chunks;
use crate::counting::{Counts, set_counted};
use crate::formats::area_len;
use crate::states::{ChunkState, STATES, state_in};
use avs_dev::Disk;
use avs_flip::Flip;
use avs_model::Kind;
use avs_seg::{BLOCK, Failed, seg_count};
use std::mem;

// What an update makes of the states of a set.
#[derive(Clone, Copy)]
enum Update {
    // The shadow becomes its master again: a set of this kind, by a whole copy or not.
    ToShadow(Kind, bool),
    // The master becomes its shadow.
    ToMaster,
}

// The state of a chunk once the shadow is its master again.
fn to_shadow(kind: Kind, whole: bool, state: ChunkState) -> ChunkState
    ensures { code_of result ≡ to_shadow kind whole (code_of state) }
{
    match (kind, whole, state) {
        (Kind::Ind, false, ChunkState::OnMaster) => ChunkState::OnMaster,
        (Kind::Ind, false, ChunkState::OnBoth) => ChunkState::OnBoth,
        (Kind::Ind, false, ChunkState::OnShadow) => ChunkState::OnShadow,
        _ => ChunkState::OnMaster,
    }
}

// The state of a chunk once the master is its shadow.
fn to_master(state: ChunkState) -> ChunkState
    ensures { code_of result ≡ to_master (code_of state) }
{
    match state {
        ChunkState::Split => ChunkState::OnShadow,
        ChunkState::OnMaster => ChunkState::OnMaster,
        ChunkState::OnBoth => ChunkState::OnBoth,
        ChunkState::OnShadow => ChunkState::OnShadow,
    }
}

// What an update makes of a state.
fn updated(update: Update, state: ChunkState) -> ChunkState
    ensures { code_of result ≡ updated update (code_of state) }
{
    match update {
        Update::ToShadow(kind, whole) => to_shadow(kind, whole, state),
        Update::ToMaster => to_master(state),
    }
}

// Sets the states of a part as an update makes them of those in memory. The first `end` chunks are counted.
fn fill_part(
    next: &mut [u8],
    counts: Counts,
    end: u32,
    memory: &[u8],
    part: u32,
    update: Update,
) -> Counts
    requires few { end < 2 ^ 31 }
    requires counted { AreCounted (state_in next.old) end counts }
    requires inside { 512 * (part + 1) ≤ length memory.now }
    requires long { length next.old ≡ length memory.now }
    requires small { part < 2 ^ 15 }
    ensures len { length next.new ≡ length next.old }
    ensures set { AreSetTo (state_in next.old) (state_in next.new) (λ c. updated update (state_in memory.now c)) (2048 * part) (2048 * (part + 1)) }
    ensures counted { AreCounted (state_in next.new) end result }
{
    let mut counts = counts;
    for chunk in STATES * part..STATES * (part + 1) {
        let state = updated(update, state_in(memory, chunk));
        counts = set_counted(next, counts, end, chunk, state);
    }
    counts
}

/// Stages the block with the states of a part.
pub(crate) fn stage_next<D: Disk>(flip: &mut Flip<D>, next: &[u8], part: u32) -> Result<(), Failed>
    requires inside { part < flip.old.len }
    requires long { length next.now ≡ 512 * flip.old.len }
    requires first { flip.old.first ≡ 1 }
    ensures { StagesNext flip.old next.now part result flip.new }
{
    let start = BLOCK * part as usize;
    let mut block = [0; BLOCK];
    block.copy_from_slice(&next[start..start + BLOCK]);
    flip.stage(part, &block)
}

impl<D: Disk> Chunks<D> {
    // Stages the states of a part as an update makes them.
    fn stage_one(&mut self, part: u32, update: Update) -> Result<(), Failed>
        requires { part < area_len (chunks_of self.old) }
        ensures { StagesParts self.old (λ c. updated update (state_of self.old c)) part 1 result self.new }
    {
        let chunks = seg_count(self.blocks);
        let counts = self.next_counts;
        self.next_counts = fill_part(&mut self.next, counts, chunks, &self.memory, part, update);
        stage_next(&mut self.flip, &self.next, part)
    }

    // Stages all states as an update makes them.
    fn stage_all(&mut self, update: Update) -> Result<(), Failed>
        ensures { StagesParts self.old (λ c. updated update (state_of self.old c)) 0 (area_len (chunks_of self.old)) result self.new }
    {
        for part in 0..area_len(self.blocks) {
            self.stage_one(part, update)?;
        }
        Ok(())
    }

    /// Stages the states that the set has once the shadow is its master again, of an independent set by a whole copy or
    /// of what is split.
    pub fn turn_to_shadow(&mut self, whole: bool) -> Result<(), Failed>
        ensures { StagesParts self.old (λ c. to_shadow self.old.kind whole (state_of self.old c)) 0 (area_len (chunks_of self.old)) result self.new }
    {
        self.stage_all(Update::ToShadow(self.kind, whole))
    }

    /// Stages the states that the set has once the master is its shadow.
    pub fn turn_to_master(&mut self) -> Result<(), Failed>
        ensures { StagesParts self.old (λ c. to_master (state_of self.old c)) 0 (area_len (chunks_of self.old)) result self.new }
    {
        self.stage_all(Update::ToMaster)
    }

    /// Makes the states that were staged the live ones, once the owner has committed that.
    pub fn turn(&mut self)
        ensures { TurnsSet self.old self.new }
    {
        self.flip.turn();
        mem::swap(&mut self.memory, &mut self.next);
        mem::swap(&mut self.counts, &mut self.next_counts);
        self.low = 0;
    }
}
