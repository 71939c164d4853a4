// What holds of the blocks that are written for a chunk.
ghost use Rattle.std.specs.Prelude.{◌≡◌, ℕ, ◌<◌, true};
ghost use Rattle.avs_seg.specs.Segment.{seg_len};
ghost use Rattle.avs_model.specs.ShadowSets.{ShadowState};
ghost use Rattle.avs_model.specs.GroupWork.{mark_work, copy_work, blocks_on_spot};
ghost use Rattle.avs_chunks.specs.ChunkSet.{ChunkSet, chunks_of, state_of};
ghost use Rattle.avs_chunks.specs.Due.{is_independent, is_due};
ghost use Rattle.avs_chunks.specs.Disks.{ChunkDisk, save_work, settle_work};
ghost use Rattle.avs_chunks.specs.Working.{StandsFor, spot_of};

/// A law: a chunk that is saved writes on each disk what the stage that marks it in a group writes there, and a copy step
/// what its stage writes. It makes no call.
pub fn work_is_that_of_stages()
    ensures saved { (s : ChunkSet) (set : ShadowState) → StandsFor s set → (c : ℕ) → c < chunks_of s → (d : ChunkDisk)
        → blocks_on_spot (mark_work c set) (spot_of set d) ≡ save_work (state_of s c) (seg_len c s.blocks) d }
    ensures copied { (s : ChunkSet) (set : ShadowState) → StandsFor s set → (c : ℕ) → c < chunks_of s
        → is_due (is_independent s.kind) (state_of s c) ≡ true → (d : ChunkDisk)
        → blocks_on_spot (copy_work c set) (spot_of set d) ≡ settle_work (state_of s c) (seg_len c s.blocks) d }
{}
