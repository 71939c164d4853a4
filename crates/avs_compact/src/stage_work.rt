// What holds of the blocks that are written.
ghost use Rattle.std.specs.Prelude.{◌≡◌, ℕ, ◌+◌, ◌<◌, ◌≤◌, true, Some};
ghost use Rattle.avs_seg.specs.Segment.{seg_len};
ghost use Rattle.avs_model.specs.ShadowSets.{ChunkList, ShadowState, Online};
ghost use Rattle.avs_model.specs.GroupWork.{GroupSpot, mark_work, copy_work, on_shadow, blocks_in, blocks_on_spot};
ghost use Rattle.avs_entries.specs.Entries.{state_by};
ghost use Rattle.avs_compact.specs.CompactSet.{CompactSet, chunks_of, entry_of};
ghost use Rattle.avs_compact.specs.Disks.{CompactDisk, Shadow, Over};
ghost use Rattle.avs_compact.specs.Work.{slot_work, slot_most, settle_most, save_work, save_most, ahead_most};
ghost use Rattle.avs_compact.specs.Working.{StandsFor, spot_of};

/// A law: a chunk that is saved writes on each disk at most what the stage that marks it in a group names there, and one that
/// is brought back what its copy step names. Blocks that are put and chunks that are copied ahead write at most what their
/// stages name. On both disks with slots together a copy writes exactly the blocks of its chunk. It makes no call.
pub fn work_is_that_of_stages()
    ensures saved { (s : CompactSet) (set : ShadowState) → StandsFor s set → set.standing ≡ Online → (c : ℕ) → c < chunks_of s
        → (d : CompactDisk) (spot : GroupSpot) → spot_of set d ≡ Some spot
        → blocks_on_spot (mark_work c set) spot ≡ save_most (state_by (entry_of s c)) (seg_len c s.blocks) d }
    ensures brought { (s : CompactSet) (set : ShadowState) → StandsFor s set → (c : ℕ) → c < chunks_of s → set.lists.back c ≡ true
        → (d : CompactDisk) (spot : GroupSpot) → spot_of set d ≡ Some spot
        → blocks_on_spot (copy_work c set) spot ≡ settle_most (state_by (entry_of s c)) (seg_len c s.blocks) d }
    ensures put { (set : ShadowState) (n : ℕ) (d : CompactDisk) (spot : GroupSpot) → spot_of set d ≡ Some spot
        → blocks_on_spot (on_shadow set n) spot ≡ slot_most n d }
    ensures ahead { (s : CompactSet) (set : ShadowState) → StandsFor s set → (told : ChunkList) (d : CompactDisk) (spot : GroupSpot)
        → spot_of set d ≡ Some spot
        → blocks_on_spot (on_shadow set (blocks_in set.size.blocks told)) spot ≡ ahead_most s told 0 (chunks_of s) d }
    ensures most { (own state slot len : ℕ) (d : CompactDisk) → save_work own state slot len d ≤ save_most state len d }
    ensures both { (own slot len : ℕ) → slot_work own slot len Shadow + slot_work own slot len Over ≡ len }
{}
