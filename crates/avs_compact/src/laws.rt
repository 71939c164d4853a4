// What an update leaves once all entries were staged and have turned.
ghost use Rattle.std.specs.Prelude.{◌≡◌, ℕ, ◌+◌, ◌*◌, ◌<◌, ◌≤◌, List};
ghost use Rattle.avs_dev.specs.Seen.{Seen, IsTold};
ghost use Rattle.avs_over.specs.Slots.{Owners};
ghost use Rattle.avs_over.specs.Over.{OverSet, Releases};
ghost use Rattle.avs_entries.specs.Slots.{AreEntries};
ghost use Rattle.avs_entries.specs.Parts.{part_end, part_blocks};
ghost use Rattle.avs_entries.specs.Staging.{to_master};
ghost use Rattle.avs_compact.specs.CompactSet.{CompactSet, chunks_of, disk_of, entry_of};
ghost use Rattle.avs_compact.specs.Places.{ArePlaced};
ghost use Rattle.avs_compact.specs.Calls.{IsKnown};
ghost use Rattle.avs_compact.specs.Keeping.{IsPlaced, KeepsBlocks};
ghost use Rattle.avs_compact.specs.Staging.{StagesAll, TurnsSet};
ghost use Rattle.avs_compact.specs.Updating.{AreBack, CopiesBelow, CopiesNext, StagesBelow, StagesNextPart, UpdatesParts, LeavesSlots, HasNone, lacking_in, split_in};

/// A law: a set of which all entries were staged, and which then turned, is in step and has these entries. Those of an update
/// to the shadow keep the rules of entries, and so do those of one to the master, which leaves each chunk its slot: the set needs
/// as many then. Behind one to the shadow it needs none, and has taken none once its owner gave up those of the overflow
/// volume. It makes no call.
pub fn updates_turn()
    ensures known { (old mid new : CompactSet) (to : ℕ → ℕ) (o : OverSet) → StagesAll old to mid → TurnsSet mid new
        → AreEntries to old.own (chunks_of old)
        → IsTold (disk_of old.shadow) → IsTold old.areas.disk → IsTold o.disk → IsKnown new o }
    ensures entries { (old mid new : CompactSet) (to : ℕ → ℕ) → StagesAll old to mid → TurnsSet mid new
        → AreEntries to old.own (chunks_of old)
        → (c : ℕ) → c < chunks_of old → entry_of new c ≡ to c }
    ensures shadow { (own n : ℕ) → AreEntries (λ _. 0) own n }
    ensures master { (entries : ℕ → ℕ) (own n set : ℕ) (owners : Owners) → ArePlaced entries own n set owners
        → ArePlaced (λ c. to_master (entries c)) own n set owners }
    ensures slots { (old mid new : CompactSet) (o : OverSet) → StagesAll old (λ c. to_master (entry_of old c)) mid → TurnsSet mid new
        → IsPlaced old o
        → LeavesSlots old o 0 new o }
    ensures given_up { (old mid new : CompactSet) (o o2 : OverSet) → StagesAll old (λ _. 0) mid → TurnsSet mid new → Releases o old.set o2
        → HasNone new o2 }
    ensures placed { (entries : ℕ → ℕ) (own n set : ℕ) (owners : Owners) → ArePlaced entries own n set owners → AreEntries entries own n }
{}

/// A law: a set of which all parts were copied ahead, one after another, then all were staged, and which then turned, has the
/// entries where the told chunks are split, each in a slot of its own. It needs a slot more for each that had none, keeps to
/// the rules of slots, and is in step. Both images are what they were, where none of those chunks stood in its slot alone. It
/// makes no call.
pub fn parts_turn()
    ensures none_copied { (s : CompactSet) (o : OverSet) (m : Seen) (bits : ℕ → List ℕ) → CopiesBelow s o m bits 0 s o m }
    ensures copied { (old now new : CompactSet) (o o1 o2 : OverSet) (m m1 m2 : Seen) (bits : ℕ → List ℕ) (part : ℕ)
        → 2048 * part ≤ chunks_of old
        → CopiesBelow old o m bits (2048 * part) now o1 m1 → CopiesNext now o1 m1 part (bits part) new o2 m2
        → CopiesBelow old o m bits (part_end (chunks_of old) part) new o2 m2 }
    ensures none_staged { (s : CompactSet) (bits : ℕ → List ℕ) → StagesBelow s bits 0 s }
    ensures staged { (mid now new : CompactSet) (bits : ℕ → List ℕ) (part : ℕ) → StagesBelow mid bits (16 * part) now
        → StagesNextPart now part (bits part) new → StagesBelow mid bits (16 * part + part_blocks (chunks_of mid) part) new }
    ensures entries { (old new : CompactSet) (o o2 : OverSet) (bits : ℕ → List ℕ) (u : UpdatesParts old o bits new o2) → IsPlaced old o
        → (c : ℕ) → c < chunks_of old → entry_of new c ≡ split_in u.mid bits c }
    ensures seen { (old new : CompactSet) (o o2 : OverSet) (bits : ℕ → List ℕ) (u : UpdatesParts old o bits new o2) → IsKnown old o
        → IsPlaced old o
        → IsTold u.master → AreBack old bits → KeepsBlocks old o u.master.image new o2 u.master_mid.image }
    ensures slots { (old new : CompactSet) (o o2 : OverSet) (bits : ℕ → List ℕ) → UpdatesParts old o bits new o2 → IsPlaced old o
        → LeavesSlots old o (lacking_in bits (entry_of old) (chunks_of old)) new o2 }
{}
