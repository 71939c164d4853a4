// Updates of a set of either kind: chunks are copied ahead, states are staged, and one commit elsewhere makes them live.
ghost use Rattle.std.specs.Prelude.{◌≡◌, ◌*◌, ◌<◌, IsTrue, not, IsOk, IfOk};
ghost use Rattle.avs_chunks.specs.States.{area_len};
ghost use Rattle.avs_chunks.specs.Staging.{to_shadow, to_master, told_by, part_end};
ghost use Rattle.avs_compact.specs.CompactSet.{over_of};
ghost use Rattle.avs_sets.specs.Sets.{chunks_of};
ghost use Rattle.avs_held.specs.Rooms.{on_disks};
ghost use Rattle.avs_held.specs.Calls.{CanSave};
ghost use Rattle.avs_held.specs.Counting.{told_lacking};
ghost use Rattle.avs_held.specs.Staging.{StagesStates, CopiesTold, TurnsSet, split_state};
ghost use Rattle.avs_held.specs.Any.{HasSlots, LacksSlots, set_seen};

use crate::any::AnySet;
use avs_dev::Disk;
use avs_over::Over;
use avs_seg::Failed;

impl<D: Disk> AnySet<D> {
    /// Whether there is room for those chunks of a part that are told and stand on the master alone: of a set in chunks
    /// there always is.
    pub fn has_slots(
        &self,
        over: &Option<Over<D>>,
        part: u32,
        split: &[u8; 256],
    ) -> Result<bool, Failed>
        requires { part < area_len (chunks_of (set_seen self.now)) }
        ensures ok { IsOk result }
        ensures has { IfOk result (λ has. IsTrue has
            → HasSlots self.now (over_of over.now) (told_lacking (set_seen self.now) part split.now)) }
        ensures lacks { IfOk result (λ has. IsTrue (not has)
            → LacksSlots self.now (over_of over.now) (told_lacking (set_seen self.now) part split.now)) }
    {
        match self {
            AnySet::Chunks(set) => {
                let _kind = set.kind();
                Ok(true)
            }
            AnySet::Compact(set) => set.has_slots(over, part, split),
        }
    }

    /// Copies those chunks of a part ahead that are told and stand on the master alone. Their states stay. Bit i tells the
    /// i-th chunk of the part. A compact set has to have room for them.
    pub fn copy_part(
        &mut self,
        master: &mut D,
        over: &mut Option<Over<D>>,
        part: u32,
        split: &[u8; 256],
    ) -> Result<(), Failed>
        requires part { part < area_len (chunks_of (set_seen self.old)) }
        requires blocks { (D.seen master.old).size ≡ (set_seen self.old).size.blocks }
        requires can { CanSave (set_seen self.old) }
        requires room { HasSlots self.old (over_of over.old) (told_lacking (set_seen self.old) part split.now) }
        ensures { CopiesTold (on_disks (set_seen self.old) (D.seen master.old) (over_of over.old)) (told_by split.now part)
            (2048 * part)
            (part_end (chunks_of (set_seen self.old)) part) result (on_disks (set_seen self.new) (D.seen master.new) (over_of over.new)) }
    {
        match self {
            AnySet::Chunks(set) => set.copy_part(master, part, split),
            AnySet::Compact(set) => set.copy_part(master, over, part, split),
        }
    }

    /// Stages the states of a part as they are, with those chunks split that are told. Each of them has contents of its own
    /// or is the same on both, or was copied ahead.
    pub fn stage_split(&mut self, part: u32, split: &[u8; 256]) -> Result<(), Failed>
        requires { part < area_len (chunks_of (set_seen self.old)) }
        ensures { StagesStates (set_seen self.old) (split_state (set_seen self.old) part split.now) part 1 result
            (set_seen self.new) }
    {
        match self {
            AnySet::Chunks(set) => set.stage_split(part, split),
            AnySet::Compact(set) => set.stage_split(part, split),
        }
    }

    /// Stages the states that the set has once the shadow is its master again, of an independent set by a whole copy or
    /// of what is split.
    pub fn stage_shadow(&mut self, whole: bool) -> Result<(), Failed>
        ensures { StagesStates (set_seen self.old) (λ c. to_shadow (set_seen self.old).kind whole
            ((set_seen self.old).memory.state c)) 0 (area_len (chunks_of (set_seen self.old))) result (set_seen self.new) }
    {
        match self {
            AnySet::Chunks(set) => set.stage_shadow(whole),
            AnySet::Compact(set) => set.stage_shadow(whole),
        }
    }

    /// Stages the states that the set has once the master is its shadow.
    pub fn stage_master(&mut self) -> Result<(), Failed>
        ensures { StagesStates (set_seen self.old) (λ c. to_master ((set_seen self.old).memory.state c)) 0
            (area_len (chunks_of (set_seen self.old))) result (set_seen self.new) }
    {
        match self {
            AnySet::Chunks(set) => set.stage_master(),
            AnySet::Compact(set) => set.stage_master(),
        }
    }

    /// Makes the states that were staged the live ones, once the owner has committed that.
    pub fn turn(&mut self)
        ensures { TurnsSet (set_seen self.old) (set_seen self.new) }
    {
        match self {
            AnySet::Chunks(set) => set.turn(),
            AnySet::Compact(set) => set.turn(),
        }
    }
}
