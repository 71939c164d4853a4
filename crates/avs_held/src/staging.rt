// Updates: chunks are copied ahead, states are staged, and one commit elsewhere makes them live.
ghost use Rattle.std.specs.Prelude.{◌≡◌, ◌*◌, ◌<◌};
ghost use Rattle.avs_chunks.specs.States.{area_len};
ghost use Rattle.avs_chunks.specs.Staging.{to_shadow, to_master, told_by, part_end};
ghost use Rattle.avs_sets.specs.Sets.{chunks_of};
ghost use Rattle.avs_held.specs.Calls.{CanSave};
ghost use Rattle.avs_over.specs.Over.{OverSet};
ghost use Rattle.avs_held.specs.Held.{seen_of};
ghost use Rattle.avs_held.specs.Rooms.{on_disks};
ghost use Rattle.avs_held.specs.Staging.{StagesStates, CopiesTold, TurnsSet, split_state};

use crate::held::HeldSet;
use avs_dev::Disk;
use avs_seg::Failed;

impl<D: Disk> HeldSet<D> {
    /// Copies those chunks of a part that are told and stand on the master alone to the shadow. Their states stay. Bit i
    /// tells the i-th chunk of the part.
    pub fn copy_part(&mut self, master: &mut D, part: u32, split: &[u8; 256]) -> Result<(), Failed>
        requires part { part < area_len (chunks_of (seen_of self.old)) }
        requires blocks { (D.seen master.old).size ≡ (seen_of self.old).size.blocks }
        requires can { CanSave (seen_of self.old) }
        ensures { (o : OverSet) → CopiesTold (on_disks (seen_of self.old) (D.seen master.old) o) (told_by split.now part) (2048 * part)
            (part_end (chunks_of (seen_of self.old)) part) result (on_disks (seen_of self.new) (D.seen master.new) o) }
    {
        self.chunks.copy_part(master, part, split)
    }

    /// Stages the states of a part as they are, with those chunks split that are told. Each of them is split already or the
    /// same on both disks, or was copied ahead.
    pub fn stage_split(&mut self, part: u32, split: &[u8; 256]) -> Result<(), Failed>
        requires { part < area_len (chunks_of (seen_of self.old)) }
        ensures { StagesStates (seen_of self.old) (split_state (seen_of self.old) part split.now) part 1 result (seen_of self.new) }
    {
        self.chunks.stage_split(part, split)
    }

    /// Stages the states that the set has once the shadow is its master again, of an independent set by a whole copy or
    /// of what is split.
    pub fn stage_shadow(&mut self, whole: bool) -> Result<(), Failed>
        ensures { StagesStates (seen_of self.old) (λ c. to_shadow (seen_of self.old).kind whole ((seen_of self.old).memory.state c)) 0
            (area_len (chunks_of (seen_of self.old))) result (seen_of self.new) }
    {
        self.chunks.turn_to_shadow(whole)
    }

    /// Stages the states that the set has once the master is its shadow.
    pub fn stage_master(&mut self) -> Result<(), Failed>
        ensures { StagesStates (seen_of self.old) (λ c. to_master ((seen_of self.old).memory.state c)) 0
            (area_len (chunks_of (seen_of self.old))) result (seen_of self.new) }
    {
        self.chunks.turn_to_master()
    }

    /// Makes the states that were staged the live ones, once the owner has committed that.
    pub fn turn(&mut self)
        ensures { TurnsSet (seen_of self.old) (seen_of self.new) }
    {
        self.chunks.turn()
    }
}
