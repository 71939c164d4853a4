// Chunks that are copied, one after another.
ghost use Rattle.std.specs.Prelude.{◌≡◌, ◌<◌, true, false, length};
ghost use Rattle.avs_model.specs.ShadowSets.{is_exported};
ghost use Rattle.avs_sets.specs.Meaning.{set_of, is_enabled, standing_of};
ghost use Rattle.avs_group.specs.Group.{group_of, seen};
ghost use Rattle.avs_group.specs.Named.{copy_cause};
ghost use Rattle.avs_group.specs.Calls.{CopiesAt, CopiesLeast, OnSet};

use crate::group::ShadowGroup;
use crate::naming::copy_refusal;
use avs_dev::Disk;
use avs_model::Refusal;
use avs_seg::Failed;

impl<D: Disk> ShadowGroup<D> {
    // Copies the least chunk that is to be copied of the set at a place.
    fn copy_at(&mut self, place: usize) -> Result<Option<u32>, Failed>
        requires place { place < length (seen self.old).sets }
        requires enabled { is_enabled (group_of (seen self.old)).memory (set_of (seen self.old).sets place) ≡ true }
        requires here { is_exported (standing_of (group_of (seen self.old)).memory (set_of (seen self.old).sets place)) ≡ false }
        ensures { CopiesAt (seen self.old) place result (seen self.new) }
    {
        let set = &mut self.sets[place];
        let Some(master) = &mut self.volumes[set.seat().master as usize] else {
            return Err(Failed);
        };
        set.copy_one(master)
    }

    /// Copies the least chunk of a set that stands on the shadow alone, or of an independent set on the master alone. The answer is that
    /// chunk, and None exactly where there is none.
    pub fn step(&mut self, set: u32) -> Result<Option<u32>, Refusal>
        ensures { OnSet copy_cause (seen self.old) set (CopiesLeast (seen self.old) set result (seen self.new)) result (seen self.new) }
    {
        let Some((place, state)) = self.find(set) else {
            return Err(Refusal::NoSet);
        };
        if let Some(why) = copy_refusal(&state) {
            return Err(why);
        }
        match self.copy_at(place) {
            Ok(copied) => Ok(copied),
            Err(Failed) => Err(Refusal::Fault),
        }
    }
}
