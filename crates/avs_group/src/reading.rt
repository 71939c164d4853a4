// Reads of shadows.
ghost use Rattle.std.specs.Prelude.{◌≡◌, ◌*◌, ◌/◌, ◌+◌, ◌<◌, ◌≤◌, true, IsTrue, is_some, length};
ghost use Rattle.avs_model.specs.GroupStates.{shadow_image};
ghost use Rattle.avs_sets.specs.Meaning.{set_of, is_enabled};
ghost use Rattle.avs_group.specs.Group.{group_of, seen};
ghost use Rattle.avs_group.specs.Named.{IsShadowRange, io_cause};
ghost use Rattle.avs_group.specs.Calls.{OnSet};
ghost use Rattle.avs_group.specs.Reads.{ReadsImage, ReadsSet};

use crate::group::ShadowGroup;
use crate::naming::io_refusal;
use avs_dev::Disk;
use avs_model::Refusal;
use avs_seg::Failed;

impl<D: Disk> ShadowGroup<D> {
    // Reads blocks of the shadow of the set at a place, whose disk is there.
    pub(crate) fn read_set(&mut self, place: usize, at: u32, out: &mut [u8]) -> Result<(), Failed>
        requires place { place < length (seen self.old).sets }
        requires enabled { is_enabled (group_of (seen self.old)).memory (set_of (seen self.old).sets place) ≡ true }
        requires there { IsTrue (is_some (set_of (seen self.old).sets place).shadow) }
        requires some { 0 < length out.old }
        requires whole { 512 * (length out.old / 512) ≡ length out.old }
        requires inside { at + length out.old / 512 ≤ (set_of (seen self.old).sets place).size.blocks }
        ensures { ReadsSet (seen self.old) place at out.new result (seen self.new) }
    {
        let set = &mut self.sets[place];
        let Some(master) = &mut self.volumes[set.seat().master as usize] else {
            return Err(Failed);
        };
        set.read(master, at, out)
    }

    /// Reads blocks of the shadow of a set. A failed read may have changed `out`.
    pub fn read_shadow(&mut self, set: u32, at: u32, out: &mut [u8]) -> Result<(), Refusal>
        requires { IsShadowRange (group_of (seen self.old)) set at (length out.old) }
        ensures { OnSet io_cause (seen self.old) set
            (ReadsImage (λ group. shadow_image group set) (seen self.old) at out.new result (seen self.new)) result
            (seen self.new) }
    {
        let Some((place, state)) = self.find(set) else {
            return Err(Refusal::NoSet);
        };
        if let Some(why) = io_refusal(&state) {
            return Err(why);
        }
        match self.read_set(place, at, out) {
            Ok(()) => Ok(()),
            Err(Failed) => Err(Refusal::Fault),
        }
    }
}
