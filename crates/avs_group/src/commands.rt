// Commands that are a commit alone.
ghost use Rattle.std.specs.Prelude.{◌≡◌, ◌<◌, true, length};
ghost use Rattle.avs_model.specs.GroupStages.{PutNote};
ghost use Rattle.avs_sets.specs.Meaning.{set_of, is_enabled, slot_of};
ghost use Rattle.avs_state.specs.Saying.{said_of};
ghost use Rattle.avs_group.specs.Group.{group_of, seen};
ghost use Rattle.avs_group.specs.Named.{offline_cause};
ghost use Rattle.avs_group.specs.Calls.{DoesCommit, OnSet, StopsCopies};

use crate::group::ShadowGroup;
use crate::naming::offline_refusal;
use avs_code::GroupBlock;
use avs_dev::Disk;
use avs_model::Refusal;
use avs_seg::Failed;
use avs_state::{SlotState, put_said};

impl<D: Disk> ShadowGroup<D> {
    /// The note.
    pub fn note(&self) -> [u8; 64]
        ensures { result ≡ (group_of (seen self.now)).memory.note }
    {
        self.state.block().note
    }

    /// Sets the note, by one write of one block.
    pub fn set_note(&mut self, note: &[u8; 64]) -> Result<(), Failed>
        ensures { DoesCommit (seen self.old) (PutNote note.now) result (seen self.new) }
    {
        let block = GroupBlock {
            note: *note,
            ..self.state.next()
        };
        self.state.commit(&block)
    }

    // Has the block say of the set at a place that its copying is stopped.
    fn stop_at(&mut self, place: usize, state: SlotState) -> Result<(), Failed>
        requires place { place < length (seen self.old).sets }
        requires enabled { is_enabled (group_of (seen self.old)).memory (set_of (seen self.old).sets place) ≡ true }
        requires said { slot_of (group_of (seen self.old)).memory (set_of (seen self.old).sets place) ≡ said_of state }
        ensures { StopsCopies (seen self.old) (set_of (seen self.old).sets place).slot result (seen self.new) }
    {
        let slot = self.sets[place].seat().slot;
        let mut block = self.state.next();
        put_said(
            &mut block,
            slot,
            Some(SlotState {
                stopped: true,
                ..state
            }),
        );
        self.state.commit(&block)
    }

    /// Stops the copying of a set, by one write of one block. The shadow stays usable.
    pub fn abort(&mut self, set: u32) -> Result<(), Refusal>
        ensures { OnSet offline_cause (seen self.old) set (StopsCopies (seen self.old) set result (seen self.new)) result
            (seen self.new) }
    {
        let Some((place, state)) = self.find(set) else {
            return Err(Refusal::NoSet);
        };
        if let Some(why) = offline_refusal(&state) {
            return Err(why);
        }
        match self.stop_at(place, state) {
            Ok(()) => Ok(()),
            Err(Failed) => Err(Refusal::Fault),
        }
    }
}
