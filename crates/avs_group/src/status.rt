// What is told of a set.
ghost use Rattle.std.specs.Prelude.{◌≡◌, ℕ, ◌<◌, Some, length};
ghost use Rattle.std.specs.Option.{option_map};
ghost use Rattle.avs_sets.specs.Meaning.{set_of};
ghost use Rattle.avs_state.specs.Saying.{said_of};
ghost use Rattle.avs_group.specs.Group.{group_of, seen};
ghost use Rattle.avs_group.specs.Named.{NamesState, named};
ghost use Rattle.avs_group.specs.Status.{online_state, over_status, state_said, status_of};

use crate::group::ShadowGroup;
use avs_dev::Disk;
use avs_model::Kind;
use avs_model::product::SetState;
use avs_state::{SlotState, Standing};

/// The overflow volume of a set: how many slots it has, and how many of them are taken, by whatever set.
#[derive(Clone, Copy, Debug, PartialEq, Eq)]
pub struct OverStatus {
    pub slots: u32,
    pub used: u32,
}

/// What is told of a set: how many of its chunks stand on the master alone and are to be copied, and how many stand on the shadow alone;
/// how many were written since its last update; and its overflow volume, where one is attached to it.
#[derive(Clone, Copy, Debug, PartialEq, Eq)]
pub struct SetStatus {
    pub kind: Kind,
    pub left: u32,
    pub back: u32,
    pub moved: u32,
    pub state: SetState,
    pub over: Option<OverStatus>,
}

// What is told of the standing of a set.
fn state_said(state: &SlotState) -> SetState
    ensures { result ≡ state_said (said_of state.now) }
{
    match state.standing {
        Standing::Exported { .. } => SetState::Exported,
        Standing::Offline { .. } => SetState::Offline,
        Standing::Online => online_state(state.stopped),
    }
}

// The same of a set that is online.
fn online_state(stopped: bool) -> SetState
    ensures { result ≡ online_state stopped }
{
    if stopped {
        SetState::Stopped
    } else {
        SetState::Online
    }
}

impl<D: Disk> ShadowGroup<D> {
    // What is told of an overflow volume.
    fn over_status(&self, over: Option<u32>) -> Option<OverStatus>
        requires { (number : ℕ) → over ≡ Some number → number < length (seen self.now).overs }
        ensures { result ≡ over_status (seen self.now).overs over }
    {
        let number = over?;
        self.overs[number as usize]
            .as_ref()
            .map(|volume| OverStatus {
                slots: volume.slots(),
                used: volume.used(),
            })
    }

    /// What is told of a set. None exactly where no set is enabled in that slot.
    pub fn status(&self, set: u32) -> Option<SetStatus>
        ensures told { result ≡ option_map (λ s. status_of (group_of (seen self.now)).memory (seen self.now).overs s)
            (named (group_of (seen self.now)) set) }
        ensures state { NamesState (group_of (seen self.now)) set }
    {
        let (place, state) = self.find(set)?;
        let held = &self.sets[place];
        Some(SetStatus {
            kind: held.kind(),
            left: held.left(),
            back: held.back(),
            moved: held.moved(),
            state: state_said(&state),
            over: self.over_status(held.seat().over),
        })
    }
}
