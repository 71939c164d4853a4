// Sets by their slots, and what the block in memory says of them.
ghost use Rattle.std.specs.Prelude.{◌≡◌, ◌<◌, IfSome, IfNone, None, true, false, length};
ghost use Rattle.avs_sets.specs.Meaning.{set_of, is_enabled, slot_of};
ghost use Rattle.avs_state.specs.Saying.{said_of};
ghost use Rattle.avs_group.specs.Group.{IsKeptGroup, group_of, seen};
ghost use Rattle.avs_group.specs.Named.{IsNamedAt, copy_cause, io_cause, is_named, named, offline_cause};

use crate::group::ShadowGroup;
use avs_dev::Disk;
use avs_model::{Refusal, Word};
use avs_state::{SlotState, Standing, said};

impl<D: Disk> ShadowGroup<D> {
    // What the block says of the set at a place, where it is enabled.
    pub(crate) fn said_at(&self, place: usize) -> Option<SlotState>
        requires { place < length (seen self.now).sets }
        ensures some { IfSome result (λ s. slot_of (group_of (seen self.now)).memory (set_of (seen self.now).sets place) ≡ said_of s) }
        ensures none { IfNone result (is_enabled (group_of (seen self.now)).memory (set_of (seen self.now).sets place) ≡ false) }
    {
        said(self.state.block(), self.sets[place].seat().slot)
    }

    // The same, where it is the set of a slot.
    fn named_at(&self, place: usize, slot: u32) -> Option<SlotState>
        requires { place < length (seen self.now).sets }
        ensures said { IfSome result (λ s. slot_of (group_of (seen self.now)).memory (set_of (seen self.now).sets place) ≡ said_of s) }
        ensures is { IfSome result (λ _. is_named (group_of (seen self.now)).memory slot (set_of (seen self.now).sets place) ≡ true) }
        ensures none { IfNone result (is_named (group_of (seen self.now)).memory slot (set_of (seen self.now).sets place) ≡ false) }
    {
        if self.sets[place].seat().slot != slot {
            return None;
        }
        self.said_at(place)
    }

    // The place of the set of a slot, and what the block says of it, where one is enabled there.
    pub(crate) fn find(&self, slot: u32) -> Option<(usize, SlotState)>
        ensures at { IfSome result (λ found. IsNamedAt (group_of (seen self.now)) slot found.0) }
        ensures said { IfSome result (λ found. slot_of (group_of (seen self.now)).memory (set_of (seen self.now).sets found.0)
            ≡ said_of found.1) }
        ensures none { IfNone result (named (group_of (seen self.now)) slot ≡ None) }
        ensures kept { IsKeptGroup (seen self.now) }
    {
        for place in 0..self.sets.len() {
            if let Some(state) = self.named_at(place, slot) {
                return Some((place, state));
            }
        }
        None
    }
}

// Why a set copies no chunk.
pub(crate) fn copy_refusal(state: &SlotState) -> Option<Refusal>
    ensures { result ≡ copy_cause (said_of state.now) }
{
    if let Standing::Exported { .. } = state.standing {
        return Some(Refusal::WrongState(Word::Exported));
    }
    if state.stopped {
        return Some(Refusal::WrongState(Word::Stopped));
    }
    None
}

// The refusal of a call that a set which is offline does not take.
pub(crate) fn offline_refusal(state: &SlotState) -> Option<Refusal>
    ensures { result ≡ offline_cause (said_of state.now) }
{
    match state.standing {
        Standing::Offline { need, slots } => Some(Refusal::Offline { need, slots }),
        Standing::Online | Standing::Exported { .. } => None,
    }
}

// Why no blocks of a shadow are read or written.
pub(crate) fn io_refusal(state: &SlotState) -> Option<Refusal>
    ensures { result ≡ io_cause (said_of state.now) }
{
    match state.standing {
        Standing::Exported { .. } => Some(Refusal::WrongState(Word::Away)),
        Standing::Offline { need, slots } => Some(Refusal::Offline { need, slots }),
        Standing::Online => None,
    }
}
