// What a receiver tells.
ghost use Rattle.std.specs.Prelude.{◌≡◌, ◌<◌, IfOk, length, filter};
ghost use Rattle.std.specs.List.{range_with_len};
ghost use Rattle.avs_mirrors.specs.Due.{has};
ghost use Rattle.avs_mirrors.specs.Half.{is_session, no_sets};
ghost use Rattle.avs_sync.specs.Machine.{session_of};
ghost use Rattle.avs_halves.specs.SetBits.{set_at};
ghost use Rattle.avs_receiver.specs.Held.{seen_of};
ghost use Rattle.avs_receiver.specs.Meaning.{receiver_of, state_in};

use crate::receiver::Receiver;
use avs_dev::{Below, Disk};
use avs_halves::{is_receiver, is_session};
use avs_model::State;
use avs_seg::{NoMemory, SegList};
use avs_sync::{Note, Session};
use std::alloc::Global;

// The state of a receiver with this note.
pub(crate) fn state_in(note: &Note) -> State
    ensures { result ≡ state_in note.now }
{
    if is_receiver(note.role) {
        note.state
    } else {
        State::Logging
    }
}

// Whether a receiver with this note is in a session.
pub(crate) fn receives(note: &Note) -> bool
    ensures { result ≡ is_session (state_in note.now) }
{
    is_session(state_in(note))
}

impl<D: Disk, B: Below> Receiver<D, B> {
    /// The last place that was applied in its session.
    pub fn applied(&self) -> u64
        ensures { result ≡ (receiver_of no_sets (seen_of B.seen self.now)).applied }
    {
        self.half.applied
    }

    /// Where it stands in its session.
    pub fn state(&self) -> State
        ensures { result ≡ (receiver_of no_sets (seen_of B.seen self.now)).state }
    {
        state_in(&self.half.note)
    }

    /// Its session. The last place is the applied one, and a mark that was applied is told.
    pub fn session(&self) -> Session
        ensures { result ≡ session_of (receiver_of no_sets (seen_of B.seen self.now)) self.now.half.note.reverse self.now.half.note.mark }
    {
        let note = &self.half.note;
        let receiver = is_receiver(note.role);
        Session {
            sender: !receiver,
            number: note.session,
            reverse: note.reverse,
            last: if receiver { self.half.applied } else { 0 },
            known: 0,
            mark: note.mark,
            state: state_in(note),
        }
    }

    /// The segments of a set that are due, rising.
    pub fn bits(&self, alloc: Global, set: u32) -> Result<SegList, NoMemory>
        requires { set < length self.now.half.sets }
        ensures { IfOk result (λ l. l ≡ filter (has (receiver_of no_sets (seen_of B.seen self.now)).due set) (range_with_len 0 (set_at self.now.half.sets set).bits.segs)) }
    {
        self.half.sets.listed(alloc, set)
    }
}
