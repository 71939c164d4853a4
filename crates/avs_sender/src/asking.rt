// What a sender tells of itself.
ghost use Rattle.std.specs.Prelude.{◌≡◌, ℕ, ◌<◌, IfOk, length, filter, IsTrue};
ghost use Rattle.std.specs.List.{range_with_len};
ghost use Rattle.avs_mirrors.specs.Due.{has};
ghost use Rattle.avs_mirrors.specs.Half.{is_session};
ghost use Rattle.avs_sync.specs.Machine.{session_of};
ghost use Rattle.avs_sender.specs.Held.{seen_of};
ghost use Rattle.avs_sender.specs.Meaning.{sender_of, segs_of};
ghost use Rattle.avs_sender.specs.Asking.{GivesEntry, Settles, MayAsk};

use crate::sender::Sender;
use avs_dev::{Below, Disk};
use avs_model::{Entry, Refusal, State};
use avs_seg::{NoMemory, SegList};
use avs_sync::Session;
use std::alloc::Global;

/// Whether a place of the session is acknowledged.
#[derive(Clone, Copy, Debug, PartialEq, Eq)]
pub enum Settled {
    /// The place is known as applied.
    Remote,
    /// The sender has left the session of the place.
    Logged,
    /// The place is above the one that is known, which is this.
    Waiting(u64),
    /// The place was not given; the last one that was.
    NoPlace(u64),
}

impl<D: Disk, B: Below> Sender<D, B> {
    /// The segments of a set that are due, rising.
    pub fn bits(&self, alloc: Global, set: u32) -> Result<SegList, NoMemory>
        requires { set < length self.now.half.sets }
        ensures { IfOk result (λ l. l ≡ filter (has (sender_of (seen_of B.seen self.now)).due set) (range_with_len 0 (segs_of self.now.half set))) }
    {
        self.half.sets.listed(alloc, set)
    }

    /// The last place that was given in the session.
    pub fn last(&self) -> u64
        ensures { result ≡ (sender_of (seen_of B.seen self.now)).last }
    {
        self.half.session.last
    }

    /// The greatest place that is known as applied.
    pub fn known(&self) -> u64
        ensures { result ≡ (sender_of (seen_of B.seen self.now)).known }
    {
        self.half.session.known
    }

    pub fn state(&self) -> State
        ensures { result ≡ (sender_of (seen_of B.seen self.now)).state }
    {
        self.half.session.state
    }

    /// The session, with its direction and its mark.
    pub fn session(&self) -> Session
        ensures session { result ≡ session_of (sender_of (seen_of B.seen self.now)) result.reverse result.mark }
        ensures kept { result ≡ self.now.half.session }
    {
        self.half.session
    }

    /// Whether a place is acknowledged. Of places it knows what was given in this session alone.
    pub fn settle(&self, place: u64) -> Settled
        ensures { Settles (sender_of (seen_of B.seen self.now)) place result }
    {
        let session = &self.half.session;
        if place == 0 || place > session.last {
            Settled::NoPlace(session.last)
        } else if place <= session.known {
            Settled::Remote
        } else if session.state == State::Logging {
            Settled::Logged
        } else {
            Settled::Waiting(session.known)
        }
    }

    /// A copy of the entry of a place, in memory of its own.
    pub fn entry(&self, alloc: Global, place: u64) -> Result<Entry, Refusal>
        requires session { IsTrue (is_session (sender_of (seen_of B.seen self.now)).state) }
        requires place { MayAsk (sender_of (seen_of B.seen self.now)) place }
        ensures { GivesEntry (sender_of (seen_of B.seen self.now)) self.now.half.queue place result }
    {
        match self.half.queue.get(place) {
            Some(entry) => match entry.copy(alloc) {
                Ok(entry) => Ok(entry),
                Err(NoMemory) => Err(Refusal::NoMemory),
            },
            None => Err(Refusal::NoPlace(self.half.session.last)),
        }
    }
}
