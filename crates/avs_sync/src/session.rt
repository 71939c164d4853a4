// The session of a half, as a plain value.
ghost use Rattle.std.specs.Prelude.{◌≡◌, ◌^◌, ◌<◌};
ghost use Rattle.avs_sync.specs.Session.{begin, placed, marked, ticked, left, MayTick};

use avs_model::State;

/// Where a half stands in its session. Its calls change nothing but what is named.
#[derive(Clone, Copy, Debug, PartialEq, Eq)]
pub struct Session {
    /// Whether the half sends.
    pub sender: bool,
    pub number: u64,
    /// Whether the session goes from host `s` to host `p`.
    pub reverse: bool,
    /// The last place that a sender gave, or that a receiver applied.
    pub last: u64,
    /// The greatest place that a sender knows applied.
    pub known: u64,
    /// The place of the mark, or 0 for none.
    pub mark: u64,
    pub state: State,
}

impl Session {
    /// A session in which no place was given: a sender is syncing, a receiver receiving.
    pub fn begin(sender: bool, number: u64, reverse: bool) -> Session
        ensures { result ≡ begin sender number reverse }
    {
        Session {
            sender,
            number,
            reverse,
            last: 0,
            known: 0,
            mark: 0,
            state: if sender {
                State::Syncing
            } else {
                State::Receiving
            },
        }
    }

    /// One more place, of a write or a copy.
    pub fn placed(&self) -> Session
        requires { self.now.last < 2 ^ 62 }
        ensures { result ≡ placed self.now }
    {
        Session {
            last: self.last + 1,
            ..*self
        }
    }

    /// One more place, of the mark: the receiver has the sender's blocks with it.
    pub fn marked(&self) -> Session
        requires { self.now.last < 2 ^ 62 }
        ensures { result ≡ marked self.now }
    {
        Session {
            last: self.last + 1,
            mark: self.last + 1,
            state: if self.sender {
                self.state
            } else {
                State::Replicating
            },
            ..*self
        }
    }

    /// The sender learns that a place was applied. It replicates once this reaches the mark.
    pub fn ticked(&self, applied: u64) -> Session
        requires { MayTick self.now applied }
        ensures { result ≡ ticked self.now applied }
    {
        let known = self.known.max(applied);
        Session {
            known,
            state: if self.mark > 0 && self.mark <= known {
                State::Replicating
            } else {
                self.state
            },
            ..*self
        }
    }

    /// The half goes to a state, as one that leaves to logging or queuing.
    pub fn left(&self, state: State) -> Session
        ensures { result ≡ left self.now state }
    {
        Session { state, ..*self }
    }
}
