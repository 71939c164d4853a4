// What a half of a mirror group is in its session.

/// Which side of its session a half is on.
#[derive(Clone, Copy, Debug, PartialEq, Eq)]
pub enum HalfRole {
    /// It was in no session yet.
    Lone,
    Sender,
    Receiver,
}

/// Where a half stands in its session.
#[derive(Clone, Copy, Debug, PartialEq, Eq)]
pub enum State {
    /// It has left, or was in none.
    Logging,
    /// A sender whose mark is not known as applied.
    Syncing,
    /// A receiver that has not applied the mark.
    Receiving,
    Replicating,
    /// A sender whose entries wait in its queue on disk.
    Queuing,
}
