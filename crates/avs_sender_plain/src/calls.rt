// Calls on a sender of two sets, as data.

use crate::set::Segments;
use avs_model::{Refusal, State};

/// A beginning: the number of its session, and whether all segments are set, or those of the other half.
#[derive(Clone, Copy)]
pub struct Begin {
    pub number: u64,
    pub full: bool,
    pub theirs: (Segments, Segments),
}

/// Blocks that are written: of a set, from one on, so many, each with a byte throughout.
#[derive(Clone, Copy, Debug, PartialEq, Eq)]
pub struct Put {
    pub set: u32,
    pub at: u32,
    pub count: u32,
    pub byte: u8,
}

/// A call.
#[derive(Clone, Copy)]
pub enum Call {
    Begin(Begin),
    Write(Put),
    Sync,
    Tick(u64),
    Log,
    Broken,
    /// An errand reads all volumes.
    Lend,
    /// All goes down, and the sender is found again on its disks.
    Crash,
}

/// What came of a call.
#[derive(Clone, Copy, Debug, PartialEq, Eq)]
pub enum Came {
    Done,
    Left(State),
    Known(u64),
    Local,
    Place(u64),
    /// The place of a copy, its set and its segment.
    Copied(u64, u32, u32),
    Marked(u64),
    Idle,
    Logged,
    Refused(Refusal),
    /// The call may not be made.
    Barred,
}

/// A disk: that of the note, of a set's volume, or of a set's bits.
#[derive(Clone, Copy, Debug, PartialEq, Eq)]
pub enum Spot {
    State,
    Volume(u32),
    Bits(u32),
    Land,
}
