// Steps on two sets of one master.

use crate::plain::List;

/// A set of the two.
#[derive(Clone, Copy)]
pub enum Who {
    First,
    Second,
}

/// A disk.
#[derive(Clone, Copy)]
pub enum Spot {
    Master,
    Shadow(Who),
    Bitmap(Who),
    Over,
}

/// What becomes of what was staged.
#[derive(Clone, Copy, PartialEq)]
pub enum Commit {
    /// It is committed and turned.
    Turned,
    /// All goes down before it is committed.
    Lost,
    /// It is committed, and all goes down before it is turned.
    Kept,
}

/// A call on chunks that another set's update is to take.
#[derive(Clone, Copy)]
pub enum Call {
    /// They are copied, by a call each or by one.
    Ahead,
    Copied,
    /// They are staged as split.
    Staged,
    /// They are copied and staged.
    Both,
}

/// A step. Blocks that are written are told by the first one, how many, and the byte in them.
#[derive(Clone, Copy)]
pub enum Step {
    Master(u32, u32, u8),
    Shadow(Who, u32, u32, u8),
    /// The same by two calls: the chunks are saved, and then the blocks are put.
    Puts(Who, u32, u32, u8),
    /// The chunks from one up to another are saved.
    Saves(Who, u32, u32),
    Copy(Who),
    /// A chunk is copied, where it is to be.
    Bring(Who, u32),
    /// The shadow becomes the master, by a whole copy or not.
    Renew(Who, bool, Commit),
    /// The master becomes the shadow.
    Restore(Who, Commit),
    /// One call on chunks of a list, and then all goes down.
    Aside(Who, Call, List),
    /// The shadow's disk is elsewhere from now on, or it is there again.
    Away(Who, bool),
    /// After so many further writes of a disk the next one stores so many of its blocks, from one on, and fails.
    Tear(Spot, u32, u32, u32),
}

/// How a step ends.
#[derive(Clone, Copy, PartialEq)]
pub enum End {
    Done,
    /// There was no room.
    Refused,
    /// A disk has failed.
    Stopped,
    /// All has gone down between two calls.
    Down,
}

/// Of which set a step is.
pub fn who_of(step: Step) -> Who {
    match step {
        Step::Shadow(who, ..) | Step::Puts(who, ..) | Step::Saves(who, ..) => who,
        Step::Copy(who) | Step::Bring(who, _) | Step::Away(who, _) => who,
        Step::Renew(who, ..) | Step::Restore(who, _) | Step::Aside(who, ..) => who,
        Step::Tear(Spot::Shadow(who) | Spot::Bitmap(who), ..) => who,
        Step::Master(..) | Step::Tear(..) => Who::First,
    }
}
