// Steps on a receiver over two sets.

use avs_model::Refusal;

/// Blocks of a set's volume, from one on, each with one byte throughout.
#[derive(Clone, Copy, Debug, PartialEq, Eq)]
pub struct Range {
    pub set: u32,
    pub at: u32,
    pub count: u32,
    pub byte: u8,
}

/// Blocks of a set: from one on, so many, and the byte in them.
pub fn of(set: u32, at: u32, count: u32, byte: u8) -> Range {
    Range {
        set,
        at,
        count,
        byte,
    }
}

/// An entry.
#[derive(Clone, Copy, Debug, PartialEq, Eq)]
pub enum Put {
    Write(Range),
    Copy(Range),
    Mark,
}

/// A disk.
#[derive(Clone, Copy, Debug, PartialEq, Eq)]
pub enum Spot {
    /// That of the note.
    State,
    /// That of a set's volume, or of its bitmap.
    Volume(u32),
    Bitmap(u32),
    Landing,
}

/// A step.
#[derive(Clone, Copy, Debug, PartialEq, Eq)]
pub enum Step {
    /// It is asked into a session.
    Ask(u64),
    /// A place of a session is applied.
    Apply(u64, u64, Put),
    Log,
    Write(Range),
    /// Blocks of a set are restored by an errand, which gives them this byte, or which does nothing.
    Restore(Range),
    Leave(Range),
    /// It is taken apart, and found again.
    Load,
    /// The same, and in between a tear is armed on a disk: after so many further writes of it the next one stores so many of
    /// its blocks, from one on, and fails.
    Tear(Spot, u32, u32, u32),
}

/// What came of a call. One that may not be made is barred.
#[derive(Clone, Copy, Debug, PartialEq, Eq, Drop)]
pub enum Came {
    Done,
    Applied(u64),
    Refused(Refusal),
    Barred,
}
