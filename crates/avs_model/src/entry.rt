// The entries of a group's order, and the limits of a queue of them.
ghost use Rattle.std.specs.Prelude.{◌≡◌, IfOk};

use crate::blocks::Blocks;
use avs_seg::NoMemory;
use std::alloc::Global;

/// What an entry is.
#[derive(Clone, Copy, Debug, PartialEq, Eq)]
pub enum EntryKind {
    Write,
    /// The copy of a segment.
    Copied,
    /// The end of a synchronization.
    Mark,
}

/// One place of a group's order: blocks of a set, from `at` on. A mark has none.
#[derive(Debug, Drop)]
pub struct Entry {
    pub kind: EntryKind,
    pub set: u32,
    pub at: u32,
    pub bytes: Blocks,
}

impl Entry {
    /// The same entry, in memory of its own.
    pub fn copy(&self, alloc: Global) -> Result<Entry, NoMemory>
        ensures { IfOk result (λ copy. copy ≡ self.now) }
    {
        let bytes = Vec::from_slice(alloc, self.bytes.as_slice())?;
        Ok(Entry {
            kind: self.kind,
            set: self.set,
            at: self.at,
            bytes: Blocks::new(bytes),
        })
    }
}

/// How much a queue may hold: so many entries, and so many blocks of them. In block mode a full queue refuses.
#[derive(Clone, Copy, Debug, PartialEq, Eq)]
pub struct Limits {
    pub writes: u32,
    pub blocks: u32,
    pub block_mode: bool,
}

/// A full queue: how many entries it holds, and how many blocks.
#[derive(Clone, Copy, Debug, PartialEq, Eq)]
pub struct Full {
    pub writes: u32,
    pub blocks: u32,
}
