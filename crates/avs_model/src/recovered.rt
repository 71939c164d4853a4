// What is told of a host that was brought up again.
ghost use Rattle.std.specs.Prelude.{◌≡◌, ◌∷◌, ◌++◌, [], Some, OnOk, OnErr};

use crate::event::{Host, Name};
use avs_seg::{NoMemory, SegList};
use std::alloc::Global;
use std::fmt;
use std::marker::Model;

/// What became of the event in which a fault stopped the host.
#[derive(Debug, Drop)]
pub enum Second {
    /// A write: these of its blocks, counted from 0, now read as written.
    Torn {
        volume: Name,
        at: u32,
        blocks: SegList,
    },
    /// A command that is as if it had not been given.
    Kept,
    /// A command that stands.
    Done,
    /// Any other event, or none.
    Clean,
}

/// A group of a host, its session, and the last place in it.
#[derive(Debug, Drop)]
pub struct GroupLine {
    pub group: Name,
    pub session: u64,
    pub place: u64,
}

impl fmt::Display for GroupLine {
    ghost use Rattle.avs_model.specs.Printed.{group_text};

    ghost output = { λ line. Some (group_text line) };

    fn fmt<W: fmt::Write>(&self, f: &mut fmt::Formatter<W>) -> fmt::Result {
        write!(
            f,
            "group {} plain session {} at {}",
            self.group, self.session, self.place
        )
    }
}

/// A shadow set of a host, and how many chunks are left to copy.
#[derive(Debug, Drop)]
pub struct SetLine {
    pub set: Name,
    pub left: u32,
}

impl fmt::Display for SetLine {
    ghost use Rattle.avs_model.specs.Printed.{set_text};

    ghost output = { λ line. Some (set_text line) };

    fn fmt<W: fmt::Write>(&self, f: &mut fmt::Formatter<W>) -> fmt::Result {
        write!(f, "set {} left {}", self.set, self.left)
    }
}

/// The groups of a host, in order.
#[derive(Debug, Drop)]
pub struct GroupLines {
    lines: Vec<GroupLine>,
}

impl Model for GroupLines {
    ghost use Rattle.std.specs.Prelude.{List};
    ghost use Rattle.avs_model.specs.declared.recovered.GroupLine.{GroupLine};

    ghost Value = { List GroupLine };

    ghost view = { λ l. l.lines.items };
}

impl GroupLines {
    /// No groups. Takes no memory.
    pub fn new(alloc: Global) -> GroupLines
        ensures { result ≡ [] }
    {
        GroupLines {
            lines: Vec::new(alloc),
        }
    }

    /// Adds a group behind the others.
    pub fn push(&mut self, line: GroupLine) -> Result<(), NoMemory>
        ensures pushed { OnOk result (self.new ≡ self.old ++ line ∷ []) }
        ensures kept { OnErr result (self.new ≡ self.old) }
    {
        self.lines.push(line)?;
        Ok(())
    }

    pub fn as_slice(&self) -> &[GroupLine]
        ensures { result.now ≡ self.now }
    {
        &self.lines
    }
}

/// The shadow sets of a host, in order.
#[derive(Debug, Drop)]
pub struct SetLines {
    lines: Vec<SetLine>,
}

impl Model for SetLines {
    ghost use Rattle.std.specs.Prelude.{List};
    ghost use Rattle.avs_model.specs.declared.recovered.SetLine.{SetLine};

    ghost Value = { List SetLine };

    ghost view = { λ l. l.lines.items };
}

impl SetLines {
    /// No sets. Takes no memory.
    pub fn new(alloc: Global) -> SetLines
        ensures { result ≡ [] }
    {
        SetLines {
            lines: Vec::new(alloc),
        }
    }

    /// Adds a set behind the others.
    pub fn push(&mut self, line: SetLine) -> Result<(), NoMemory>
        ensures pushed { OnOk result (self.new ≡ self.old ++ line ∷ []) }
        ensures kept { OnErr result (self.new ≡ self.old) }
    {
        self.lines.push(line)?;
        Ok(())
    }

    pub fn as_slice(&self) -> &[SetLine]
        ensures { result.now ≡ self.now }
    {
        &self.lines
    }
}

/// What is told of a host that was brought up again: of the event in which a fault stopped it, of its groups, and of its shadow sets.
#[derive(Debug, Drop)]
pub struct Recovered {
    pub host: Host,
    pub second: Second,
    pub groups: GroupLines,
    pub sets: SetLines,
}
