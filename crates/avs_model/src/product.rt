//! Every statement on volumes and their shadows, on both hosts, and its answers.
ghost use Rattle.std.specs.Prelude.{◌≡◌, ◌++◌, ◌∷◌, [], OnOk, OnErr};

use crate::answer::Refusal;
use crate::equal_runs::EqualRuns;
use crate::event::{ArmTarget, Host, Name};
use crate::pattern::Pattern;
use crate::recovered::Recovered;
use crate::shadow::Kind;
use avs_seg::NoMemory;
use std::alloc::Global;
use std::marker::Model;

/// Names, in order.
#[derive(Debug, Drop)]
pub struct Names {
    names: Vec<Name>,
}

impl Model for Names {
    ghost use Rattle.std.specs.Prelude.{List, ℕ};

    ghost Value = { List (List ℕ) };

    ghost view = { λ n. n.names.items };
}

impl Names {
    /// No names. Takes no memory.
    pub fn new(alloc: Global) -> Names
        ensures { result ≡ [] }
    {
        Names {
            names: Vec::new(alloc),
        }
    }

    /// Adds a name behind the others.
    pub fn push(&mut self, name: Name) -> Result<(), NoMemory>
        ensures pushed { OnOk result (self.new ≡ self.old ++ name ∷ []) }
        ensures kept { OnErr result (self.new ≡ self.old) }
    {
        self.names.push(name)?;
        Ok(())
    }

    pub fn as_slice(&self) -> &[Name]
        ensures { result.now ≡ self.now }
    {
        &self.names
    }
}

/// Which way an update goes.
#[derive(Clone, Copy, Debug, PartialEq, Eq)]
pub enum Way {
    /// The shadow becomes its master.
    ToShadow,
    /// The master becomes the shadow.
    ToMaster,
}

/// The shadow sets of an update: those named, or all of a group.
#[derive(Debug, Drop)]
pub enum IiTarget {
    Sets(Names),
    Group(Name),
}

/// A command on shadow sets. A set is named by its shadow volume.
#[derive(Debug, Drop)]
pub enum IiCommand {
    /// Makes a shadow of the master at this point in time, and keeps the states of its chunks on the bitmap volume.
    Enable {
        group: Option<Name>,
        tag: Option<Name>,
        dependent: bool,
        master: Name,
        shadow: Name,
        bitmap: Name,
    },
    /// Ends the import of that volume, where the host has one; else disables the set of that name.
    Disable {
        name: Name,
    },
    /// Makes shadows their masters, or masters their shadows, all at once. `whole` asks for a full copy; `shift` words stand before the
    /// command.
    Update {
        way: Way,
        whole: bool,
        target: IiTarget,
        shift: u32,
    },
    /// Stops the copying of a set.
    Abort {
        set: Name,
    },
    /// Copies until nothing is left to copy.
    Finish {
        set: Name,
    },
    /// Makes an overflow volume.
    MakeOverflow {
        volume: Name,
    },
    /// Lets a compact set use an overflow volume.
    Attach {
        volume: Name,
        set: Name,
    },
    /// Ends that.
    Detach {
        set: Name,
    },
    /// Tells the slots of an overflow volume.
    OverflowStatus {
        volume: Name,
    },
    /// Gives the shadow volume of a set away.
    Export {
        set: Name,
    },
    /// Lets a volume that was given away be read and written here, and keeps on the bitmap volume where it was written.
    Import {
        volume: Name,
        bitmap: Name,
    },
    /// Takes a shadow volume back, with what was written on it meanwhile.
    Join {
        set: Name,
        bitmap: Name,
    },
    /// Tells the sets of the host.
    List,
    /// Tells of one set.
    Status {
        set: Name,
    },
}

/// What a statement asks for. Lengths and places are in blocks.
#[derive(Debug, Drop)]
pub enum Event {
    Volume {
        host: Host,
        volume: Name,
        blocks: u32,
    },
    Write {
        host: Host,
        volume: Name,
        at: u32,
        len: u32,
        pattern: Pattern,
    },
    Read {
        host: Host,
        volume: Name,
        at: u32,
        len: u32,
    },
    Ii {
        host: Host,
        command: IiCommand,
    },
    /// Words that begin a command on shadow sets and are none from that word on.
    IiBad {
        host: Host,
        word: u32,
    },
    /// One step of copying.
    Copy {
        host: Host,
        set: Name,
    },
    /// After `skip` further writes of that disk the next one fails, and stores `count` of its blocks from its block `first` on.
    Arm {
        host: Host,
        target: ArmTarget,
        skip: u32,
        first: u32,
        count: u32,
    },
    Crash {
        host: Host,
    },
    Recover {
        host: Host,
    },
    /// The volume leaves one host for the other.
    Move {
        volume: Name,
        from: Host,
        to: Host,
    },
}

/// What a host is told of all that is not its own: its name, and the blocks of the other host's volumes.
#[derive(Clone, Copy, Debug, PartialEq, Eq)]
pub struct Elsewhere {
    pub name: Host,
    pub blocks: u32,
}

/// What is told of the standing of a set.
#[derive(Clone, Copy, Debug, PartialEq, Eq)]
pub enum SetState {
    Online,
    /// Its copying is stopped.
    Stopped,
    /// It needed more slots than it had.
    Offline,
    /// Its shadow volume was given away.
    Exported,
}

/// What is told of a set: how many of its chunks are left to copy one way or the other, and how many were written since its last update.
#[derive(Debug, Drop)]
pub struct ShadowShown {
    pub set: Name,
    pub kind: Kind,
    pub master: Name,
    pub group: Name,
    pub left: u32,
    pub moved: u32,
    pub state: SetState,
    pub tag: Option<Name>,
}

/// What an event answers.
#[derive(Debug, Drop)]
pub enum Answer {
    Done,
    /// The blocks that were read.
    Shown(EqualRuns),
    /// This chunk was copied.
    Copied(u32),
    /// Nothing is left to copy.
    Idle,
    /// The host was brought down.
    Down(Host),
    /// The host was brought up again.
    Up(Recovered),
    /// The slots of an overflow volume, and how many of them are used.
    Slots { slots: u32, used: u32 },
    /// The shadow volume was given away with this stamp.
    Exported(u64),
    Sets(Names),
    ShadowShown(ShadowShown),
    Refused(Refusal),
    /// A disk of the host failed, and the host is down.
    Faulted(Host),
}
