// Events: one variant for each statement of a script.
ghost use Rattle.std.specs.Prelude.{◌≡◌, List, ℕ, IfOk, Some};
ghost use Rattle.std.specs.String.{string_bytes};
ghost use Rattle.std.specs.Str.{IsAscii};

use crate::pattern::Pattern;
use avs_seg::NoMemory;
use std::alloc::Global;
use std::fmt;
use std::marker::Model;

/// One of the two hosts.
#[derive(Clone, Copy, Debug, PartialEq, Eq)]
pub enum Host {
    P,
    S,
}

/// A name, seen as its bytes.
#[derive(Debug, Drop)]
pub struct Name {
    text: String,
}

impl Model for Name {
    ghost Value = { List ℕ };

    ghost view = { λ n. string_bytes n.text };
}

impl Name {
    /// The name of these bytes, which are copied.
    pub fn new(alloc: Global, bytes: &[u8]) -> Result<Name, NoMemory>
        requires { IsAscii bytes.now }
        ensures { IfOk result (λ name. name ≡ bytes.now) }
    {
        let mut text = String::with_capacity(alloc, bytes.len())?;
        for byte in bytes {
            text.push(char::from(*byte))?;
        }
        Ok(Name { text })
    }

    /// The same name once more.
    pub fn copy(&self, alloc: Global) -> Result<Name, NoMemory>
        ensures { IfOk result (λ name. name ≡ self.now) }
    {
        Ok(Name {
            text: String::from_str(alloc, &self.text)?,
        })
    }

    pub fn as_slice(&self) -> &[u8]
        ensures { result.now ≡ self.now }
    {
        self.text.as_bytes()
    }
}

impl fmt::Display for Name {
    ghost output = { λ name. Some name };

    fn fmt<W: fmt::Write>(&self, f: &mut fmt::Formatter<W>) -> fmt::Result {
        f.write_str(&self.text)
    }
}

/// A disk that can be made to fail.
#[derive(Debug, Drop)]
pub enum ArmTarget {
    /// The disk of the volume of that name.
    Volume(Name),
    /// The disk on which the group of that name keeps its state.
    StateOf(Name),
}

/// A command on shadow sets.
#[derive(Debug, Drop)]
pub enum IiCommand {
    /// Makes a shadow of the master at this point in time, and keeps the states of its chunks on the bitmap volume.
    Enable {
        dependent: bool,
        master: Name,
        shadow: Name,
        bitmap: Name,
    },
}

/// What a statement asks for. Lengths and places are in blocks.
#[derive(Debug, Drop)]
pub enum Event {
    Volume {
        host: Host,
        volume: Name,
        blocks: u32,
    },
    Write {
        host: Host,
        volume: Name,
        at: u32,
        len: u32,
        pattern: Pattern,
    },
    Read {
        host: Host,
        volume: Name,
        at: u32,
        len: u32,
    },
    Ii {
        host: Host,
        command: IiCommand,
    },
    /// After `skip` further writes of that disk the next one fails, and stores `count` of its blocks from its block `first` on.
    Arm {
        host: Host,
        target: ArmTarget,
        skip: u32,
        first: u32,
        count: u32,
    },
    Crash {
        host: Host,
    },
    Recover {
        host: Host,
    },
}

/// What a line of a script says.
#[derive(Debug, Drop)]
pub enum Statement {
    /// Nothing: a line without words, or a comment.
    Nothing,
    Run(Event),
}
