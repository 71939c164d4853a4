// What refusals ask of a host, a volume, a group and a shadow set. Where something is not there, its numbers are 0 and its flags false.
use crate::answer::{Role, Word};
use crate::event::Host;
use crate::shadow::Kind;

/// Of a host.
#[derive(Clone, Copy, Debug)]
pub struct HostFacts {
    pub name: Host,
    pub up: bool,
}

/// Of the volume of a name on a host. Where no volume of that name is there, its role is `Plain`.
#[derive(Clone, Copy, Debug)]
pub struct VolumeFacts {
    pub there: bool,
    /// What it serves as, the first that fits.
    pub role: Role,
    /// It is imported on that host.
    pub imported: bool,
    /// It is the bitmap of an import.
    pub keeps_import: bool,
    /// How many blocks its disk has.
    pub blocks: u32,
    /// How many of its blocks can be read and written.
    pub reach: u32,
    /// It has no contents: it is spent, or receives in a session that is not finished.
    pub empty: bool,
}

/// The two numbers of a compact set that is offline.
#[derive(Clone, Copy, Debug)]
pub struct Lack {
    pub need: u32,
    pub slots: u32,
}

/// Of the shadow set of a name on a host. Where it is not there, its kind is `Ind`.
#[derive(Clone, Copy, Debug)]
pub struct SetFacts {
    pub there: bool,
    pub kind: Kind,
    pub exported: bool,
    /// Its copying was stopped.
    pub stopped: bool,
    /// Where it is offline, the numbers that it keeps.
    pub offline: Option<Lack>,
    /// How many chunks of the first set of its master that has such chunks lie on the shadow alone.
    pub back: u32,
    /// How many chunks of its own lie on the master alone.
    pub left: u32,
    /// It has an overflow volume.
    pub attached: bool,
    /// How many slots of that volume it uses.
    pub used: u32,
    /// Its master has no contents.
    pub master_empty: bool,
    /// Where its master is a mirror volume whose half is not in logging, the state of that half.
    pub half: Option<Word>,
}

/// Of the group that a new shadow set would join.
#[derive(Clone, Copy, Debug)]
pub struct GroupFacts {
    /// It is not there yet.
    pub is_new: bool,
    /// The master has a set in another group than the one that is named.
    pub is_other: bool,
    /// How many shadow sets it has.
    pub sets: u32,
    /// How many groups the host has.
    pub groups: u32,
}
