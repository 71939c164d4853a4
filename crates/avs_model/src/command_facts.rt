// What refusals ask of each command on shadow sets.
use crate::facts::{GroupFacts, HostFacts, SetFacts, VolumeFacts};
use crate::shadow::Kind;

/// What enabling a set asks.
#[derive(Clone, Copy, Debug)]
pub struct EnableFacts {
    pub host: HostFacts,
    pub dependent: bool,
    pub master: VolumeFacts,
    pub shadow: VolumeFacts,
    pub bitmap: VolumeFacts,
    /// The shadow's name is the master's.
    pub shadow_twice: bool,
    /// The bitmap's name is one of these two.
    pub bitmap_twice: bool,
    pub group: GroupFacts,
    /// How many chunks of the first set of that master that has such chunks lie on its shadow alone.
    pub back: u32,
}

/// What an update or a full copy asks of all its sets.
#[derive(Clone, Copy, Debug)]
pub struct UpdateFacts {
    pub host: HostFacts,
    /// The masters become the shadows.
    pub to_master: bool,
    /// No group is named, or it is there.
    pub group_there: bool,
}

/// And of one of them. They stand in the order in which they are named, and where a group is named in order of enabling.
#[derive(Clone, Copy, Debug)]
pub struct NamedSetFacts {
    pub set: SetFacts,
    /// The number of its word, and 0 where a group is named.
    pub word: u32,
    /// It stands before already.
    pub again: bool,
    /// It belongs to another group than the first.
    pub is_other: bool,
    /// Its master is that of another set that stands before.
    pub master_again: bool,
}

/// What a command on one set asks that needs nothing else: to stop its copying, to copy a step or all, to detach its overflow volume,
/// to tell of it.
#[derive(Clone, Copy, Debug)]
pub struct OneSetFacts {
    pub host: HostFacts,
    pub set: SetFacts,
}

/// What disabling a set, or ending an import, asks.
#[derive(Clone, Copy, Debug)]
pub struct DisableFacts {
    pub host: HostFacts,
    /// The host has an import of that volume, which the command ends.
    pub is_import: bool,
    pub set: SetFacts,
}

/// What making an overflow volume asks.
#[derive(Clone, Copy, Debug)]
pub struct OverflowFacts {
    pub host: HostFacts,
    pub volume: VolumeFacts,
    /// How many overflow volumes the host has.
    pub overflows: u32,
}

/// What attaching an overflow volume to a set asks.
#[derive(Clone, Copy, Debug)]
pub struct AttachFacts {
    pub host: HostFacts,
    pub volume: VolumeFacts,
    /// The volume is attached to a set of another group.
    pub elsewhere: bool,
    pub set: SetFacts,
}

/// What telling the slots of an overflow volume asks.
#[derive(Clone, Copy, Debug)]
pub struct SlotsFacts {
    pub host: HostFacts,
    pub volume: VolumeFacts,
}

/// What exporting a set asks.
#[derive(Clone, Copy, Debug)]
pub struct ExportFacts {
    pub host: HostFacts,
    pub set: SetFacts,
    /// The stamp that the host would give.
    pub stamp: u64,
}

/// What importing a volume asks.
#[derive(Clone, Copy, Debug)]
pub struct ImportFacts {
    pub host: HostFacts,
    pub volume: VolumeFacts,
    /// It was imported since it was exported, and with which stamp it was exported: its bitmap is then used again.
    pub again: Option<u64>,
    pub bitmap: VolumeFacts,
    /// The bitmap's name is the volume's.
    pub bitmap_twice: bool,
    /// How many imports the host has.
    pub imports: u32,
}

/// What joining a set that was exported asks.
#[derive(Clone, Copy, Debug)]
pub struct JoinFacts {
    pub host: HostFacts,
    pub set: SetFacts,
    /// Its volume is on the host, was imported since its export, and is not imported now.
    pub is_back: bool,
    /// The stamp of its export.
    pub stamp: u64,
    pub bitmap: VolumeFacts,
}

/// What telling the segments with bits of a set asks.
#[derive(Clone, Copy, Debug)]
pub struct BitsFacts {
    pub host: HostFacts,
    /// A set of that name is there.
    pub there: bool,
    /// What it is where it is a shadow set, which has none.
    pub kind: Option<Kind>,
}
