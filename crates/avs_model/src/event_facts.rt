// What refusals ask of each statement, where it is no command on shadow sets.
use crate::answer::Word;
use crate::entry::Full;
use crate::facts::{HostFacts, Lack, VolumeFacts};

/// What making a volume asks.
#[derive(Clone, Copy, Debug)]
pub struct MakeFacts {
    pub host: HostFacts,
    /// The name is taken there: by a volume, or by an exported set whose volume was moved away.
    pub taken: bool,
    pub blocks: u32,
    /// The blocks of the volumes of both hosts.
    pub all_blocks: u32,
}

/// What a read or a write of a range asks before the taps look at it.
#[derive(Clone, Copy, Debug)]
pub struct RangeFacts {
    pub host: HostFacts,
    pub volume: VolumeFacts,
    pub at: u32,
    pub len: u32,
    /// How many blocks it has at most.
    pub longest: u32,
    /// The place that a write would take in the session of its volume, and 0 outside a session.
    pub place: u64,
}

/// And what it asks then.
#[derive(Clone, Copy, Debug)]
pub struct AccessFacts {
    /// The volume is marked away, and no import lets it be read and written here.
    pub is_away: bool,
    /// Of a write to a volume that receives in a session, the state of its half.
    pub half: Option<Word>,
    pub empty: bool,
    /// Of a shadow whose set is offline, the numbers that it keeps.
    pub offline: Option<Lack>,
}

/// What only the work on it finds: a write to a shadow would need more slots than there are, or the queue is full.
#[derive(Clone, Copy, Debug)]
pub struct RoomFacts {
    pub offline: Option<Lack>,
    pub full: Option<Full>,
}

/// What a disk that is to fail asks.
#[derive(Clone, Copy, Debug)]
pub struct ArmFacts {
    pub host: HostFacts,
    /// A disk of a group is named, and not that of a volume.
    pub of_group: bool,
    /// The volume, or the group, is there.
    pub there: bool,
}

/// What moving a volume to the other host asks.
#[derive(Clone, Copy, Debug)]
pub struct MoveFacts {
    pub from: HostFacts,
    pub to: HostFacts,
    /// On the host that it leaves.
    pub volume: VolumeFacts,
    /// The name is taken on the host that it comes to: by a volume, or by an exported set whose volume is another one.
    pub taken: bool,
}

/// What attaching a tap asks.
#[derive(Clone, Copy, Debug)]
pub struct AttachTapFacts {
    pub host: HostFacts,
    /// The volume is there.
    pub there: bool,
    pub tap: u32,
    /// The tap is in the list.
    pub listed: bool,
}

/// What dropping the last tap of a volume asks.
#[derive(Clone, Copy, Debug)]
pub struct DropTapFacts {
    pub host: HostFacts,
    /// The volume is there.
    pub there: bool,
    /// A tap is attached to it.
    pub attached: bool,
}

/// What one more line of a text asks.
#[derive(Clone, Copy, Debug)]
pub struct TextFacts {
    /// There is no text of that name yet.
    pub is_new: bool,
    pub texts: u32,
    /// How many lines it has.
    pub lines: u32,
}
