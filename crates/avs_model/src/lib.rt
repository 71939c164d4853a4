//! What the suite speaks of: events, answers and refusals, and in `specs/` what they mean.
#![tactic(auto)]

mod answer;
mod blocks;
mod command_facts;
mod entry;
mod equal_runs;
mod event;
mod event_facts;
mod facts;
mod half;
mod pattern;
pub mod product;
mod recovered;
mod shadow;
mod tap;

pub use answer::{Answer, Refusal, Role, Word};
pub use blocks::Blocks;
pub use command_facts::{
    AttachFacts, BitsFacts, DisableFacts, EnableFacts, ExportFacts, ImportFacts, JoinFacts,
    NamedSetFacts, OneSetFacts, OverflowFacts, SlotsFacts, UpdateFacts,
};
pub use entry::{Entry, EntryKind, Full, Limits};
pub use equal_runs::{EqualRuns, shortest_pattern};
pub use event::{ArmTarget, Event, Host, IiCommand, Name, Statement};
pub use event_facts::{
    AccessFacts, ArmFacts, AttachTapFacts, DropTapFacts, MakeFacts, MoveFacts, RangeFacts,
    RoomFacts, TextFacts,
};
pub use facts::{GroupFacts, HostFacts, Lack, SetFacts, VolumeFacts};
pub use half::{HalfRole, State};
pub use pattern::Pattern;
pub use recovered::{GroupLine, GroupLines, Recovered, Second, SetLine, SetLines};
pub use shadow::Kind;
pub use tap::{Io, Tally, Tap, Verdict};
