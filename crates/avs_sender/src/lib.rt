//! The sending half of a mirror group: it is found on its parts, begins a session, takes writes, copies, learns that places were
//! applied, leaves, and is restored.
#![tactic(auto)]

mod admitting;
mod asking;
mod beginning;
mod contents;
mod copying;
mod disks;
mod freeing;
mod half;
mod hosts;
mod leaving;
mod lending;
mod loading;
mod noting;
mod parts;
mod restoring;
mod sender;
mod ticking;
mod tracked;
mod tracking;
mod waiting;

pub use admitting::Admitted;
pub use asking::Settled;
pub use copying::SyncStep;
pub use sender::Sender;
