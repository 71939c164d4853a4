//! A shadow set of a group, with its disks: what each of its calls gives the group, whatever kind the set is of.
#![tactic(auto)]

mod any;
mod any_calls;
mod any_updates;
mod arming;
mod counting;
mod held;
mod reading;
mod settling;
mod slot_calls;
mod slot_counts;
mod slots;
mod staging;

pub use any::AnySet;
pub use held::{HeldSet, Seat};
pub use slots::HeldCompact;
