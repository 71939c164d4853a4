//! A group of volumes and of the shadow sets of which they are masters, over a state disk.
#![tactic(auto)]

mod commands;
mod copying;
mod group;
mod naming;
mod reading;
mod status;
mod volumes;

pub use group::{Returned, ShadowGroup};
pub use status::{OverStatus, SetStatus};
