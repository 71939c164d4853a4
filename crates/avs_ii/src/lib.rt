//! The shadow sets of a group of volumes, found again from its disks.
#![tactic(auto)]

mod group;
mod held;
mod laws;
mod lists;
mod parts;
mod refusals;
mod saved;
mod state_disk;
#[cfg(test)]
mod tests;

pub use group::IiGroup;
pub use laws::sound_is_found;
pub use lists::{DiskList, SetList, SetParts};
pub use parts::{IiClosed, IiParts, Returned, Returned2};
