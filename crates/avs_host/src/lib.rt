//! What a host keeps outside its groups: the names of its volumes with their roles, the disks at rest, and its next stamp.
#![tactic(auto)]

mod facts;
mod laws;
mod resting;
mod store;

pub use facts::{roles_tell_the_role, told_role};
pub use laws::{
    a_disk_moves_alone, a_volume_comes_alone, a_volume_leaves_alone, roles_change_alone,
};
pub use store::{HostStore, Returned};
