//! Compact shadow sets: the contents of each chunk stand on the master or in a slot, of the shadow's disk or of an
//! overflow volume.
#![tactic(auto)]

mod arming;
mod compact;
mod copies;
mod copying;
mod counting;
mod fault;
mod laws;
mod parts;
mod reading;
mod saving;
mod settling;
mod slots;
mod stage_work;
mod staged_parts;
mod staging;
mod taking;
mod writing;

pub use avs_entries::ChunkState;
pub use compact::Compact;
pub use fault::CompactFault;
pub use laws::{parts_turn, updates_turn};
pub use stage_work::work_is_that_of_stages;
