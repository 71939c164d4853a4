//! Shadow sets in chunks: where the contents of each chunk stand, on the master, on the shadow's disk, or on both.
#![tactic(auto)]

mod arming;
mod chunks;
mod copies;
mod copying;
mod counting;
mod formats;
mod laws;
mod parts;
mod put;
mod reading;
mod settling;
mod staged_parts;
mod staging;
mod states;
mod words;
mod writing;

pub use chunks::Chunks;
pub use laws::work_is_that_of_stages;
pub use states::ChunkState;
