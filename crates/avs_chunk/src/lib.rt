//! Shadow sets in chunks: where the contents of each chunk stand, on the master, on the shadow's disk, or on both.
#![tactic(auto)]

mod chunks;
mod copies;
mod formats;
mod put;
mod states;

pub use chunks::Chunks;
