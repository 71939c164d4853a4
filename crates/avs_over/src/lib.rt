//! An overflow volume: slots of 64 blocks, each given to a set or free.
#![tactic(auto)]

mod formats;
mod over;
mod owners;

pub use over::Over;
