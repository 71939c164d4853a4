//! The world of host p: its volumes and their disks, its shadow sets, and what each event does to them.
#![tactic(auto)]

mod enabling;
mod group;
mod place;
mod ranges;
mod recovery;
mod stopped;
mod world;

pub use world::{World, WorldFault};
