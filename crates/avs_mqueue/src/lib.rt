//! The queue of a group in memory: entries of the group's order, each with its place.
#![tactic(auto)]

mod queue;
#[cfg(test)]
mod tests;

pub use queue::MemQueue;
