//! Two areas of a disk: blocks are staged in the one while the other is live, and then they turn.
#![tactic(auto)]

mod flip;
#[cfg(test)]
mod tests;

pub use flip::Flip;
