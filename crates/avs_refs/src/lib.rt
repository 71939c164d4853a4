//! Which segments the outstanding places of a group's order touch, and which of them have become idle.
#![tactic(auto)]

mod candidates;
mod refs;
#[cfg(test)]
mod tests;
mod touch;

pub use refs::Refs;
