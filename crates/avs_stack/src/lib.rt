//! The names of a host's volumes in order of making, each with the world's number of it and its roles.
#![tactic(auto)]

mod roles;
mod stack;
#[cfg(test)]
mod tests;

pub use roles::Roles;
pub use stack::Stack;
