//! For tests: shadow sets of any kind behind one face, steps on two of them, and what they stand for by the definitions.
#![tactic(auto)]

pub mod calls;
pub mod draws;
pub mod plain;
pub mod staging;
pub mod steps;
