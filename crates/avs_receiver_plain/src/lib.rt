//! For tests: a receiver over two sets, steps on it, and what it stands for by the definitions.
#![tactic(auto)]

pub mod calls;
pub mod draws;
pub mod errands;
pub mod plain;
pub mod steps;
