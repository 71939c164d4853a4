//! For tests: a sender of two sets on disks in memory behind one face, calls on it as data, and what it stands for by the definitions.
#![tactic(auto)]

pub mod calls;
pub mod disks;
pub mod draws;
pub mod plain;
pub mod rig;
pub mod set;
