//! The receiving half of a mirror group: it is asked into a session, applies its places in order, and leaves.
#![tactic(auto)]

mod applying;
mod asking;
mod disks;
mod half;
mod leaving;
mod lending;
mod loading;
mod parts;
mod receiver;
mod redoing;
mod restoring;
mod slots;
mod telling;
mod writing;

pub use receiver::Receiver;
