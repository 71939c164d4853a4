//! Imports on disks in memory: what is found after each call, and after each stop of one.
#![tactic(auto)]

#[cfg(test)]
mod disks;
#[cfg(test)]
mod making;
#[cfg(test)]
mod writing;
