//! Sets of segments on disks in memory: what stands after each call, and after each failing one.
#![tactic(auto)]

#[cfg(test)]
mod tests;
