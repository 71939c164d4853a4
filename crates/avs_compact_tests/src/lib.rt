//! Compact sets over disks in memory: their entries and labels, their slots, and sets of one block of entries and of more.
#![tactic(auto)]

#[cfg(test)]
mod large;
#[cfg(test)]
mod sets;
#[cfg(test)]
mod tests;
