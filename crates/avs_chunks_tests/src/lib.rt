//! Shadow sets in chunks over disks in memory: their disks and labels, and sets of one part and of more.
#![tactic(auto)]

#[cfg(test)]
mod disks;
#[cfg(test)]
mod large;
#[cfg(test)]
mod sets;
