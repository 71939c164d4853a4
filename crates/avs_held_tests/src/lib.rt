//! Shadow sets of either kind in their seats, over disks in memory.
#![tactic(auto)]

#[cfg(test)]
mod sets;
#[cfg(test)]
mod tests;
