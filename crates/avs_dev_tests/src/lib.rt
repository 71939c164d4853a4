//! Disks, racks and volumes in memory, used through their traits.
#![tactic(auto)]

#[cfg(test)]
mod bare;
#[cfg(test)]
mod disks;
#[cfg(test)]
mod errands;
#[cfg(test)]
mod helpers;
