//! Landing volumes on disks in memory: what is found after each call, and after each stop of one.
#![tactic(auto)]

#[cfg(test)]
mod entries;
#[cfg(test)]
mod headers;
#[cfg(test)]
mod stops;
#[cfg(test)]
mod volumes;
