//! Mirror sets of a half over disks in memory: what is found after each call, and after each stop of one.
#![tactic(auto)]

#[cfg(test)]
mod half;
#[cfg(test)]
mod refusals;
#[cfg(test)]
mod stops;
#[cfg(test)]
mod writes;
