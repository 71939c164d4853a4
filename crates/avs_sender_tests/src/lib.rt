//! A sender of two sets over disks in memory: what each call answers and leaves, and what is found after each stop of one.
#![tactic(auto)]

#[cfg(test)]
mod answers;
#[cfg(test)]
mod calls;
#[cfg(test)]
mod lies;
#[cfg(test)]
mod loads;
#[cfg(test)]
mod plays;
#[cfg(test)]
mod runs;
#[cfg(test)]
mod stops;
#[cfg(test)]
mod torn;
#[cfg(test)]
mod worked;
