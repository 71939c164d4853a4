//! A receiver over two sets, on disks in memory: what each call leaves, and each stop of one.
#![tactic(auto)]

#[cfg(test)]
mod checks;
#[cfg(test)]
mod disks;
#[cfg(test)]
mod exits;
#[cfg(test)]
mod numbers;
#[cfg(test)]
mod play;
#[cfg(test)]
mod records;
#[cfg(test)]
mod restoring;
#[cfg(test)]
mod runs;
#[cfg(test)]
mod stops;
#[cfg(test)]
mod worked;
