//! Two shadow sets of one master, of any two kinds, over disks in memory: what each call leaves, and each stop of one.
#![tactic(auto)]

#[cfg(test)]
mod acts;
#[cfg(test)]
mod checks;
#[cfg(test)]
mod exits;
#[cfg(test)]
mod pairs;
#[cfg(test)]
mod runs;
#[cfg(test)]
mod sets;
#[cfg(test)]
mod stops;
#[cfg(test)]
mod torn;
#[cfg(test)]
mod turns;
#[cfg(test)]
mod updates;
