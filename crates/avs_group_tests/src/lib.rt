//! Shadow groups over disks in memory, by their public calls.
#![tactic(auto)]

#[cfg(test)]
mod tests;
