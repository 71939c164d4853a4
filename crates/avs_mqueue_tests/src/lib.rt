//! A queue in memory in long rows of calls, beside a plain reading of it.
#![tactic(auto)]

#[cfg(test)]
mod tests;
