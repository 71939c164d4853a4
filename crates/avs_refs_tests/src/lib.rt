//! Places that touch segments, in long rows of calls, beside a plain reading of them.
#![tactic(auto)]

#[cfg(test)]
mod tests;
