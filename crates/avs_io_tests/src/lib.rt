//! Tests of lines of scripts, of answers given to a sink, and of the two adapters.
#![tactic(auto)]

#[cfg(test)]
mod tests;
