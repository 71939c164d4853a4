//! Tests of records: each at the edges of its fields, and blocks in which bytes are altered.
#![tactic(auto)]

#[cfg(test)]
mod tests;
