//! Words that are read and lines that are printed.
#![tactic(auto)]

#[cfg(test)]
mod tests;
