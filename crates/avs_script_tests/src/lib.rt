//! Lines of scripts, and what each is read as.
#![tactic(auto)]

#[cfg(test)]
mod tests;
