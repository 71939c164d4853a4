//! A source that gives another's bytes line by line, and keeps the line that it is giving.
#![tactic(auto)]

mod kept;
mod told;

pub use kept::KeptLine;
pub use told::Told;

#[cfg(test)]
mod tests;
