//! Entries that came to a receiver before their turn, held by place.
#![tactic(auto)]

mod arrivals;
#[cfg(test)]
mod tests;

pub use arrivals::Arrivals;
