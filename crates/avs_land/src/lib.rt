//! The landing volume of a receiving half: the entry of one place, whole, before it goes below.
#![tactic(auto)]

mod area;
mod label;
mod land;

pub use land::Land;
