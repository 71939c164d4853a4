//! The tables of refusals at their edges, against answers that were worked by hand.
#![tactic(auto)]

#[cfg(test)]
mod exchanges;
#[cfg(test)]
mod facts;
#[cfg(test)]
mod hosts;
#[cfg(test)]
mod ranges;
#[cfg(test)]
mod sets;
