//! A set of segments, as bits in memory and on a disk.
#![tactic(auto)]

mod bit_bytes;
mod bits;
mod changes;
mod label_bytes;
mod laws;

pub use bits::Bits;
pub use laws::parts_follow_parts;
