//! What a half of a mirror group keeps of its session: the session itself, the note that is found again after a crash, and the
//! parts that a half is loaded from.
#![tactic(auto)]

mod laws;
mod note;
mod parts;
mod session;
#[cfg(test)]
mod tests;

pub use laws::{goes_on_as_its_half, one_spelling};
pub use note::{NOTE, Note, get_note, put_note};
pub use parts::{HalfClosed, HalfParts, HalfSet, HalfSets};
pub use session::Session;
