//! The mirror sets of a half: their bits in memory and on the disks of their bitmaps.
#![tactic(auto)]

mod changes;
mod disks;
mod listing;
mod loading;
mod marking;
mod mirrors;
mod words;
mod writing;

pub use loading::half_why;
pub use marking::{filled_slots, note_list, note_marks};
pub use mirrors::MirrorSets;
pub use words::{is_receiver, is_session, word_of};
pub use writing::write_note;
