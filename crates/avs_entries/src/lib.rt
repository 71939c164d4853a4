//! The entries of a compact set's chunks, four bytes each: in memory, and in two areas on the disk of a bitmap. What they
//! tell, which slots stand in them, how many are in a state, and how they are read, written and staged.
#![tactic(auto)]

mod alone;
mod entries;
mod formats;
mod marks;
mod parts;
mod put;
mod search;
mod staging;
mod tally;

pub use alone::{clear_bit, first_due, map_anew};
pub use entries::{ChunkState, ENTRIES, entry_for, entry_in, set_entry, slot_by, state_by};
pub use formats::{Found, Room, area_len, find, format, make_room};
pub use marks::{Counts, mark_anew, mark_slot};
pub use parts::{PART, fill_split, has_bit, tell_split};
pub use put::put_entry;
pub use search::first_over;
pub use staging::{Update, fill_block, stage_next};
pub use tally::Tally;
