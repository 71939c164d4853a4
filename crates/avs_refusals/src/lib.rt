//! Why an event is refused: over facts of what it names, the first row of its table whose cause holds.
#![tactic(auto)]

mod enabling;
mod exchange;
mod hosts;
mod limits;
mod ranges;
mod roles;
mod rows;
mod sets;
mod updating;

pub use enabling::enable_refusal;
pub use exchange::{Marked, export_refusal, import_refusal, join_refusal};
pub use hosts::{
    arm_refusal, attach_tap_refusal, drop_tap_refusal, host_refusal, make_refusal, move_refusal,
    recover_refusal, text_refusal, unarmed_refusal, word_refusal,
};
pub use ranges::{Looks, access_refusal, place_refusal, range_refusal, room_refusal};
pub use rows::first_row;
pub use sets::{
    abort_refusal, attach_refusal, bits_refusal, copy_refusal, detach_refusal, disable_refusal,
    overflow_refusal, slots_refusal, status_refusal,
};
pub use updating::update_refusal;
