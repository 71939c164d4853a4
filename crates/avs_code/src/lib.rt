//! The records that stand in single blocks of a disk, each with one spelling for one value.
#![tactic(auto)]

mod bytes;
mod config_headers;
mod group_blocks;
mod labels;
mod land_headers;
mod laws;
mod queue_headers;
mod records;
mod slot_table;

pub use bytes::{is_zero, is_zero_from, put_part, put_u16, put_u64, start, u16_at, u64_at};
pub use config_headers::{ConfigHeader, get_config_header, put_config_header};
pub use group_blocks::{GroupBlock, get_group_block, put_group_block};
pub use labels::{Label, LabelUse, get_label, get_label_of, put_label};
pub use land_headers::{
    EntryHeader, LandHeader, get_entry_header, get_land_header, put_entry_header, put_land_header,
};
pub use laws::one_spelling;
pub use queue_headers::{QueueHeader, get_queue_header, put_queue_header};
pub use records::{BadRecord, MAX_NUMBER, check};
pub use slot_table::{SLOTS, Slot, Slots};
