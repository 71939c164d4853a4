//! The state disk of a group of shadow sets: what its block says of each slot, and the write of that block, which is every commit.
#![tactic(auto)]

mod first_blocks;
mod slot_states;
mod state_disk;

pub use slot_states::{SlotState, Standing, put_said, said};
pub use state_disk::StateDisk;
