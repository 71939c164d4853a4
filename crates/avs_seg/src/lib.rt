//! Blocks, images and segments of a volume, and the two ways in which a call gives up.
#![tactic(auto)]

mod fault;
mod segment;
mod stages;
#[cfg(test)]
mod tests;

pub use fault::{Failed, NoMemory};
pub use segment::{BLOCK, SEGMENT, SegList, Span, seg_count, seg_span, segments};
pub use stages::{
    InParts, Staged, parts_see_their_stages, stages_are_stopped, stages_follow_stages,
    stages_within_others,
};
