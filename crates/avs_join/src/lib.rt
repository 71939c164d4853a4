//! An import: a volume that was given away and is written here, with a bitmap that tells in which segments.
#![tactic(auto)]

mod arming;
mod format;
mod import;
mod refusals;

pub use import::{Import, Returned2};
pub use refusals::check_stamp;
