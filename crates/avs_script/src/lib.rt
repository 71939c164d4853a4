//! Reads the statements of a script.
#![tactic(auto)]

mod built;
mod error;
mod line;
mod reasons;

pub use built::is_built;
pub use error::LineError;
pub use line::read_line;
pub use reasons::{BadLine, reason};
