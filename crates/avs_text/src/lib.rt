//! The text of scripts and answers: words, numbers and names that are read, patterns and the blocks that they fill, and the lines that
//! are printed.
#![tactic(auto)]

mod equal_runs;
mod filling;
mod names;
mod numbers;
mod print;
mod words;

pub use equal_runs::runs;
pub use filling::fill;
pub use names::{host_named, is_group_name, is_volume_name};
pub use numbers::{number, pattern};
pub use print::{answer_line, bad_line};
pub use words::WordReader;
