//! Where a script's bytes come from and where its answers go, and the lines of the bytes.
#![tactic(auto)]

mod adapters;
mod lines;
mod memory;
mod stream;

pub use adapters::{Reading, Writing};
pub use lines::{LineFault, LineText, Lines, MAX_LINE, MAX_LINES, Next};
pub use memory::{MemSink, MemSource};
pub use stream::{Sink, Source, put_all};
