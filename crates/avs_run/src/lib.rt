//! Runs scripts: the top call, and what a line does and prints.
#![tactic(auto)]

mod end;
mod line;
mod print;
mod run;
mod script;

pub use script::run_script;
