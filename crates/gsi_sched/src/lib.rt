//! The replay of a script: one history, in which each client's commands stand once and in order. It parses the statements
//! that the commands hold and makes the texts of their answers; the lines of scripts and reports are script_text's.
#![tactic(auto)]

pub mod heart;
pub mod laws;
mod machine;
mod rows_text;
pub mod worked_replays;

pub use machine::whole::replay;
