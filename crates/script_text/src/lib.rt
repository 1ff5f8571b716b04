//! Scripts as text: what the bytes of an input say, and the report of a script's history.
#![tactic(auto)]

pub mod laws;
pub mod line_laws;
mod reader;
mod reporting;

pub use reader::{ScriptFault, read_script};
pub use reporting::report;
