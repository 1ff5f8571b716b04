//! The top calls of the index service: from the bytes of a script to the bytes of its report.
#![tactic(auto)]

mod answer;
mod giving;
mod history;
mod mem_sink;
mod mem_source;
mod reading;
mod replay;
mod sink;
mod source;
mod status;
mod std_sink;
mod std_source;
mod sure_sink;
mod sure_source;
#[cfg(test)]
mod tests;
mod writing;

pub use mem_sink::MemSink;
pub use mem_source::MemSource;
pub use replay::gsi_replay;
pub use scan_history::{Kind, What};
pub use sink::Sink;
pub use source::Source;
pub use status::Status;
pub use std_sink::StdSink;
pub use std_source::StdSource;
pub use sure_sink::SureSink;
pub use sure_source::SureSource;
