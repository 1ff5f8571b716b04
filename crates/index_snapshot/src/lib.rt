//! The worker of an index, which applies what becomes of mutations to its rows, and the snapshots that it makes.
//!
//! This crate knows no stream, no client and no lock: whatever is lost, repeated or reordered on the way to a worker, its rows
//! are the index of the documents at its vector.
#![tactic(auto)]

mod applied;
mod changes;
pub mod laws;
mod snapshot;
mod worker;

pub use applied::Applied;
pub use snapshot::Snapshot;
pub use worker::IndexWorker;
