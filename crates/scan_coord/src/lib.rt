//! What a request has to see, and whether a publication shows it.
//!
//! This crate knows vectors alone: no index, no snapshot and no history.
#![tactic(auto)]

mod decision;
mod demand;
mod session;

pub use decision::{Decision, decide};
pub use demand::{Demand, wanted};
pub use session::Session;

#[cfg(test)]
mod tests;
