//! How far a worker has come in each vBucket, and which of the pieces that come to it are next.
//!
//! This crate knows no piece and no index: it decides by numbers alone.
#![tactic(auto)]

pub mod laws;
mod offer;
mod tracker;

pub use offer::Offer;
pub use tracker::Tracker;

#[cfg(test)]
mod tests;
