//! The streams of the indexes: the maintenance stream that all online indexes share, and an initial stream for each index that
//! is being built.
//!
//! This crate knows no index: it tells streams apart by the numbers of their indexes.
#![tactic(auto)]

mod streams;

pub use streams::Streams;

#[cfg(test)]
mod tests;
