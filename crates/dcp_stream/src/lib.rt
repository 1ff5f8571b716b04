//! Streams of mutations: pieces of a vBucket's mutations, and how far a stream has come.
//!
//! This crate knows no index: whoever takes a piece decides what becomes of it.
#![tactic(auto)]

pub mod laws;
mod piece;
mod position;

pub use piece::Piece;
pub use position::Position;

#[cfg(test)]
mod tests;
