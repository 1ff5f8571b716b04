//! Rows in their order: a list that changes one row at a time, and the list as it stood at a moment, to be scanned.
#![tactic(auto)]

mod frozen;
mod places;
mod shared;
mod tree;

pub use frozen::Frozen;
pub use shared::SharedRows;
pub use tree::Tree;

#[cfg(test)]
mod tests;
