//! The state of an index: the rows in their order, and beside them the rows of each id, so that a document's rows are
//! replaced without a look at any other document's.
#![tactic(auto)]

mod change;
mod held;
pub mod laws;
mod put;
mod state;

pub use change::Change;
pub use state::IndexState;

#[cfg(test)]
mod tests;
