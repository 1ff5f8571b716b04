//! Covered statements: what an index covers is answered from its rows alone. `over_index` is the statement over these rows, and the
//! laws say that it has their results.
#![tactic(auto)]

mod expressions;
pub mod laws;
mod statements;

pub use statements::over_index;
