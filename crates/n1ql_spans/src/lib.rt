//! Spans: which rows of an index a statement has to read, whether the index qualifies for it, and whether its rows tell all that the
//! statement reads.
//!
//! This crate knows one index at a time, and no catalog: which of several serves a statement is defined here and chosen by whoever
//! knows them.
#![tactic(auto)]

mod among;
mod bounding;
mod constant;
mod covering;
mod distinct;
mod edge;
mod fits;
mod key_bounds;
pub mod laws;
mod operands;
mod order_keys;
mod qualifying;
mod range_algebra;
mod spans;
mod statement;

pub use covering::is_own_id;
pub use fits::Fit;
pub use operands::is_among;
pub use qualifying::{fit, where_conjuncts};
pub use spans::spans_of;
pub use statement::has_array;
