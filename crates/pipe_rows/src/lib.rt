//! From the inputs of a statement, documents or rows of an index, to its results, by direct evaluation: UNNEST and WHERE, the results of
//! rows, and DISTINCT, ORDER BY, OFFSET and LIMIT.
#![tactic(auto)]

mod distinct;
mod element;
mod finishing;
mod given;
mod input;
pub mod laws;
mod object;
mod ordering;
mod out;
mod pipe_row;
mod plain_results;
mod rows;
mod sorting;
mod unnesting;

pub use element::Element;
pub use finishing::finish;
pub use input::{Input, Inputs};
pub use out::{Out, Outs};
pub use pipe_row::{PipeRow, PipeRows};
pub use plain_results::plain_outs;
pub use rows::base_rows;
