//! Values, rows and their order.
#![tactic(auto)]

mod collation;
mod datum;
mod fun;
mod kinds;
pub mod laws;
pub mod limits;
mod list_of;
mod memory;
mod op;
mod order;
mod pairs;
mod range;
mod row;
mod span;
mod state;
#[cfg(test)]
mod tests;
mod text;
mod vals;
mod value;
mod words;

pub use collation::{collate, collate_rows};
pub use datum::Datum;
pub use fun::Fun;
pub use kinds::{is_missing, is_null, is_true, is_valued};
pub use list_of::ListOf;
pub use memory::{Failed, Memory};
pub use op::Op;
pub use pairs::Pairs;
pub use range::Range;
pub use row::Row;
pub use span::{Span, Spans};
pub use state::State;
pub use text::Text;
pub use vals::Vals;
pub use value::Value;
pub use words::{same_text, same_word};

/// Rows, in order.
pub type Rows = ListOf<Row>;
