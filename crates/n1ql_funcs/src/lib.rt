//! The operators and functions of N1QL on values: four-valued logic, comparisons, whole numbers of 64 bits, paths and the
//! functions of the language. An expression is not known here.
#![tactic(auto)]

mod arithmetic;
mod calls;
mod choice;
mod comparison;
pub mod laws;
mod logic;
mod operation;
mod paths;
#[cfg(test)]
mod tests;
mod texts;
mod truth;

pub use arithmetic::{calculate, negate};
pub use calls::call;
pub use comparison::{between, compare, is_in};
pub use logic::{and2, not1, or2};
pub use n1ql_value::{is_missing, is_null, is_true, is_valued};
pub use operation::operate;
pub use paths::{field, place};
pub use texts::join;
pub use truth::Truth;
