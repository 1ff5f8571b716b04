//! The reading of expressions of N1QL, of SELECT and of its statements on indexes, from text.
#![tactic(auto)]

mod expressions;
mod index_statements;
pub mod laws;
mod parse_fault;
mod queries;
mod tokens;

pub use expressions::expr;
pub use index_statements::ddl;
pub use parse_fault::ParseFault;
pub use queries::select;
