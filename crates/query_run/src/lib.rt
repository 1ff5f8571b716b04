//! The bytes of answers: what a statement that an index covers gives, from the rows of a snapshot alone.
#![tactic(auto)]

mod covered;
mod list_text;
mod row_order;
mod run_fault;

pub use covered::answer_covered;
pub use run_fault::RunFault;
