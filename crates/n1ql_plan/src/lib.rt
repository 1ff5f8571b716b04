//! The planner: which of the online indexes answers a statement, and which spans of it are read.
#![tactic(auto)]

mod choice;
pub mod laws;
mod plan_fault;
mod planner;
mod query_plan;

pub use plan_fault::PlanFault;
pub use planner::plan;
pub use query_plan::Plan;
