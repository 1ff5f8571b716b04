//! The meaning of a SELECT: its results on documents, by direct evaluation of all its steps. There is no code to run here: the
//! definitions stand in specs/, and what holds of them in `laws` and `worked_results`.
#![tactic(auto)]

pub mod laws;
pub mod worked_results;
