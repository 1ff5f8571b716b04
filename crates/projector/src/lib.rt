//! The projector: what becomes of a piece of mutations in each of several indexes.
#![tactic(auto)]

pub mod laws;
mod numbered_def;
mod projection;

pub use numbered_def::NumberedDef;
pub use projection::{ProjectedList, project};

#[cfg(test)]
mod tests;
