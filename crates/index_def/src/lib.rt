//! The definition of an index: what a statement defines or why it defines nothing, and which rows a document has.
//!
//! This crate evaluates nothing: the rows of a document are defined here and made by whoever evaluates.
#![tactic(auto)]

mod checking;
mod deferral;
mod definition;
mod fault;
pub mod laws;
mod mention;
mod reason;
mod reasons;
mod subject;

pub use checking::check;
pub use deferral::is_build_deferred;
pub use definition::IndexDef;
pub use fault::DefFault;
pub use reason::Reason;
