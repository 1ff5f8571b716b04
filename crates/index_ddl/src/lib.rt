//! The catalog: which indexes are live, in order of creation, and what CREATE, BUILD and DROP INDEX make of them.
//!
//! This crate reads no statement and keeps no rows: a name, a definition and a state are all that it knows of an index.
#![tactic(auto)]

mod catalog;
mod fault;
mod live_index;

pub use catalog::Catalog;
pub use fault::DdlFault;
pub use live_index::LiveIndex;

#[cfg(test)]
mod tests;
