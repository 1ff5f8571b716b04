//! The rows of a mutation in an index, and what becomes of a piece of mutations.
#![tactic(auto)]

mod elements;
mod key_version;
mod keys;
pub mod laws;
mod order;
mod projected;
mod rows;
mod tuples;
mod values;

pub use key_version::{KeyVersion, KeyVersions, version_of};
pub use keys::keys_of;
pub use projected::Projected;
