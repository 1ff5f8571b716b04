//! JSON to values and back (RFC 8259), with whole numbers alone. The grammar, the numbers and the escapes are those of
//! `serde_json`; this crate goes between its values and ours.
#![tactic(auto)]

mod fault;
pub mod laws;
mod reader;
mod reading;
#[cfg(test)]
mod tests;
mod tree;
mod writing;

pub use fault::JsonFault;
pub use reader::JsonReader;
pub use reading::{read, value_from};
pub use writing::write;
