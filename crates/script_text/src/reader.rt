//! The reader of scripts: from the bytes of an input to what its lines say.

mod format;
mod script;
mod values;

pub use script::{ScriptFault, read_script};
