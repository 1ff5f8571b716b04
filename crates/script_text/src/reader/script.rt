//! From lines to the script.

pub(crate) mod command;
pub(crate) mod header;
pub(crate) mod input;
pub(crate) mod item;
pub(crate) mod item_line;
pub(crate) mod items;
pub(crate) mod line;
pub(crate) mod line_fault;
pub(crate) mod lists;
pub(crate) mod reading;
pub(crate) mod script_fault;
pub(crate) mod turn;

pub use reading::read_script;
pub use script_fault::ScriptFault;
