//! Texts as tokens, and the steps from one token to the next. It knows nothing of a grammar.

pub mod classes;
pub mod cursor;
pub mod parse_stop;
pub mod text;
pub mod word;
