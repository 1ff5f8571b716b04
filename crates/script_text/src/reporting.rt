//! The report of a history: a line of compact JSON for each event, and one that ends it.

mod demands;
mod ends;
mod events;
mod high;
mod line;
mod member;
mod names;
mod text;
mod writing;

pub use writing::report;
