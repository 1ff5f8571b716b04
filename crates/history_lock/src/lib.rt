//! A lock whose state is a list of events that only grows. A pass knows a beginning of that list, and a note carries what one pass knows to another.
#![tactic(auto)]

mod calls;
mod chronicle;
mod lock;
mod note;
mod pass;
mod plays;
mod threads;
mod view;

pub use chronicle::Chronicle;
pub use lock::HistLock;
pub use note::Note;
pub use pass::Pass;
pub use threads::crosses_threads;
