//! What threads may do with a lock, told by bounds alone.
use crate::chronicle::Chronicle;
use crate::lock::HistLock;
use crate::note::Note;
use crate::pass::Pass;

const fn shared<T: Send + Sync>() {}

const fn sent<T: Send>() {}

/// Compiles only where threads may share a lock, and its passes and notes may go from one thread to another, for any state that may.
pub const fn crosses_threads<S: Chronicle + Drop + Send>() {
    shared::<HistLock<S>>();
    sent::<Pass<S>>();
    sent::<Note<S>>();
}
