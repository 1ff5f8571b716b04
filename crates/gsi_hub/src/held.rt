use index_snapshot::Snapshot;
use seq_vector::Vector;
use std::sync::Arc;

/// The newest snapshot of an index, and its vector.
#[derive(Drop)]
pub struct Held {
    pub snapshot: Arc<Snapshot>,
    pub at: Arc<Vector>,
}
