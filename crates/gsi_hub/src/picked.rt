use index_snapshot::Snapshot;
use seq_vector::Vector;
use std::sync::Arc;

/// What became of a request that was open.
#[derive(Drop)]
pub enum Picked {
    /// It is answered, from this snapshot.
    Picked(Arc<Snapshot>),
    /// The newest snapshot of its index, at this vector, doesn't cover its demand: first at this vBucket, where one number is wanted and
    /// a lesser one is there.
    NotYet {
        vb: u32,
        want: u64,
        have: u64,
        at: Arc<Vector>,
    },
    /// It is refused, as its index was dropped.
    Dropped,
}
