use crate::defined::Defined;
use crate::part::Work;
use index_def::IndexDef;
use index_snapshot::Snapshot;
use std::sync::Arc;

/// All that the creation of an index needs of memory.
#[derive(Drop)]
pub struct Creation {
    pub def: Arc<IndexDef>,
    /// The definition again, for the catalog.
    pub shared: Arc<IndexDef>,
    /// The index without rows.
    pub snapshot: Arc<Snapshot>,
    /// What is open from then on, unless the index is deferred.
    pub work: Option<Work>,
    /// What is answered.
    pub answer: Defined,
}
