ghost use Rattle.std.specs.Prelude.{◌≡◌, IfOk};
ghost use Rattle.index_tree.specs.Range.{rows_within};

use index_def::IndexDef;
use index_tree::Frozen;
use n1ql_value::{Memory, Rows, Spans};
use seq_vector::Vector;
use std::alloc::Global;
use std::sync::Arc;

/// The rows of an index at a vector.
#[derive(Drop)]
pub struct Snapshot {
    /// The number of the index.
    pub index: u32,
    pub def: Arc<IndexDef>,
    /// How far the mutations had come in each vBucket.
    pub vector: Arc<Vector>,
    /// In their order.
    pub rows: Frozen,
}

impl Snapshot {
    /// The rows that some span holds, each as often as it stands, in order.
    ///
    /// # Errors
    ///
    /// `Memory` where memory ran out.
    pub fn scan(&self, alloc: Global, spans: &Spans) -> Result<Rows, Memory>
        ensures { IfOk result (λ rows. rows ≡ rows_within spans.now self.now.rows) }
    {
        self.rows.range(alloc, spans)
    }
}
