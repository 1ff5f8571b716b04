//! Laws of workers and snapshots: each is the contract of a function that does nothing.
ghost use Rattle.std.specs.Prelude.{◌≡◌, ◌+◌, ◌<◌, ◌≤◌, ℕ, List, ◌++◌, length, max};
ghost use Rattle.std.specs.Arc.{arc_value};
ghost use Rattle.seq_vector.specs.Vectors.{entry};
ghost use Rattle.vb_store.specs.declared.mutation.Mutation.{Mutation};
ghost use Rattle.vb_store.specs.Mutations.{IsNumbered};
ghost use Rattle.vb_store.specs.Documents.{documents_at};
ghost use Rattle.n1ql_value.specs.declared.range.Range.{Range};
ghost use Rattle.index_tree.specs.Range.{rows_within};
ghost use Rattle.index_def.specs.Index.{index_of, scan_of};
ghost use Rattle.index_state.specs.RowsById.{all_rows};
ghost use Rattle.key_eval.specs.declared.projected.Projected.{Projected};
ghost use Rattle.key_eval.specs.Stands.{ProjectedStands};
ghost use Rattle.index_snapshot.specs.declared.snapshot.Snapshot.{Snapshot};
ghost use Rattle.index_snapshot.specs.Workers.{Worker, delivered};
ghost use Rattle.index_snapshot.specs.Stands.{WorkerStands, SnapshotStands};

/// Law of growth: what stands for mutations stands for them where more come.
pub fn growth()
    ensures workers { (n : ℕ) (log more : List Mutation) (w : Worker)
        → IsNumbered n (log ++ more) → WorkerStands n log w → WorkerStands n (log ++ more) w }
    ensures snapshots { (n : ℕ) (log more : List Mutation) (s : Snapshot)
        → IsNumbered n (log ++ more) → SnapshotStands n log s → SnapshotStands n (log ++ more) s }
{
    vb_store::laws::growth();
    vb_store::laws::high_counts();
}

/// Law of rows: those of a worker are the index of the documents at its vector.
pub fn rows_are_the_index()
    ensures { (n : ℕ) (log : List Mutation) (w : Worker)
        → WorkerStands n log w → all_rows w.held ≡ index_of w.def (documents_at log w.taken.at) }
{
    index_state::laws::rows_are_the_index();
}

/// Law of a scan: a snapshot's is that of the documents at its vector.
pub fn a_scan_is_that_of_the_documents()
    ensures { (n : ℕ) (log : List Mutation) (s : Snapshot) (spans : List (List Range))
        → SnapshotStands n log s → rows_within spans s.rows ≡ scan_of (arc_value s.def) spans (documents_at log (arc_value s.vector)) }
{}

/// Law of a delivery: a worker that stands for mutations, as the piece does for its definition, stands for them afterwards.
pub fn a_delivery_keeps()
    ensures { (n : ℕ) (log : List Mutation) (w : Worker) (p : Projected)
        → WorkerStands n log w → ProjectedStands n w.def log p → WorkerStands n log (delivered p w) }
{
    vb_store::laws::next_slice();
    vb_store::laws::slice_numbers();
    vb_store::laws::high_counts();
    index_state::laws::a_document_comes();
    index_state::laws::a_document_goes();
}

/// Law of the vector: a delivery leaves its vBucket at the greater of what it was and the piece's last number, unless there is a
/// gap, and all others as they were. A gap changes nothing at all.
pub fn a_delivery_moves()
    ensures own { (w : Worker) (p : Projected) → p.vb < length w.taken.at → p.from ≤ entry w.taken.at p.vb + 1
        → entry (delivered p w).taken.at p.vb ≡ max (entry w.taken.at p.vb) p.to }
    ensures others { (w : Worker) (p : Projected) (vb : ℕ) → ¬ (vb ≡ p.vb) → entry (delivered p w).taken.at vb ≡ entry w.taken.at vb }
    ensures gap { (w : Worker) (p : Projected) → p.from ≤ p.to → entry w.taken.at p.vb + 1 < p.from → delivered p w ≡ w }
{
    stability::laws::numbers_rise();
    stability::laws::three_answers();
}
