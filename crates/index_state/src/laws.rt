//! Laws of the index: kept one document at a time, it is the index computed afresh.
ghost use Rattle.std.specs.Prelude.{◌≡◌, ℕ, List};
ghost use Rattle.std.specs.FinMap as map;
ghost use Rattle.n1ql_value.specs.declared.row.Row.{Row};
ghost use Rattle.n1ql_value.specs.declared.value.Value.{Value};
ghost use Rattle.index_state.specs.RowsById.{RowsById, with_rows, all_rows};
ghost use Rattle.n1ql_value.specs.Documents.{Documents, index_by};
ghost use Rattle.index_state.specs.Index.{HoldsKeys};

/// Where each id holds the rows of its document, all rows together are the index of the documents.
pub fn rows_are_the_index()
    ensures { (keys : List ℕ → Value → List Row) (docs : Documents) (held : RowsById) →
        HoldsKeys keys docs held → all_rows held ≡ index_by keys docs }
{}

/// No rows are the index of no documents.
pub fn nothing_is_the_index_of_nothing()
    ensures { (keys : List ℕ → Value → List Row) → HoldsKeys keys map.empty map.empty }
{}

/// A document comes, in place of the one that its id had: its rows are put under the id.
pub fn a_document_comes()
    ensures { (keys : List ℕ → Value → List Row) (docs : Documents) (held : RowsById)
        (id : List ℕ) (doc : Value) → HoldsKeys keys docs held →
        HoldsKeys keys (map.insert docs id doc) (with_rows held id (keys id doc)) }
{}

/// A document goes: its id is dropped.
pub fn a_document_goes()
    ensures { (keys : List ℕ → Value → List Row) (docs : Documents) (held : RowsById)
        (id : List ℕ) → HoldsKeys keys docs held →
        HoldsKeys keys (map.remove docs id) (map.remove held id) }
{}
