//! Laws of the rows of a document: each is the contract of a function that does nothing.

ghost use Rattle.std.specs.Prelude.{◌≡◌, ◌≤◌, ℕ, true, false, List, length, IsTrue};
ghost use Rattle.std.specs.List.{All, filter, list_any};
ghost use Rattle.std.specs.List.Sorted.{IsSorted};
ghost use Rattle.std.specs.Ordering.{is_eq};
ghost use Rattle.n1ql_value.specs.declared.row.Row.{Row};
ghost use Rattle.n1ql_value.specs.declared.value.Value.{Value};
ghost use Rattle.n1ql_value.specs.Collation.{row_cmp};
ghost use Rattle.index_def.specs.declared.definition.IndexDef.{IndexDef};
ghost use Rattle.index_def.specs.Keys.{has_leading, is_distinct, keys_of};
ghost use Rattle.index_def.specs.Reasons.{is_array};

/// The rows of a document carry its id.
pub fn rows_carry_their_id()
    ensures { (def : IndexDef) (id : List ℕ) (doc : Value) → All (λ row. row.id ≡ id) (keys_of def id doc) }
{}

/// Their leading key isn't MISSING.
pub fn rows_have_a_leading_key()
    ensures { (def : IndexDef) (id : List ℕ) (doc : Value) → All (λ row. IsTrue (has_leading row.keys)) (keys_of def id doc) }
{}

/// They stand in order.
pub fn rows_stand_in_order()
    ensures { (def : IndexDef) (id : List ℕ) (doc : Value) → IsSorted row_cmp (keys_of def id doc) }
{}

/// Without an array key a document has at most one row.
pub fn a_document_has_at_most_one_row_without_an_array_key()
    ensures { (def : IndexDef) (id : List ℕ) (doc : Value) → list_any is_array def.keys ≡ false → length (keys_of def id doc) ≤ 1 }
{}

/// With a DISTINCT key each of them stands once.
pub fn distinct_rows_stand_once()
    ensures { (def : IndexDef) (id : List ℕ) (doc : Value) (row : Row) → list_any is_distinct def.keys ≡ true →
        length (filter (λ other. is_eq (row_cmp row other)) (keys_of def id doc)) ≤ 1 }
{}
