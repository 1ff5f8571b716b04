//! The laws of the meaning of a SELECT, for whoever rests on it: each is the contract of a function that does nothing.

ghost use Rattle.std.specs.Prelude.{◌≡◌, ◌<◌, ◌≤◌, ◌-◌, ◌++◌, ◌∷◌, [], ℕ, pos, min, false, true, Bool, List, length, map, get_or, Option, Some, None, IfSome, if◌then◌else◌};
ghost use Rattle.std.specs.Cmp.{IsTotalOrder};
ghost use Rattle.std.specs.Cmp.Lexicographic.{slice_cmp};
ghost use Rattle.std.specs.List.{All, filter, flat_map, list_any};
ghost use Rattle.std.specs.List.Sorted.{IsStrictlySortedBy};
ghost use Rattle.std.specs.Option.{option_map_or};
ghost use Rattle.std.specs.Ordering.{nat_cmp};
ghost use Rattle.n1ql_value.specs.declared.datum.Datum.{Datum};
ghost use Rattle.n1ql_value.specs.declared.value.Value.{Value};
ghost use Rattle.n1ql_value.specs.declared.value.Value.TheVariants.{Int};
ghost use Rattle.n1ql_ast.specs.declared.agg.Agg.{Agg};
ghost use Rattle.n1ql_ast.specs.declared.agg.Agg.TheVariants.{CountAll};
ghost use Rattle.n1ql_ast.specs.declared.expr.Expr.{Expr, map-Expr, roll-Expr};
ghost use Rattle.n1ql_ast.specs.declared.expr.Expr.TheOpen.{Expr-F};
ghost use Rattle.n1ql_ast.specs.declared.expr.Expr.TheVariants as expr;
ghost use Rattle.n1ql_ast.specs.declared.order.Order.{Order};
ghost use Rattle.n1ql_ast.specs.declared.selection.Selection.{Selection};
ghost use Rattle.n1ql_ast.specs.Evaluation.{Environment, value_of};
ghost use Rattle.n1ql_ast.specs.Forms.{HasNoAggregate};
ghost use Rattle.n1ql_expr.specs.Scopes.{with_locals};
ghost use Rattle.n1ql_meaning.specs.Aggregates.{aggregate_of};
ghost use Rattle.n1ql_meaning.specs.Finish.{cut, first_of_each, in_order, is_same_result, placed_cmp};
ghost use Rattle.n1ql_meaning.specs.Groups.{is_grouped, level_over, over_rows, value_over};
ghost use Rattle.n1ql_meaning.specs.Likeness.{ReadAlike, WhereAlike, viewed, viewed_group, viewed_row};
ghost use Rattle.n1ql_meaning.specs.Meaning.{results_of, results_of_rows};
ghost use Rattle.n1ql_meaning.specs.Results.{PlacedResult, Subject, subjects_of};
ghost use Rattle.n1ql_meaning.specs.Rows.{InputRow, IsRejected, base_cmp, row_of_document, rows_from, rows_of};

/// The rows of documents are those of the first document, then those of the second, and so on.
pub fn rows_go_document_by_document()
    ensures { (q : Selection Expr) (docs : List (List ℕ × Value)) → rows_of q docs ≡ flat_map (λ e. rows_of q (e ∷ [])) docs }
{}

/// The rows of documents that stand by their ids stand by their bases, and so do groups and what gives a result; results that stand by
/// their bases are in order where there is no ORDER BY.
pub fn rows_stand_by_their_bases()
    ensures rows { (q : Selection Expr) (docs : List (List ℕ × Value))
        → IsStrictlySortedBy (slice_cmp nat_cmp) (map (λ (e : List ℕ × Value). e.0) docs)
        → IsStrictlySortedBy base_cmp (map (λ (row : InputRow). row.base) (rows_of q docs)) }
    ensures subjects { (q : Selection Expr) (rows : List InputRow) → IsStrictlySortedBy base_cmp (map (λ (row : InputRow). row.base) rows)
        → IsStrictlySortedBy base_cmp (map (λ (s : Subject). s.base) (subjects_of q rows)) }
    ensures results { (rs : List PlacedResult) → IsStrictlySortedBy base_cmp (map (λ (r : PlacedResult). r.base) rs)
        → in_order [] rs ≡ rs }
{
    n1ql_value::laws::order_of_values_is_total();
    n1ql_value::laws::order_by_cases();
}

/// A document on which WHERE isn't TRUE, whatever the elements of its UNNESTs are, has no rows.
pub fn rejected_documents_have_no_rows()
    ensures { (q : Selection Expr) (e : List ℕ × Value) → IsRejected q e → rows_of q (e ∷ []) ≡ [] }
{}

/// Where each document that isn't kept has no rows, the rows and the results are those of the documents that are kept.
pub fn documents_without_rows_can_be_left_out()
    ensures rows { (q : Selection Expr) (keep : List ℕ × Value → Bool) (docs : List (List ℕ × Value))
        → All (λ e. keep e ≡ false → rows_of q (e ∷ []) ≡ []) docs → rows_of q (filter keep docs) ≡ rows_of q docs }
    ensures results { (q : Selection Expr) (keep : List ℕ × Value → Bool) (docs : List (List ℕ × Value))
        → All (λ e. keep e ≡ false → rows_of q (e ∷ []) ≡ []) docs → results_of q (filter keep docs) ≡ results_of q docs }
{}

/// The order of results is a total order.
pub fn order_of_results_is_total()
    ensures { (os : List (Order Expr)) → IsTotalOrder (placed_cmp os) }
{
    n1ql_value::laws::order_of_values_is_total();
}

/// What DISTINCT keeps: no two results that are the same, one that is the same for each result, and of several the first, since one
/// that comes after the others is kept only where none of them is the same.
pub fn distinct_results_differ()
    ensures differ { (rs : List PlacedResult) (i j : ℕ) (d : PlacedResult) → i < j → j < length (first_of_each rs)
        → is_same_result (get_or (first_of_each rs) i d) (get_or (first_of_each rs) j d) ≡ false }
    ensures all { (r : PlacedResult) (rs : List PlacedResult)
        → list_any (is_same_result r) (first_of_each rs) ≡ list_any (is_same_result r) rs }
    ensures one_more { (rs : List PlacedResult) (r : PlacedResult) → first_of_each (rs ++ r ∷ [])
        ≡ first_of_each rs ++ (if list_any (is_same_result r) (first_of_each rs) then [] else r ∷ []) }
{
    n1ql_value::laws::order_of_values_is_total();
}

/// OFFSET and LIMIT cut a piece: what is in front of it is as long as OFFSET says, or all there is, and it is as long as LIMIT
/// says, or goes on to the end.
pub fn offset_and_limit_cut_a_piece()
    ensures piece { (limit : Option ℕ) (offset : ℕ) (vs : List Value) → (front : List Value) × (back : List Value)
        × (front ++ (cut limit offset vs ++ back) ≡ vs) × (length front ≡ min offset (length vs)) }
    ensures long { (limit : Option ℕ) (offset : ℕ) (vs : List Value) → length (cut limit offset vs)
        ≡ option_map_or (λ n. min n (length vs - offset)) limit (length vs - offset) }
{}

/// A statement has no more results than its LIMIT.
pub fn no_more_results_than_the_limit()
    ensures { (q : Selection Expr) (rows : List InputRow) → IfSome q.limit (λ n. length (results_of_rows q rows) ≤ n) }
{}

/// Outside of a group an expression has its own value.
pub fn without_a_group_values_are_plain()
    ensures { (e : Expr) (env : Environment) → value_over None e env ≡ value_of e env }
{}

/// An expression without aggregates has its own value on a group, too.
pub fn without_aggregates_values_are_plain()
    ensures { (e : Expr) → HasNoAggregate e → (group : Option (List Environment)) (env : Environment)
        → value_over group e env ≡ value_of e env }
{}

/// The value of an expression on a group is that of its top level, where each part has its value on the group.
pub fn values_over_rows_go_by_levels()
    ensures { (group : Option (List Environment)) (l : Expr-F Expr) (env : Environment) → value_over group (roll-Expr l) env
        ≡ level_over group (map-Expr Expr (Environment → Value) (value_over group) l) env }
{}

/// An aggregate inside frames is evaluated on each row inside the same frames, where each row binds as many names as the one that the
/// expression stands on. COUNT(*) counts the rows.
pub fn aggregates_keep_the_frames()
    ensures one { (agg : Agg) (x : Expr) (frames : List (List ℕ × Value)) (base : Environment) (rows : List Environment)
        → All (λ (row : Environment). length row.bound ≡ length base.bound) rows
        → value_over (Some rows) (expr.Agg agg (Some x)) (with_locals frames base)
        ≡ aggregate_of agg (map (λ row. value_over (Some rows) x (with_locals frames row)) rows) }
    ensures all { (env : Environment) (rows : List Environment)
        → value_over (Some rows) (expr.Agg CountAll None) env ≡ Int (pos (length rows)) }
{}

/// Where an expression has on what a row of an index shows the value that another has on the document, an aggregate of the one over what
/// is shown of rows is that of the other over the rows.
pub fn aggregates_of_what_is_shown()
    ensures { (keys : Environment → List Datum) (group : Option (List Environment)) (agg : Agg) (over own : Environment → Value)
        → ((env : Environment) → over (viewed keys env) ≡ own env)
        → (env : Environment) → over_rows (viewed_group keys group) agg (Some over) (viewed keys env) ≡ over_rows group agg (Some own) env }
{}

/// Statements that read alike, one on documents and one on what rows of an index show of them, have the rows and the results in common. A
/// group without rows shows nothing, so where all rows are one group there has to be one.
pub fn statements_that_read_alike_give_the_same_results()
    ensures rows { (keys : Environment → List Datum) (over q : Selection Expr) → ReadAlike keys over q → (docs : List (List ℕ × Value))
        → All (WhereAlike keys over q) docs
        → rows_from over (map (λ e. viewed_row keys (row_of_document e)) docs) ≡ map (viewed_row keys) (rows_of q docs) }
    ensures some { (keys : Environment → List Datum) (over q : Selection Expr) → ReadAlike keys over q → (row : InputRow) (rows : List InputRow)
        → results_of_rows over (map (viewed_row keys) (row ∷ rows)) ≡ results_of_rows q (row ∷ rows) }
    ensures none { (keys : Environment → List Datum) (over q : Selection Expr) → ReadAlike keys over q
        → (q.groups ≡ [] → is_grouped q ≡ false) → results_of_rows over [] ≡ results_of_rows q [] }
{
    n1ql_value::laws::order_of_values_is_total();
}
