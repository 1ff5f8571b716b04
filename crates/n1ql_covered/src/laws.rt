//! The laws of covered statements, for whoever answers them: each is the contract of a function that does nothing.

ghost use Rattle.std.specs.Prelude.{◌≡◌, ◌∷◌, [], ℕ, List, Some, true, false, IsTrue};
ghost use Rattle.std.specs.List.{All, list_any};
ghost use Rattle.n1ql_value.specs.declared.value.Value.{Value};
ghost use Rattle.n1ql_ast.specs.declared.expr.Expr.{Expr};
ghost use Rattle.n1ql_ast.specs.declared.selection.Selection.{Selection};
ghost use Rattle.n1ql_ast.specs.FormedStatements.{IsFormedIn};
ghost use Rattle.n1ql_ast.specs.Forms.{IsWellFormed};
ghost use Rattle.index_def.specs.declared.definition.IndexDef.{IndexDef};
ghost use Rattle.index_def.specs.Forms.{IsFormed};
ghost use Rattle.index_def.specs.Reasons.{is_array};
ghost use Rattle.n1ql_spans.specs.declared.fits.Fit.{Fit};
ghost use Rattle.n1ql_spans.specs.Covering.{is_covered, over_keys};
ghost use Rattle.n1ql_spans.specs.Fits.{fit_of};
ghost use Rattle.n1ql_meaning.specs.Groups.{is_grouped};
ghost use Rattle.n1ql_meaning.specs.Likeness.{ReadsAs};
ghost use Rattle.n1ql_meaning.specs.Meaning.{results_of, results_of_rows};
ghost use Rattle.n1ql_meaning.specs.Rows.{InputRow};
ghost use Rattle.n1ql_covered.specs.OverKeys.{over_index};
ghost use Rattle.n1ql_covered.specs.ShownRows.{keys_on, rows_from_index};

/// An expression that is covered has over the keys the value that it has on the document, on a group of rows too.
pub fn keys_stand_for_what_they_are()
    ensures { (keys : List Expr) → All (IsFormedIn []) keys → (e : Expr) → IsTrue (is_covered keys e) → ReadsAs (keys_on keys) (over_keys keys e) e }
{
    n1ql_ast::laws::same_trees_are_equal();
    n1ql_ast::laws::closed_expressions_read_no_other_names();
}

/// A statement that an index covers has over the rows in its spans the results that it has on all documents. Where none is left of
/// them, its results are those of the statement itself on no rows: a key of no row isn't MISSING, whatever its expression is.
pub fn covered_statements_need_no_documents()
    ensures some { (def : IndexDef) → IsFormed def → (q : Selection Expr) (fit : Fit) → fit_of q def ≡ Some fit → fit.covered ≡ true
        → (docs : List (List ℕ × Value)) (row : InputRow) (rows : List InputRow) → rows_from_index q def docs ≡ row ∷ rows
        → results_of_rows (over_index q def) (row ∷ rows) ≡ results_of q docs }
    ensures none { (def : IndexDef) → IsFormed def → (q : Selection Expr) (fit : Fit) → fit_of q def ≡ Some fit → fit.covered ≡ true
        → (docs : List (List ℕ × Value)) → rows_from_index q def docs ≡ [] → results_of_rows q [] ≡ results_of q docs }
{
    n1ql_ast::laws::same_trees_are_equal();
    n1ql_ast::laws::closed_expressions_read_no_other_names();
    n1ql_ast::laws::conjuncts_are_the_condition();
    n1ql_ast::laws::conjuncts_by_cases();
    n1ql_spans::laws::spans_miss_no_document();
    n1ql_meaning::laws::rejected_documents_have_no_rows();
    n1ql_meaning::laws::documents_without_rows_can_be_left_out();
    n1ql_meaning::laws::statements_that_read_alike_give_the_same_results();
}

/// An expression over keys can be evaluated where the expression can.
pub fn keys_can_be_evaluated()
    ensures { (keys : List Expr) (e : Expr) → IsWellFormed e → IsWellFormed (over_keys keys e) }
{}

/// A statement over the keys of an index is grouped where the statement is.
pub fn covered_statements_are_grouped_alike()
    ensures { (def : IndexDef) → IsFormed def → (q : Selection Expr) → is_grouped (over_index q def) ≡ is_grouped q }
{
    n1ql_ast::laws::same_trees_are_equal();
    n1ql_ast::laws::closed_expressions_read_no_other_names();
}

/// An index that covers a statement has no array key.
pub fn covering_indexes_have_no_array_key()
    ensures { (def : IndexDef) (q : Selection Expr) (fit : Fit) → fit_of q def ≡ Some fit → fit.covered ≡ true → list_any is_array def.keys ≡ false }
{}
