//! Laws of spans, for whoever rests on them: each is the contract of a function that does nothing.

ghost use Rattle.std.specs.Prelude.{ℕ, List, IsSome, IsTrue};
ghost use Rattle.std.specs.List.{All, list_any};
ghost use Rattle.n1ql_value.specs.declared.row.Row.{Row};
ghost use Rattle.n1ql_value.specs.declared.value.Value.{Value};
ghost use Rattle.n1ql_value.specs.Ranges.{some_span_holds};
ghost use Rattle.n1ql_ast.specs.declared.expr.Expr.{Expr};
ghost use Rattle.n1ql_ast.specs.declared.selection.Selection.{Selection};
ghost use Rattle.n1ql_ast.specs.Conjunction.{conjuncts_in, conjuncts_of};
ghost use Rattle.n1ql_ast.specs.Forms.{IsWellFormed};
ghost use Rattle.index_def.specs.declared.definition.IndexDef.{IndexDef};
ghost use Rattle.index_def.specs.Forms.{IsFormed};
ghost use Rattle.index_def.specs.Keys.{keys_of};
ghost use Rattle.n1ql_meaning.specs.Rows.{document_with, meets};
ghost use Rattle.n1ql_spans.specs.Fits.{fit_of};
ghost use Rattle.n1ql_spans.specs.Spans.{spans_of};

/// Law of spans: where an index qualifies for a statement, and WHERE is TRUE on a document under some binding of the names of UNNEST,
/// some row that the document has in the index is held by some span.
pub fn spans_miss_no_document()
    ensures { (def : IndexDef) → IsFormed def → (q : Selection Expr) → IsSome (fit_of q def)
        → (id : List ℕ) (doc : Value) (bound : List (List ℕ × Value)) → IsTrue (meets q.filter (document_with bound (id, doc)))
        → IsTrue (list_any (λ (row : Row). some_span_holds (spans_of (conjuncts_in q.filter) def) row.keys) (keys_of def id doc)) }
{
    n1ql_value::laws::order_of_values_is_total();
    n1ql_value::laws::alike_values_are_equal();
    n1ql_value::laws::order_by_cases();
    n1ql_value::laws::alike_rows_are_equal();
    n1ql_ast::laws::same_trees_are_equal();
    n1ql_ast::laws::constants_have_one_value();
    n1ql_ast::laws::closed_expressions_read_no_other_names();
    n1ql_ast::laws::conjuncts_are_the_condition();
}

/// The conjuncts of an expression that can be evaluated can be evaluated too.
pub fn conjuncts_are_well_formed()
    ensures { (e : Expr) → IsWellFormed e → All IsWellFormed (conjuncts_of e) }
{}
