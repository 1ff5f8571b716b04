//! Laws of statements, for whoever runs them: each is the contract of a function that does nothing.

ghost use Rattle.n1ql_ast.specs.declared.expr.Expr.{Expr};
ghost use Rattle.n1ql_ast.specs.declared.selection.Selection.{Selection};
ghost use Rattle.n1ql_ast.specs.FormedSelections.{IsFormedSelect};
ghost use Rattle.pipe_rows.specs.Evaluable.{IsEvaluable};

/// The expressions of a statement that is formed, as each that is read from a text is, can be evaluated.
pub fn formed_statements_can_be_evaluated()
    ensures { (q : Selection Expr) → IsFormedSelect q → IsEvaluable q }
{}
