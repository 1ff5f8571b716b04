//! The laws of evaluation, for whoever rests on it: each is the contract of a function that does nothing.

ghost use Rattle.std.specs.Prelude.{◌≡◌};
ghost use Rattle.n1ql_value.specs.declared.op.Op.TheVariants.{And, Ge, Le};
ghost use Rattle.n1ql_ast.specs.declared.expr.Expr.{Expr};
ghost use Rattle.n1ql_ast.specs.declared.expr.Expr.TheVariants as expr;
ghost use Rattle.n1ql_ast.specs.Evaluation.{Environment, value_of};

/// BETWEEN is its two comparisons, joined by AND.
pub fn between_is_two_comparisons()
    ensures { (x low high : Expr) (env : Environment) → value_of (expr.Between x low high) env
        ≡ value_of (expr.Two And (expr.Two Ge x low) (expr.Two Le x high)) env }
{}
