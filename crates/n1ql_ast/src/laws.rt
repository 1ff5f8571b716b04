//! The laws of expressions, for whoever rests on them: each is the contract of a function that does nothing.

ghost use Rattle.std.specs.Prelude.{◌≡◌, ◌++◌, ◌∷◌, [], ℕ, List, false, IsTrue};
ghost use Rattle.std.specs.Bool.{Decides};
ghost use Rattle.n1ql_value.specs.declared.op.Op.TheVariants.{And};
ghost use Rattle.n1ql_value.specs.declared.value.Value.{Value};
ghost use Rattle.n1ql_value.specs.Kinds.{is_true};
ghost use Rattle.n1ql_ast.specs.declared.expr.Expr.{Expr};
ghost use Rattle.n1ql_ast.specs.declared.expr.Expr.TheVariants as expr;
ghost use Rattle.n1ql_ast.specs.declared.scope.Scope.{Scope};
ghost use Rattle.n1ql_ast.specs.declared.unresolved_expr.UnresolvedExpr.{UnresolvedExpr};
ghost use Rattle.n1ql_ast.specs.Bindings.{Alike, IsClosedIn, is_constant};
ghost use Rattle.n1ql_ast.specs.Conjunction.{all_true, conjuncts_of, is_and};
ghost use Rattle.n1ql_ast.specs.Equality.{same_tree};
ghost use Rattle.n1ql_ast.specs.Evaluation.{Environment, value_of};
ghost use Rattle.n1ql_ast.specs.Names.{resolved};

/// Each variable of what an unresolved expression is in a scope is bound in the scope, or inside the expression.
pub fn resolved_variables_are_bound()
    ensures { (x : UnresolvedExpr) (scope : Scope) → IsClosedIn scope.bound (resolved x scope) }
{}

/// The conjuncts of an AND are those of its left operand and then those of its right one; any other expression is its own one
/// conjunct.
pub fn conjuncts_by_cases()
    ensures and { (x y : Expr) → conjuncts_of (expr.Two And x y) ≡ conjuncts_of x ++ conjuncts_of y }
    ensures other { (e : Expr) → is_and e ≡ false → conjuncts_of e ≡ e ∷ [] }
{}

/// An expression is TRUE exactly where each of its conjuncts is.
pub fn conjuncts_are_the_condition()
    ensures { (e : Expr) (env : Environment) → is_true (value_of e env) ≡ all_true (conjuncts_of e) env }
{}

/// Two expressions are the same tree exactly where they are equal.
pub fn same_trees_are_equal()
    ensures { (a b : Expr) → Decides (same_tree a b) (a ≡ b) }
{
    n1ql_value::laws::order_of_values_is_total();
    n1ql_value::laws::alike_values_are_equal();
}

/// An expression reads no other names than those that it is closed in.
pub fn closed_expressions_read_no_other_names()
    ensures { (e : Expr) (names : List (List ℕ)) → IsClosedIn names e → (a b : Environment) → Alike names a b → value_of e a ≡ value_of e b }
{}

/// A constant has the same value everywhere.
pub fn constants_have_one_value()
    ensures { (c : Expr) → IsTrue (is_constant c) → (a b : Environment) → value_of c a ≡ value_of c b }
{}
