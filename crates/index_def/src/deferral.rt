ghost use Rattle.std.specs.Prelude.{◌≡◌};
ghost use Rattle.n1ql_ast.specs.declared.expr.Expr.{out-Expr};
ghost use Rattle.index_def.specs.Deferral as spec;

use n1ql_ast::{Create, Expr};
use n1ql_value::Value;

/// Whether the index of a statement waits for a BUILD INDEX: its options say that `defer_build` is TRUE. Of options that are given more than once the last
/// one counts. It means this where `check` has no reason against the statement.
pub fn is_build_deferred(c: &Create) -> bool
    ensures { result ≡ spec.is_build_deferred c.now }
{
    match &c.options {
        Some(options) => ends_in_true(options),
        None => false,
    }
}

/// Whether an expression is an object whose last pair says TRUE.
fn ends_in_true(e: &Expr) -> bool
    ensures { result ≡ spec.ends_in_true (out-Expr e.now) }
{
    match e {
        Expr::Build(_, values) => match values.get(values.len().saturating_sub(1)) {
            Some(last) => is_true_literal(last),
            None => false,
        },
        _ => false,
    }
}

/// Whether an expression is TRUE, written out.
fn is_true_literal(e: &Expr) -> bool
    ensures { result ≡ spec.is_true_literal (out-Expr e.now) }
{
    matches!(e, Expr::Const(Value::Bool(true)))
}
