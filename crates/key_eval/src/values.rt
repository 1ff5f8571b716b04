ghost use Rattle.std.specs.Prelude.{◌≡◌, ◌∷◌, [], IfOk};
ghost use Rattle.n1ql_ast.specs.Evaluation.{value_of};
ghost use Rattle.n1ql_ast.specs.FormedStatements.{IsEvaluable, IsFormedKey};
ghost use Rattle.n1ql_expr.specs.Scopes.{environment_of};
ghost use Rattle.index_def.specs.Keys as spec;

use crate::elements::values_over;
use n1ql_ast::{Expr, Key};
use n1ql_expr::{Scope, eval};
use n1ql_value::{Memory, Value};
use std::alloc::Global;

/// The values of a key.
pub fn values_of<'a>(
    alloc: Global,
    key: &'a Key,
    scope: &'a Scope<'a>,
) -> Result<Vec<Value>, Memory>
    requires { IsFormedKey key.now }
    ensures { IfOk result (λ vs. vs.items ≡ spec.values_of key.now (environment_of scope.now)) }
{
    match key {
        Key::Plain(e) => one_value(alloc, &*e, &*scope),
        Key::Each {
            item,
            var,
            over,
            when,
            ..
        } => {
            let over = eval(alloc, &*over, &*scope)?;
            values_over(alloc, &*item, &*var, &*when, &over, &*scope)
        }
    }
}

/// The value of an expression, in a list.
fn one_value<'a>(alloc: Global, e: &'a Expr, scope: &'a Scope<'a>) -> Result<Vec<Value>, Memory>
    requires { IsEvaluable e.now }
    ensures { IfOk result (λ vs. vs.items ≡ value_of e.now (environment_of scope.now) ∷ []) }
{
    let mut values = Vec::new(alloc);
    values.push(eval(alloc, &*e, &*scope)?)?;
    Ok(values)
}
