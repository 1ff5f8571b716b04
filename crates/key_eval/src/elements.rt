//! The values of an array key.

ghost use Rattle.std.specs.Prelude.{◌≡◌, ◌++◌, ◌∷◌, [], true, map, IfOk, IfSome, OnOk};
ghost use Rattle.std.specs.List.{filter};
ghost use Rattle.std.specs.Option.{option_map, option_map_or};
ghost use Rattle.n1ql_ast.specs.Evaluation.{passes, value_at_element, value_of};
ghost use Rattle.n1ql_value.specs.Kinds.{is_true};
ghost use Rattle.n1ql_ast.specs.FormedStatements.{IsEvaluable};
ghost use Rattle.n1ql_expr.specs.Scopes.{environment_of};
ghost use Rattle.index_def.specs.Keys.{elements_in};

use n1ql_ast::Expr;
use n1ql_expr::{Scope, eval};
use n1ql_value::{Memory, Text, Value};
use std::alloc::Global;

/// The values of the item for those elements of an array whose WHEN is TRUE or absent, and none of another value.
pub fn values_over<'a>(
    alloc: Global,
    item: &'a Expr,
    var: &'a Text,
    when: &'a Option<Expr>,
    over: &'a Value,
    scope: &'a Scope<'a>,
) -> Result<Vec<Value>, Memory>
    requires item { IsEvaluable item.now }
    requires when { IfSome when.now IsEvaluable }
    ensures { IfOk result (λ vs. vs.items ≡
        map (value_at_element (value_of item.now) var.now (environment_of scope.now))
        (filter (passes (option_map value_of when.now) var.now (environment_of scope.now)) (elements_in over.now))) }
{
    match over {
        Value::Array(items) => values_for(alloc, item, var, when, items.as_slice(), scope),
        _ => Ok(Vec::new(alloc)),
    }
}

/// The values of the item for those elements whose WHEN is TRUE or absent.
fn values_for<'a>(
    alloc: Global,
    item: &'a Expr,
    var: &'a Text,
    when: &'a Option<Expr>,
    elements: &'a [Value],
    scope: &'a Scope<'a>,
) -> Result<Vec<Value>, Memory>
    requires item { IsEvaluable item.now }
    requires when { IfSome when.now IsEvaluable }
    ensures { IfOk result (λ vs. vs.items ≡
        map (value_at_element (value_of item.now) var.now (environment_of scope.now))
        (filter (passes (option_map value_of when.now) var.now (environment_of scope.now)) elements.now)) }
{
    let mut values = Vec::new(alloc);
    for element in elements {
        let inner = Scope::inside(&*scope, &*var, &*element);
        if is_passing(alloc, when, &inner)? {
            values.push(eval(alloc, &*item, &inner)?)?;
        }
    }
    Ok(values)
}

/// Whether WHEN is TRUE, or absent.
fn is_passing<'a>(
    alloc: Global,
    when: &'a Option<Expr>,
    scope: &'a Scope<'a>,
) -> Result<bool, Memory>
    requires { IfSome when.now IsEvaluable }
    ensures { IfOk result (λ b. b ≡ option_map_or (λ e. is_true (value_of e (environment_of scope.now))) when.now true) }
{
    match when {
        Some(e) => Ok(matches!(eval(alloc, &*e, &*scope)?, Value::Bool(true))),
        None => Ok(true),
    }
}
