ghost use Rattle.std.specs.Prelude.{◌≡◌, IfOk, IsTrue, Some, find, length, map, unwrap_or};
ghost use Rattle.std.specs.List.{filter, list_all, list_any};
ghost use Rattle.std.specs.Option.{option_copied, option_map};
ghost use Rattle.n1ql_value.specs.declared.value.Value.TheVariants as value;
ghost use Rattle.n1ql_value.specs.Kinds.{or_missing, or_null};
ghost use Rattle.n1ql_ast.specs.Evaluation.{elements_given, first_case, over_elements, passes, value_at_element, value_of, values_in};
ghost use Rattle.n1ql_ast.specs.Forms.{IsWellFormed, all_hold, held_if_any, is_well_formed};
ghost use Rattle.n1ql_expr.specs.Scopes.{environment_of, operand_value};

use crate::made::{arguments, array, meta, object, push_given, without_elements};
use crate::operand::Operand;
use crate::scope::Scope;
use n1ql_ast::Expr;
use n1ql_funcs::{call, is_true};
use n1ql_value::{Memory, Text, Vals, Value};
use sqlite_items::Boxed;
use std::alloc::Global;

/// The value of an expression in a scope. An aggregate has no rows here, and is MISSING.
///
/// # Errors
///
/// `Memory` where memory ran out.
pub fn eval<'a>(alloc: Global, e: &'a Expr, scope: &'a Scope<'a>) -> Result<Value, Memory>
    requires { IsWellFormed e.now }
    ensures { IfOk result (λ v. v ≡ value_of e.now (environment_of scope.now)) }
{
    evaluate(alloc, &*e, &*scope)?.into_value(alloc)
}

/// The value of an expression in a scope, where it stands if it stands somewhere.
///
/// # Errors
///
/// `Memory` where memory ran out.
#[cycle(evaluation)]
pub fn evaluate<'a>(alloc: Global, e: &'a Expr, scope: &'a Scope<'a>) -> Result<Operand<'a>, Memory>
    requires { IsWellFormed e.now }
    ensures { IfOk result (λ f. operand_value f ≡ value_of e.now (environment_of scope.now)) }
{
    match e {
        Expr::Const(value) => Ok(Operand::Held(value)),
        Expr::Doc => Ok(Operand::Held(scope.base.doc)),
        Expr::MetaOf(own) => Ok(Operand::Made(meta(alloc, *own, scope.base.id)?)),
        Expr::Var(name) => Ok(Operand::or_missing(scope.bound_to(name))),
        Expr::Key(at) => Ok(Operand::or_missing(scope.base.key(*at))),
        Expr::Field(x, name) => evaluate(alloc, x.get(), scope)?.field(alloc, name),
        Expr::Place(x, at) => {
            let value = evaluate(alloc, x.get(), scope)?;
            value.place(alloc, evaluate(alloc, at.get(), scope)?)
        }
        Expr::Not(x) => Ok(evaluate(alloc, x.get(), scope)?.not()),
        Expr::Neg(x) => Ok(evaluate(alloc, x.get(), scope)?.negated()),
        Expr::Two(op, x, y) => {
            let value = evaluate(alloc, x.get(), scope)?;
            value.combined(alloc, *op, evaluate(alloc, y.get(), scope)?)
        }
        Expr::Is(test, x) => Ok(evaluate(alloc, x.get(), scope)?.tested(*test)),
        Expr::Among(x, list) => {
            let value = evaluate(alloc, x.get(), scope)?;
            Ok(value.among(evaluate(alloc, list.get(), scope)?))
        }
        Expr::Between(x, low, high) => {
            let value = evaluate(alloc, x.get(), scope)?;
            let low = evaluate(alloc, low.get(), scope)?;
            Ok(value.between(low, evaluate(alloc, high.get(), scope)?))
        }
        Expr::Call(fun, args) => {
            let args = arguments(alloc, all(alloc, args.as_slice(), scope)?)?;
            Ok(Operand::Made(call(alloc, *fun, &args)?))
        }
        Expr::List(items) => {
            let values = all(alloc, items.as_slice(), scope)?;
            Ok(Operand::Made(array(alloc, values)?))
        }
        Expr::Build(names, values) => {
            let values = all(alloc, values.as_slice(), scope)?;
            Ok(Operand::Made(object(alloc, names, values)?))
        }
        Expr::Case(whens, thens, other) => {
            match case(alloc, whens.as_slice(), thens.as_slice(), scope)? {
                Some(found) => Ok(found),
                None => match other {
                    Some(other) => evaluate(alloc, other.get(), scope),
                    None => Ok(Operand::Made(Value::Null)),
                },
            }
        }
        Expr::Any(name, over, test) => {
            let over = evaluate(alloc, over.get(), scope)?;
            any(alloc, test.get(), name, over, scope)
        }
        Expr::Every(name, over, test) => {
            let over = evaluate(alloc, over.get(), scope)?;
            every(alloc, test.get(), name, over, scope)
        }
        Expr::Each(name, item, over, when) => {
            let over = evaluate(alloc, over.get(), scope)?;
            each(alloc, item.get(), part(when), name, over, scope)
        }
        Expr::First(name, item, over, when) => {
            let over = evaluate(alloc, over.get(), scope)?;
            first(alloc, item.get(), part(when), name, over, scope)
        }
        Expr::Agg(_, _) => Ok(Operand::Made(Value::Missing)),
    }
}

/// The part that there may be.
fn part(boxed: &Option<Boxed<Expr>>) -> Option<&Expr>
    ensures { option_copied result ≡ boxed.now }
{
    match boxed {
        Some(x) => Some(x.get()),
        None => None,
    }
}

/// The values of expressions.
#[cycle(evaluation)]
fn all<'a>(alloc: Global, parts: &'a [Expr], scope: &'a Scope<'a>) -> Result<Vec<Value>, Memory>
    requires { IsTrue (all_hold (map is_well_formed parts.now)) }
    ensures { IfOk result (λ vs. vs.items ≡ values_in (map value_of parts.now) (environment_of scope.now)) }
{
    let mut values = Vec::with_capacity(alloc, parts.len())?;
    for part in parts {
        values.push(evaluate(alloc, part, scope)?.into_value(alloc)?)?;
    }
    Ok(values)
}

/// The value of the first THEN whose WHEN is TRUE.
#[cycle(evaluation)]
fn case<'a>(
    alloc: Global,
    whens: &'a [Expr],
    thens: &'a [Expr],
    scope: &'a Scope<'a>,
) -> Result<Option<Operand<'a>>, Memory>
    requires whens { IsTrue (all_hold (map is_well_formed whens.now)) }
    requires thens { IsTrue (all_hold (map is_well_formed thens.now)) }
    requires counts { length whens.now ≡ length thens.now }
    ensures { IfOk result (λ f. option_map operand_value f ≡
        first_case (values_in (map value_of whens.now) (environment_of scope.now)) (values_in (map value_of thens.now) (environment_of scope.now))) }
{
    for at in 0..whens.len() {
        if is_true(evaluate(alloc, &whens[at], scope)?.value()) {
            return Ok(Some(evaluate(alloc, &thens[at], scope)?));
        }
    }
    Ok(None)
}

/// Whether WHEN is TRUE, or absent.
#[cycle(evaluation)]
fn passing<'a>(
    alloc: Global,
    when: Option<&'a Expr>,
    name: &'a Text,
    value: &'a Value,
    scope: &'a Scope<'a>,
) -> Result<bool, Memory>
    requires { IsTrue (held_if_any (option_map is_well_formed (option_copied when))) }
    ensures { IfOk result (λ b. b ≡ passes (option_map value_of (option_copied when.entry)) name.now (environment_of scope.now) value.now) }
{
    match when {
        Some(when) => {
            let inner = Scope::inside(&*scope, &*name, &*value);
            Ok(is_true(evaluate(alloc, &*when, &inner)?.value()))
        }
        None => Ok(true),
    }
}

/// The first element that passes WHEN.
#[cycle(evaluation)]
fn first_passing<'a>(
    alloc: Global,
    when: Option<&'a Expr>,
    name: &'a Text,
    items: &'a [Value],
    scope: &'a Scope<'a>,
) -> Result<Option<&'a Value>, Memory>
    requires { IsTrue (held_if_any (option_map is_well_formed (option_copied when))) }
    ensures { IfOk result (λ v. option_copied v ≡ find (passes (option_map value_of (option_copied when.entry)) name.now (environment_of scope.now)) items.now) }
{
    for value in items {
        if passing(alloc, when, name, value, scope)? {
            return Ok(Some(value));
        }
    }
    Ok(None)
}

/// ANY: whether the condition is TRUE for some element.
#[cycle(evaluation)]
fn any<'a>(
    alloc: Global,
    test: &'a Expr,
    name: &'a Text,
    over: Operand<'a>,
    scope: &'a Scope<'a>,
) -> Result<Operand<'a>, Memory>
    requires { IsWellFormed test.now }
    ensures { IfOk result (λ f. operand_value f ≡
        over_elements (λ vs. value.Bool (list_any (passes (Some (value_of test.now)) name.now (environment_of scope.now)) vs)) (operand_value over.entry)) }
{
    match over.value() {
        Value::Array(items) => {
            let found = first_passing(alloc, Some(&*test), &*name, items.as_slice(), &*scope)?;
            Ok(Operand::Made(Value::Bool(found.is_some())))
        }
        other => Ok(Operand::Made(without_elements(other))),
    }
}

/// EVERY: whether the condition is TRUE for all elements.
#[cycle(evaluation)]
fn every<'a>(
    alloc: Global,
    test: &'a Expr,
    name: &'a Text,
    over: Operand<'a>,
    scope: &'a Scope<'a>,
) -> Result<Operand<'a>, Memory>
    requires { IsWellFormed test.now }
    ensures { IfOk result (λ f. operand_value f ≡
        over_elements (λ vs. value.Bool (list_all (passes (Some (value_of test.now)) name.now (environment_of scope.now)) vs)) (operand_value over.entry)) }
{
    match over.value() {
        Value::Array(items) => {
            let holds = all_pass(alloc, &*test, &*name, items.as_slice(), &*scope)?;
            Ok(Operand::Made(Value::Bool(holds)))
        }
        other => Ok(Operand::Made(without_elements(other))),
    }
}

/// Whether the condition is TRUE for all elements.
#[cycle(evaluation)]
fn all_pass<'a>(
    alloc: Global,
    test: &'a Expr,
    name: &'a Text,
    items: &'a [Value],
    scope: &'a Scope<'a>,
) -> Result<bool, Memory>
    requires { IsWellFormed test.now }
    ensures { IfOk result (λ b. b ≡ list_all (passes (Some (value_of test.now)) name.now (environment_of scope.now)) items.now) }
{
    for value in items {
        if !passing(alloc, Some(test), name, value, scope)? {
            return Ok(false);
        }
    }
    Ok(true)
}

/// ARRAY: the item's values for the elements that pass WHEN, without those that are MISSING.
#[cycle(evaluation)]
fn each<'a>(
    alloc: Global,
    item: &'a Expr,
    when: Option<&'a Expr>,
    name: &'a Text,
    over: Operand<'a>,
    scope: &'a Scope<'a>,
) -> Result<Operand<'a>, Memory>
    requires item { IsWellFormed item.now }
    requires when { IsTrue (held_if_any (option_map is_well_formed (option_copied when))) }
    ensures { IfOk result (λ f. operand_value f ≡
        over_elements (λ vs. value.Array (elements_given (map (value_at_element (value_of item.now) name.now (environment_of scope.now))
        (filter (passes (option_map value_of (option_copied when.entry)) name.now (environment_of scope.now)) vs)))) (operand_value over.entry)) }
{
    match over.value() {
        Value::Array(items) => {
            let made = listed(alloc, &*item, when, &*name, items.as_slice(), &*scope)?;
            Ok(Operand::Made(Value::Array(made)))
        }
        other => Ok(Operand::Made(without_elements(other))),
    }
}

/// The item's values for the elements that pass WHEN, without those that are MISSING.
#[cycle(evaluation)]
fn listed<'a>(
    alloc: Global,
    item: &'a Expr,
    when: Option<&'a Expr>,
    name: &'a Text,
    items: &'a [Value],
    scope: &'a Scope<'a>,
) -> Result<Vals, Memory>
    requires item { IsWellFormed item.now }
    requires when { IsTrue (held_if_any (option_map is_well_formed (option_copied when))) }
    ensures { IfOk result (λ vs. vs ≡
        elements_given (map (value_at_element (value_of item.now) name.now (environment_of scope.now))
        (filter (passes (option_map value_of (option_copied when.entry)) name.now (environment_of scope.now)) items.now))) }
{
    let mut made = Vals::new(alloc);
    for value in items {
        if passing(alloc, when, name, value, scope)? {
            let inner = Scope::inside(&*scope, &*name, &*value);
            let found = evaluate(alloc, &*item, &inner)?.into_value(alloc)?;
            push_given(&mut made, found)?;
        }
    }
    Ok(made)
}

/// FIRST: the item's value for the first element that passes WHEN, MISSING where none does.
#[cycle(evaluation)]
fn first<'a>(
    alloc: Global,
    item: &'a Expr,
    when: Option<&'a Expr>,
    name: &'a Text,
    over: Operand<'a>,
    scope: &'a Scope<'a>,
) -> Result<Operand<'a>, Memory>
    requires item { IsWellFormed item.now }
    requires when { IsTrue (held_if_any (option_map is_well_formed (option_copied when))) }
    ensures { IfOk result (λ f. operand_value f ≡
        over_elements (λ vs. or_missing (option_map (value_at_element (value_of item.now) name.now (environment_of scope.now))
        (find (passes (option_map value_of (option_copied when.entry)) name.now (environment_of scope.now)) vs))) (operand_value over.entry)) }
{
    match over.value() {
        Value::Array(items) => match first_passing(
            alloc,
            when,
            &*name,
            items.as_slice(),
            &*scope,
        )? {
            Some(value) => {
                let inner = Scope::inside(&*scope, &*name, &*value);
                Ok(Operand::Made(evaluate(alloc, &*item, &inner)?.into_value(alloc)?))
            }
            None => Ok(Operand::Made(Value::Missing)),
        },
        other => Ok(Operand::Made(without_elements(other))),
    }
}
