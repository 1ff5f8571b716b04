//! An expression over the rows of an index.

ghost use Rattle.std.specs.Prelude.{◌≡◌, map, option_map, IfOk};
ghost use Rattle.std.specs.List.{position};
ghost use Rattle.n1ql_ast.specs.declared.expr.Expr.{Expr};
ghost use Rattle.n1ql_ast.specs.Equality.{same_tree};
ghost use Rattle.n1ql_spans.specs.Covering as spec;

use n1ql_ast::{Expr, Exprs, copy_names};
use n1ql_expr::{copy, same};
use n1ql_spans::is_own_id;
use n1ql_value::Memory;
use sqlite_items::Boxed;
use std::alloc::Global;

/// An expression over the keys of an index: the greatest parts that are keys are read from the row, and so is META().id.
///
/// # Errors
///
/// `Memory` where memory ran out.
#[cycle(over)]
#[tactic(auto, using(crate::proofs::Overs::over_at_place, crate::proofs::Overs::over_own_id, crate::proofs::OversByCases::over_by_cases))]
pub fn over_keys(alloc: Global, e: &Expr, keys: &[Expr]) -> Result<Expr, Memory>
    ensures { IfOk result (λ x. x ≡ spec.over_keys keys.now e.now) }
{
    if let Some(at) = place_among(keys, e) {
        return Ok(Expr::Key(number(at)?));
    }
    if is_own_id(e) {
        return copy(alloc, e);
    }
    match e {
        Expr::Const(value) => Ok(Expr::Const(value.copy(alloc)?)),
        Expr::Doc => Ok(Expr::Doc),
        Expr::MetaOf(own) => Ok(Expr::MetaOf(*own)),
        Expr::Var(name) => Ok(Expr::Var(name.copy(alloc)?)),
        Expr::Key(at) => Ok(Expr::Key(*at)),
        Expr::Field(x, name) => Ok(Expr::Field(part(alloc, x.get(), keys)?, name.copy(alloc)?)),
        Expr::Place(x, at) => Ok(Expr::Place(
            part(alloc, x.get(), keys)?,
            part(alloc, at.get(), keys)?,
        )),
        Expr::Not(x) => Ok(Expr::Not(part(alloc, x.get(), keys)?)),
        Expr::Neg(x) => Ok(Expr::Neg(part(alloc, x.get(), keys)?)),
        Expr::Two(op, x, y) => Ok(Expr::Two(
            *op,
            part(alloc, x.get(), keys)?,
            part(alloc, y.get(), keys)?,
        )),
        Expr::Is(test, x) => Ok(Expr::Is(*test, part(alloc, x.get(), keys)?)),
        Expr::Among(x, y) => Ok(Expr::Among(
            part(alloc, x.get(), keys)?,
            part(alloc, y.get(), keys)?,
        )),
        Expr::Between(x, low, high) => Ok(Expr::Between(
            part(alloc, x.get(), keys)?,
            part(alloc, low.get(), keys)?,
            part(alloc, high.get(), keys)?,
        )),
        Expr::Call(fun, args) => Ok(Expr::Call(*fun, list(alloc, args, keys)?)),
        Expr::List(items) => Ok(Expr::List(list(alloc, items, keys)?)),
        Expr::Build(names, values) => Ok(Expr::Build(
            copy_names(alloc, names)?,
            list(alloc, values, keys)?,
        )),
        Expr::Case(whens, thens, other) => Ok(Expr::Case(
            list(alloc, whens, keys)?,
            list(alloc, thens, keys)?,
            optional(alloc, other, keys)?,
        )),
        Expr::Any(name, over, test) => Ok(Expr::Any(
            name.copy(alloc)?,
            part(alloc, over.get(), keys)?,
            part(alloc, test.get(), keys)?,
        )),
        Expr::Every(name, over, test) => Ok(Expr::Every(
            name.copy(alloc)?,
            part(alloc, over.get(), keys)?,
            part(alloc, test.get(), keys)?,
        )),
        Expr::Each(name, item, over, when) => Ok(Expr::Each(
            name.copy(alloc)?,
            part(alloc, item.get(), keys)?,
            part(alloc, over.get(), keys)?,
            optional(alloc, when, keys)?,
        )),
        Expr::First(name, item, over, when) => Ok(Expr::First(
            name.copy(alloc)?,
            part(alloc, item.get(), keys)?,
            part(alloc, over.get(), keys)?,
            optional(alloc, when, keys)?,
        )),
        Expr::Agg(agg, x) => Ok(Expr::Agg(*agg, optional(alloc, x, keys)?)),
    }
}

/// A part over the keys.
#[cycle(over)]
fn part(alloc: Global, e: &Expr, keys: &[Expr]) -> Result<Boxed<Expr>, Memory>
    ensures { IfOk result (λ x. x ≡ spec.over_keys keys.now e.now) }
{
    Ok(Boxed::new(alloc, over_keys(alloc, e, keys)?)?)
}

/// A part over the keys, which there may be.
#[cycle(over)]
fn optional(
    alloc: Global,
    e: &Option<Boxed<Expr>>,
    keys: &[Expr],
) -> Result<Option<Boxed<Expr>>, Memory>
    ensures { IfOk result (λ x. x ≡ option_map (spec.over_keys keys.now) e.now) }
{
    match e {
        Some(e) => Ok(Some(part(alloc, e.get(), keys)?)),
        None => Ok(None),
    }
}

/// Several parts over the keys.
#[cycle(over)]
fn list(alloc: Global, es: &Exprs, keys: &[Expr]) -> Result<Exprs, Memory>
    ensures { IfOk result (λ xs. xs ≡ map (spec.over_keys keys.now) es.now) }
{
    let mut made = Exprs::new(alloc);
    for e in es.as_slice() {
        made.push(over_keys(alloc, e, keys)?)?;
    }
    Ok(made)
}

/// The place of the first key that the expression is.
fn place_among(keys: &[Expr], e: &Expr) -> Option<usize>
    ensures { result ≡ position (λ (k : Expr). same_tree k e.now) keys.now }
{
    keys.iter().position(|key| same(key, e))
}

/// The number of a place. An index whose keys had none would be larger than any memory.
fn number(at: usize) -> Result<u32, Memory>
    ensures { IfOk result (λ n. n ≡ at) }
{
    match u32::try_from(at) {
        Ok(at) => Ok(at),
        Err(_) => Err(Memory),
    }
}
