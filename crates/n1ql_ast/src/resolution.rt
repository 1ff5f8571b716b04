//! The resolution of names.

ghost use Rattle.std.specs.Prelude.{◌≡◌, map, IfOk};
ghost use Rattle.n1ql_ast.specs.Names.{inside, resolved};

use crate::expr::{Expr, Exprs};
use crate::names::copy_names;
use crate::scope::Scope;
use crate::unresolved_expr::UnresolvedExpr;
use n1ql_value::{Memory, Text};
use sqlite_items::{Boxed, Items};
use std::alloc::Global;

/// The expression that an unresolved expression is in a scope.
///
/// # Errors
///
/// `Memory` where memory ran out. The scope is as before, whatever the answer.
#[cycle(resolve)]
pub fn resolve(
    alloc: Global,
    unresolved: &UnresolvedExpr,
    scope: &mut Scope,
) -> Result<Expr, Memory>
    ensures expr { IfOk result (λ e. e ≡ resolved unresolved.now scope.old) }
    ensures scope { scope.new ≡ scope.old }
{
    match unresolved {
        UnresolvedExpr::Const(value) => Ok(Expr::Const(value.copy(alloc)?)),
        UnresolvedExpr::Name(name) => scope.name(alloc, name),
        UnresolvedExpr::Meta(name) => Ok(Expr::MetaOf(scope.has_meta(name))),
        UnresolvedExpr::Field(x, name) => Ok(Expr::Field(
            part(alloc, x, scope)?,
            name.copy(alloc)?,
        )),
        UnresolvedExpr::Place(x, at) => Ok(Expr::Place(
            part(alloc, x, scope)?,
            part(alloc, at, scope)?,
        )),
        UnresolvedExpr::Not(x) => Ok(Expr::Not(part(alloc, x, scope)?)),
        UnresolvedExpr::Neg(x) => Ok(Expr::Neg(part(alloc, x, scope)?)),
        UnresolvedExpr::Two(op, x, y) => Ok(Expr::Two(
            *op,
            part(alloc, x, scope)?,
            part(alloc, y, scope)?,
        )),
        UnresolvedExpr::Is(test, x) => Ok(Expr::Is(*test, part(alloc, x, scope)?)),
        UnresolvedExpr::Among(x, of) => Ok(Expr::Among(
            part(alloc, x, scope)?,
            part(alloc, of, scope)?,
        )),
        UnresolvedExpr::Between(x, low, high) => Ok(Expr::Between(
            part(alloc, x, scope)?,
            part(alloc, low, scope)?,
            part(alloc, high, scope)?,
        )),
        UnresolvedExpr::Call(fun, xs) => Ok(Expr::Call(*fun, parts(alloc, xs.as_slice(), scope)?)),
        UnresolvedExpr::List(xs) => Ok(Expr::List(parts(alloc, xs.as_slice(), scope)?)),
        UnresolvedExpr::Build(names, xs) => Ok(Expr::Build(
            copy_names(alloc, names)?,
            parts(alloc, xs.as_slice(), scope)?,
        )),
        UnresolvedExpr::Case(whens, thens, None) => Ok(Expr::Case(
            parts(alloc, whens.as_slice(), scope)?,
            parts(alloc, thens.as_slice(), scope)?,
            None,
        )),
        UnresolvedExpr::Case(whens, thens, Some(other)) => Ok(Expr::Case(
            parts(alloc, whens.as_slice(), scope)?,
            parts(alloc, thens.as_slice(), scope)?,
            Some(part(alloc, other, scope)?),
        )),
        UnresolvedExpr::Any(name, over, test) => Ok(Expr::Any(
            name.copy(alloc)?,
            part(alloc, over, scope)?,
            part_inside(alloc, test, name, scope)?,
        )),
        UnresolvedExpr::Every(name, over, test) => Ok(Expr::Every(
            name.copy(alloc)?,
            part(alloc, over, scope)?,
            part_inside(alloc, test, name, scope)?,
        )),
        UnresolvedExpr::Each(name, item, over, None) => Ok(Expr::Each(
            name.copy(alloc)?,
            part_inside(alloc, item, name, scope)?,
            part(alloc, over, scope)?,
            None,
        )),
        UnresolvedExpr::Each(name, item, over, Some(when)) => Ok(Expr::Each(
            name.copy(alloc)?,
            part_inside(alloc, item, name, scope)?,
            part(alloc, over, scope)?,
            Some(part_inside(alloc, when, name, scope)?),
        )),
        UnresolvedExpr::First(name, item, over, None) => Ok(Expr::First(
            name.copy(alloc)?,
            part_inside(alloc, item, name, scope)?,
            part(alloc, over, scope)?,
            None,
        )),
        UnresolvedExpr::First(name, item, over, Some(when)) => Ok(Expr::First(
            name.copy(alloc)?,
            part_inside(alloc, item, name, scope)?,
            part(alloc, over, scope)?,
            Some(part_inside(alloc, when, name, scope)?),
        )),
        UnresolvedExpr::Agg(agg, None) => Ok(Expr::Agg(*agg, None)),
        UnresolvedExpr::Agg(agg, Some(x)) => Ok(Expr::Agg(*agg, Some(part(alloc, x, scope)?))),
    }
}

/// A part of an unresolved expression.
#[cycle(resolve)]
fn part(
    alloc: Global,
    unresolved: &Boxed<UnresolvedExpr>,
    scope: &mut Scope,
) -> Result<Boxed<Expr>, Memory>
    ensures expr { IfOk result (λ e. e ≡ resolved unresolved.now scope.old) }
    ensures scope { scope.new ≡ scope.old }
{
    let expr = resolve(alloc, unresolved.get(), scope)?;
    Ok(Boxed::new(alloc, expr)?)
}

/// A part of an unresolved expression in which a name is bound.
#[cycle(resolve)]
fn part_inside(
    alloc: Global,
    unresolved: &Boxed<UnresolvedExpr>,
    name: &Text,
    scope: &mut Scope,
) -> Result<Boxed<Expr>, Memory>
    ensures expr { IfOk result (λ e. e ≡ resolved unresolved.now (inside name.now scope.old)) }
    ensures scope { scope.new ≡ scope.old }
{
    scope.enter(alloc, name)?;
    let expr = part(alloc, unresolved, scope);
    scope.leave();
    expr
}

/// Parts of an unresolved expression, or others in one scope.
#[cycle(resolve)]
pub fn parts(
    alloc: Global,
    unresolved_exprs: &[UnresolvedExpr],
    scope: &mut Scope,
) -> Result<Exprs, Memory>
    ensures expr { IfOk result (λ es. es ≡ map (λ x. resolved x scope.old) unresolved_exprs.now) }
    ensures scope { scope.new ≡ scope.old }
{
    let mut exprs = Items::new(alloc);
    for unresolved in unresolved_exprs {
        exprs.push(resolve(alloc, unresolved, scope)?)?;
    }
    Ok(exprs)
}
