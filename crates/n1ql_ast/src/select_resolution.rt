//! The resolution of the names in SELECT.

ghost use Rattle.std.specs.Prelude.{◌≡◌, map, option_map, IfOk, OnOk};
ghost use Rattle.n1ql_ast.specs.Names.{inside, resolved};
ghost use Rattle.n1ql_ast.specs.ResolvedSelections as spec;

use crate::expr::Expr;
use crate::order::{Order, Orders};
use crate::resolution::{parts, resolve};
use crate::scope::Scope;
use crate::selection::{Select, Selection, UnresolvedSelect};
use crate::term::{Term, Terms};
use crate::unnest::{Unnest, Unnests};
use crate::unresolved_expr::UnresolvedExpr;
use n1ql_value::{Memory, Text};
use std::alloc::Global;

/// A copy of a name, if there is one.
fn copy_if_any(alloc: Global, name: &Option<Text>) -> Result<Option<Text>, Memory>
    ensures { IfOk result (λ copy. copy ≡ name.now) }
{
    match name {
        Some(name) => Ok(Some(name.copy(alloc)?)),
        None => Ok(None),
    }
}

/// What an unresolved expression is in a scope, if there is one.
fn resolve_if_any(
    alloc: Global,
    unresolved: &Option<UnresolvedExpr>,
    scope: &mut Scope,
) -> Result<Option<Expr>, Memory>
    ensures expr { IfOk result (λ e. e ≡ option_map (λ x. resolved x scope.old) unresolved.now) }
    ensures scope { scope.new ≡ scope.old }
{
    match unresolved {
        Some(unresolved) => Ok(Some(resolve(alloc, unresolved, scope)?)),
        None => Ok(None),
    }
}

/// A term in a scope.
fn resolve_term(
    alloc: Global,
    term: &Term<UnresolvedExpr>,
    scope: &mut Scope,
) -> Result<Term<Expr>, Memory>
    ensures term { IfOk result (λ t. t ≡ spec.term_in scope.old term.now) }
    ensures scope { scope.new ≡ scope.old }
{
    match term {
        Term::All => Ok(Term::All),
        Term::Spread(name) => Ok(Term::Spread(name.copy(alloc)?)),
        Term::One { value, name, given } => Ok(Term::One {
            value: resolve(alloc, value, scope)?,
            name: copy_if_any(alloc, name)?,
            given: *given,
        }),
    }
}

/// Terms in a scope.
fn resolve_terms(
    alloc: Global,
    unresolved: &[Term<UnresolvedExpr>],
    scope: &mut Scope,
) -> Result<Terms, Memory>
    ensures terms { IfOk result (λ ts. ts ≡ map (spec.term_in scope.old) unresolved.now) }
    ensures scope { scope.new ≡ scope.old }
{
    let mut terms = Terms::new(alloc);
    for term in unresolved {
        terms.push(resolve_term(alloc, term, scope)?)?;
    }
    Ok(terms)
}

/// A key of ORDER BY in a scope.
fn resolve_order(
    alloc: Global,
    order: &Order<UnresolvedExpr>,
    scope: &mut Scope,
) -> Result<Order<Expr>, Memory>
    ensures order { IfOk result (λ o. o ≡ spec.order_in scope.old order.now) }
    ensures scope { scope.new ≡ scope.old }
{
    Ok(Order {
        key: resolve(alloc, &order.key, scope)?,
        desc: order.desc,
        alone: copy_if_any(alloc, &order.alone)?,
    })
}

/// Keys of ORDER BY in a scope.
fn resolve_orders(
    alloc: Global,
    unresolved: &[Order<UnresolvedExpr>],
    scope: &mut Scope,
) -> Result<Orders, Memory>
    ensures orders { IfOk result (λ os. os ≡ map (spec.order_in scope.old) unresolved.now) }
    ensures scope { scope.new ≡ scope.old }
{
    let mut orders = Orders::new(alloc);
    for order in unresolved {
        orders.push(resolve_order(alloc, order, scope)?)?;
    }
    Ok(orders)
}

/// An UNNEST in a scope, whose name is bound from there on.
fn resolve_unnest(
    alloc: Global,
    unnest: &Unnest<UnresolvedExpr>,
    scope: &mut Scope,
) -> Result<Unnest<Expr>, Memory>
    ensures unnest { IfOk result (λ u. u ≡ spec.unnest_in scope.old unnest.now) }
    ensures scope { OnOk result (scope.new ≡ inside unnest.now.name scope.old) }
{
    let over = resolve(alloc, &unnest.over, scope)?;
    scope.enter(alloc, &unnest.name)?;
    Ok(Unnest {
        left: unnest.left,
        over,
        name: unnest.name.copy(alloc)?,
    })
}

/// UNNESTs in a scope, whose names are bound from there on.
fn resolve_unnests(
    alloc: Global,
    unresolved: &[Unnest<UnresolvedExpr>],
    scope: &mut Scope,
) -> Result<Unnests, Memory>
    ensures unnests { IfOk result (λ us. us ≡ spec.unnests_in scope.old unresolved.now) }
    ensures scope { OnOk result (scope.new ≡ spec.scope_behind scope.old unresolved.now) }
{
    let mut unnests = Unnests::new(alloc);
    for unnest in unresolved {
        unnests.push(resolve_unnest(alloc, unnest, scope)?)?;
    }
    Ok(unnests)
}

/// What an unresolved SELECT means: each of its expressions in the scope of the UNNESTs, and each UNNEST in that of those before it.
///
/// # Errors
///
/// `Memory` where memory ran out.
pub fn resolve_select(alloc: Global, unresolved: &UnresolvedSelect) -> Result<Select, Memory>
    ensures { IfOk result (λ select. select ≡ spec.resolved_select unresolved.now) }
{
    let mut scope = Scope::new(alloc, unresolved.alias.as_str())?;
    let unnests = resolve_unnests(alloc, unresolved.unnests.as_slice(), &mut scope)?;
    select_in(alloc, unresolved, unnests, &mut scope)
}

/// A SELECT with these UNNESTs, where all else is in a scope.
fn select_in(
    alloc: Global,
    unresolved: &UnresolvedSelect,
    unnests: Unnests,
    scope: &mut Scope,
) -> Result<Select, Memory>
    ensures { IfOk result (λ select. select ≡ spec.select_in scope.old unnests unresolved.now) }
{
    Ok(Selection {
        distinct: unresolved.distinct,
        raw: resolve_if_any(alloc, &unresolved.raw, scope)?,
        terms: resolve_terms(alloc, unresolved.terms.as_slice(), scope)?,
        keyspace: unresolved.keyspace.copy(alloc)?,
        alias: unresolved.alias.copy(alloc)?,
        hint: copy_if_any(alloc, &unresolved.hint)?,
        unnests,
        filter: resolve_if_any(alloc, &unresolved.filter, scope)?,
        groups: parts(alloc, unresolved.groups.as_slice(), scope)?,
        having: resolve_if_any(alloc, &unresolved.having, scope)?,
        orders: resolve_orders(alloc, unresolved.orders.as_slice(), scope)?,
        limit: unresolved.limit,
        offset: unresolved.offset,
    })
}
