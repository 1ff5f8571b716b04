//! A statement over the rows of an index.

ghost use Rattle.std.specs.Prelude.{◌≡◌, map, option_map, IfOk};
ghost use Rattle.n1ql_ast.specs.Conjunction.{conjuncts_in as conjuncts_of};
ghost use Rattle.n1ql_spans.specs.Covering as covering;
ghost use Rattle.n1ql_covered.specs.OverKeys as spec;

use crate::expressions::over_keys;
use index_def::IndexDef;
use n1ql_ast::{Expr, Exprs, Key, Order, Orders, Select, Selection, Term, Terms, Unnest, Unnests};
use n1ql_expr::{conjuncts_in, copy};
use n1ql_spans::is_among;
use n1ql_value::{Memory, Op, Text};
use sqlite_items::Boxed;
use std::alloc::Global;

/// A statement over the keys of an index, without those conjuncts of its WHERE that the index's filter has: each of its expressions
/// reads from a row what is a key.
///
/// # Errors
///
/// `Memory` where memory ran out.
pub fn over_index(alloc: Global, q: &Select, def: &IndexDef) -> Result<Select, Memory>
    ensures { IfOk result (λ over. over ≡ spec.over_index q.now def.now) }
{
    let keys = plain_keys(alloc, def.keys.as_slice())?;
    let filter = filter_left(alloc, keys.as_slice(), q, def)?;
    with_filter(alloc, keys.as_slice(), q, filter)
}

/// The expressions of the keys that aren't array keys.
fn plain_keys(alloc: Global, keys: &[Key]) -> Result<Exprs, Memory>
    ensures { IfOk result (λ es. es ≡ covering.plain_keys keys.now) }
{
    let mut found = Exprs::new(alloc);
    for key in keys {
        if let Key::Plain(e) = key {
            found.push(copy(alloc, e)?)?;
        }
    }
    Ok(found)
}

/// What the filter of the index leaves of WHERE.
fn filter_left(
    alloc: Global,
    keys: &[Expr],
    q: &Select,
    def: &IndexDef,
) -> Result<Option<Expr>, Memory>
    ensures { IfOk result (λ left. left ≡ spec.left_over keys.now def.now.filter (conjuncts_of q.now.filter)) }
{
    let conjuncts = conjuncts_in(alloc, &q.filter)?;
    left_over(alloc, keys, def.filter.as_slice(), conjuncts.as_slice())
}

/// The conjuncts that a filter doesn't have, over the keys and joined by AND.
fn left_over(
    alloc: Global,
    keys: &[Expr],
    filter: &[Expr],
    conjuncts: &[Expr],
) -> Result<Option<Expr>, Memory>
    ensures { IfOk result (λ left. left ≡ spec.left_over keys.now filter.now conjuncts.now) }
{
    let mut left = None;
    for c in conjuncts {
        if !is_among(filter, c) {
            left = Some(and_with(alloc, left, over_keys(alloc, c, keys)?)?);
        }
    }
    Ok(left)
}

/// One more condition.
fn and_with(alloc: Global, left: Option<Expr>, c: Expr) -> Result<Expr, Memory>
    ensures { IfOk result (λ e. Some e ≡ spec.and_with left c) }
{
    match left {
        Some(left) => Ok(Expr::Two(Op::And, Boxed::new(alloc, left)?, Boxed::new(alloc, c)?)),
        None => Ok(c),
    }
}

/// The statement over the keys, with this WHERE.
fn with_filter(
    alloc: Global,
    keys: &[Expr],
    q: &Select,
    filter: Option<Expr>,
) -> Result<Select, Memory>
    ensures { IfOk result (λ over. over ≡ spec.with_filter keys.now q.now filter) }
{
    Ok(Selection {
        distinct: q.distinct,
        raw: over_if_any(alloc, keys, &q.raw)?,
        terms: over_terms(alloc, keys, q.terms.as_slice())?,
        keyspace: q.keyspace.copy(alloc)?,
        alias: q.alias.copy(alloc)?,
        hint: copy_if_any(alloc, &q.hint)?,
        unnests: over_unnests(alloc, keys, q.unnests.as_slice())?,
        filter,
        groups: over_all(alloc, keys, q.groups.as_slice())?,
        having: over_if_any(alloc, keys, &q.having)?,
        orders: over_orders(alloc, keys, q.orders.as_slice())?,
        limit: q.limit,
        offset: q.offset,
    })
}

/// An expression over the keys, if there is one.
fn over_if_any(alloc: Global, keys: &[Expr], e: &Option<Expr>) -> Result<Option<Expr>, Memory>
    ensures { IfOk result (λ x. x ≡ option_map (covering.over_keys keys.now) e.now) }
{
    match e {
        Some(e) => Ok(Some(over_keys(alloc, e, keys)?)),
        None => Ok(None),
    }
}

/// Expressions over the keys.
fn over_all(alloc: Global, keys: &[Expr], es: &[Expr]) -> Result<Exprs, Memory>
    ensures { IfOk result (λ xs. xs ≡ map (covering.over_keys keys.now) es.now) }
{
    let mut made = Exprs::new(alloc);
    for e in es {
        made.push(over_keys(alloc, e, keys)?)?;
    }
    Ok(made)
}

/// Terms of a result over the keys.
fn over_terms(alloc: Global, keys: &[Expr], terms: &[Term<Expr>]) -> Result<Terms, Memory>
    ensures { IfOk result (λ ts. ts ≡ map (spec.over_term keys.now) terms.now) }
{
    let mut made = Terms::new(alloc);
    for term in terms {
        made.push(over_term(alloc, keys, term)?)?;
    }
    Ok(made)
}

/// A term of a result over the keys.
fn over_term(alloc: Global, keys: &[Expr], term: &Term<Expr>) -> Result<Term<Expr>, Memory>
    ensures { IfOk result (λ t. t ≡ spec.over_term keys.now term.now) }
{
    match term {
        Term::All => Ok(Term::All),
        Term::Spread(name) => Ok(Term::Spread(name.copy(alloc)?)),
        Term::One { value, name, given } => Ok(Term::One {
            value: over_keys(alloc, value, keys)?,
            name: copy_if_any(alloc, name)?,
            given: *given,
        }),
    }
}

/// UNNESTs over the keys.
fn over_unnests(alloc: Global, keys: &[Expr], unnests: &[Unnest<Expr>]) -> Result<Unnests, Memory>
    ensures { IfOk result (λ us. us ≡ map (spec.over_unnest keys.now) unnests.now) }
{
    let mut made = Unnests::new(alloc);
    for unnest in unnests {
        made.push(over_unnest(alloc, keys, unnest)?)?;
    }
    Ok(made)
}

/// An UNNEST over the keys.
fn over_unnest(alloc: Global, keys: &[Expr], unnest: &Unnest<Expr>) -> Result<Unnest<Expr>, Memory>
    ensures { IfOk result (λ u. u ≡ spec.over_unnest keys.now unnest.now) }
{
    Ok(Unnest {
        left: unnest.left,
        over: over_keys(alloc, &unnest.over, keys)?,
        name: unnest.name.copy(alloc)?,
    })
}

/// Keys of ORDER BY over the keys of the index.
fn over_orders(alloc: Global, keys: &[Expr], orders: &[Order<Expr>]) -> Result<Orders, Memory>
    ensures { IfOk result (λ os. os ≡ map (spec.over_order keys.now) orders.now) }
{
    let mut made = Orders::new(alloc);
    for order in orders {
        made.push(over_order(alloc, keys, order)?)?;
    }
    Ok(made)
}

/// A key of ORDER BY over the keys of the index.
fn over_order(alloc: Global, keys: &[Expr], order: &Order<Expr>) -> Result<Order<Expr>, Memory>
    ensures { IfOk result (λ o. o ≡ spec.over_order keys.now order.now) }
{
    Ok(Order {
        key: over_keys(alloc, &order.key, keys)?,
        desc: order.desc,
        alone: copy_if_any(alloc, &order.alone)?,
    })
}

/// A copy of a name, if there is one.
fn copy_if_any(alloc: Global, name: &Option<Text>) -> Result<Option<Text>, Memory>
    ensures { IfOk result (λ copy. copy ≡ name.now) }
{
    match name {
        Some(name) => Ok(Some(name.copy(alloc)?)),
        None => Ok(None),
    }
}
