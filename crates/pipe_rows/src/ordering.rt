//! What the keys of ORDER BY mean.

ghost use Rattle.std.specs.Prelude.{◌≡◌, map, IfOk};
ghost use Rattle.std.specs.Borrow.{Bor};
ghost use Rattle.std.specs.Option.{option_and_then, option_copied};
ghost use Rattle.n1ql_meaning.specs.OrderKeys as spec;

use n1ql_ast::{Expr, Order, Select, Term};
use n1ql_value::{Memory, Text, same_text};
use std::alloc::Global;

/// What each key of ORDER BY means, found once for all rows.
pub fn order_keys<'a>(alloc: Global, q: &'a Select) -> Result<Vec<&'a Expr>, Memory>
    ensures { IfOk result (λ keys. map (λ (key : Bor Expr). key.now) keys.items ≡ map (spec.order_key q.now) q.now.orders) }
{
    let mut keys = Vec::with_capacity(alloc, q.orders.len())?;
    for order in q.orders.as_slice() {
        keys.push(order_key(q, order))?;
    }
    Ok(keys)
}

/// What a key of ORDER BY means: the value of the last term that is given its name, where it is a name alone, or else itself.
fn order_key<'a>(q: &'a Select, order: &'a Order<Expr>) -> &'a Expr
    ensures { result.now ≡ spec.order_key q.now order.now }
{
    match named_term(q.terms.as_slice(), &order.alone) {
        Some(value) => value,
        None => &order.key,
    }
}

/// The value of the last term that is given a name.
fn named_term<'a>(terms: &'a [Term<Expr>], name: &Option<Text>) -> Option<&'a Expr>
    ensures { option_copied result ≡ option_and_then (λ n. spec.last_given_as n terms.now) name.now }
{
    match name {
        Some(name) => last_given_as(terms, name),
        None => None,
    }
}

/// The value of the last of several terms that are given a name.
fn last_given_as<'a>(terms: &'a [Term<Expr>], name: &Text) -> Option<&'a Expr>
    ensures { option_copied result ≡ spec.last_given_as name.now terms.now }
{
    let mut found = None;
    for term in terms {
        found = given_as(term, name).or(found);
    }
    found
}

/// The value of a term, where the statement itself gives it this name.
fn given_as<'a>(term: &'a Term<Expr>, name: &Text) -> Option<&'a Expr>
    ensures { option_copied result ≡ spec.given_as name.now term.now }
{
    match term {
        Term::One {
            value,
            name: Some(own),
            given: true,
        } if same_text(name.as_str(), own.as_str()) => Some(value),
        _ => None,
    }
}
