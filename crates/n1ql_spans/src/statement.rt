//! Whether the rows of an index tell all that a statement reads.

ghost use Rattle.std.specs.Prelude.{◌≡◌, bytes_eq};
ghost use Rattle.std.specs.List.{list_all, list_any};
ghost use Rattle.n1ql_ast.specs.FormedSelections.{unnest_names};
ghost use Rattle.index_def.specs.Reasons as reasons;
ghost use Rattle.n1ql_meaning.specs.OrderKeys as order_keys;
ghost use Rattle.n1ql_spans.specs.Covering as spec;

use crate::covering::is_covered;
use crate::operands::is_among;
use crate::order_keys::order_key;
use index_def::IndexDef;
use n1ql_ast::{Expr, Key, Order, Select, Term, Unnest};
use n1ql_value::{Text, same_text};

/// Whether an index covers a statement whose WHERE has these conjuncts.
pub fn covers(conjuncts: &[Expr], q: &Select, def: &IndexDef) -> bool
    ensures { result ≡ spec.covers_with conjuncts.now q.now def.now }
{
    let keys = def.keys.as_slice();
    !has_array(keys)
        && (covers_result(keys, q)
            && (covers_rows(keys, def.filter.as_slice(), conjuncts, q) && covers_groups(keys, q)))
}

/// Whether some key is an array key.
pub fn has_array(keys: &[Key]) -> bool
    ensures { result ≡ list_any reasons.is_array keys.now }
{
    keys.iter().any(|key| is_array(key))
}

/// Whether a key is an array key.
pub fn is_array(key: &Key) -> bool
    ensures { result ≡ reasons.is_array key.now }
{
    match key {
        Key::Plain(_) => false,
        Key::Each { .. } => true,
    }
}

/// Whether the result of a statement is covered.
fn covers_result(keys: &[Key], q: &Select) -> bool
    ensures { result ≡ spec.covers_result (spec.plain_keys keys.now) q.now }
{
    is_covered_if_any(keys, &q.raw) && cover_terms(keys, q.unnests.as_slice(), q.terms.as_slice())
}

/// Whether an expression, which there may be, is covered.
fn is_covered_if_any(keys: &[Key], e: &Option<Expr>) -> bool
    ensures { result ≡ spec.is_covered_if_any (spec.plain_keys keys.now) e.now }
{
    match e {
        Some(e) => is_covered(keys, e),
        None => true,
    }
}

/// Whether each term of the result is covered.
fn cover_terms(keys: &[Key], unnests: &[Unnest<Expr>], terms: &[Term<Expr>]) -> bool
    ensures { result ≡ list_all (spec.is_covered_term (spec.plain_keys keys.now) (unnest_names unnests.now)) terms.now }
{
    for term in terms {
        if !is_covered_term(keys, unnests, term) {
            return false;
        }
    }
    true
}

/// Whether a term of the result is covered: `*` reads the document, and so does `name.*` of a name that isn't an UNNEST name.
fn is_covered_term(keys: &[Key], unnests: &[Unnest<Expr>], term: &Term<Expr>) -> bool
    ensures { result ≡ spec.is_covered_term (spec.plain_keys keys.now) (unnest_names unnests.now) term.now }
{
    match term {
        Term::All => false,
        Term::Spread(name) => is_unnest_name(unnests, name),
        Term::One { value, .. } => is_covered(keys, value),
    }
}

/// Whether a name is one of UNNEST.
fn is_unnest_name(unnests: &[Unnest<Expr>], name: &Text) -> bool
    ensures { result ≡ list_any (bytes_eq name.now) (unnest_names unnests.now) }
{
    for unnest in unnests {
        if same_text(name.as_str(), unnest.name.as_str()) {
            return true;
        }
    }
    false
}

/// Whether the rows of a statement are covered: its UNNESTs, and the conjuncts of WHERE that the filter doesn't have.
fn covers_rows(keys: &[Key], filter: &[Expr], conjuncts: &[Expr], q: &Select) -> bool
    ensures { result ≡ spec.covers_rows (spec.plain_keys keys.now) (spec.rest_of filter.now conjuncts.now) q.now }
{
    cover_unnests(keys, q.unnests.as_slice()) && cover_rest(keys, filter, conjuncts)
}

/// Whether each array of an UNNEST is covered.
fn cover_unnests(keys: &[Key], unnests: &[Unnest<Expr>]) -> bool
    ensures { result ≡ list_all (λ u. spec.is_covered (spec.plain_keys keys.now) u.over) unnests.now }
{
    for unnest in unnests {
        if !is_covered(keys, &unnest.over) {
            return false;
        }
    }
    true
}

/// Whether each conjunct that the filter doesn't have is covered.
fn cover_rest(keys: &[Key], filter: &[Expr], conjuncts: &[Expr]) -> bool
    ensures { result ≡ list_all (spec.is_covered (spec.plain_keys keys.now)) (spec.rest_of filter.now conjuncts.now) }
{
    for c in conjuncts {
        if !is_among(filter, c) && !is_covered(keys, c) {
            return false;
        }
    }
    true
}

/// Whether the groups of a statement and their order are covered.
fn covers_groups(keys: &[Key], q: &Select) -> bool
    ensures { result ≡ spec.covers_groups (spec.plain_keys keys.now) q.now }
{
    cover_all(keys, q.groups.as_slice())
        && (is_covered_if_any(keys, &q.having) && cover_orders(keys, q, q.orders.as_slice()))
}

/// Whether each expression is covered.
fn cover_all(keys: &[Key], es: &[Expr]) -> bool
    ensures { result ≡ list_all (spec.is_covered (spec.plain_keys keys.now)) es.now }
{
    for e in es {
        if !is_covered(keys, e) {
            return false;
        }
    }
    true
}

/// Whether what each key of ORDER BY means is covered.
fn cover_orders(keys: &[Key], q: &Select, orders: &[Order<Expr>]) -> bool
    ensures { result ≡ list_all (λ o. spec.is_covered (spec.plain_keys keys.now) (order_keys.order_key q.now o)) orders.now }
{
    for order in orders {
        if !is_covered(keys, order_key(q, order)) {
            return false;
        }
    }
    true
}
