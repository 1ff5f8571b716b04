//! What the keys of ORDER BY mean.

ghost use Rattle.std.specs.Prelude.{◌≡◌};
ghost use Rattle.std.specs.Option.{option_copied};
ghost use Rattle.n1ql_meaning.specs.OrderKeys as spec;

use n1ql_ast::{Expr, Order, Select, Term};
use n1ql_value::{Text, same_text};

/// What a key of ORDER BY means: a single name that the statement gives to a term means that term's value, of several such terms the
/// last one's, and any other key itself.
pub fn order_key<'a>(q: &'a Select, order: &'a Order<Expr>) -> &'a Expr
    ensures { result.now ≡ spec.order_key q.now order.now }
{
    match &order.alone {
        Some(name) => last_given_as(name, q.terms.as_slice()).unwrap_or(&order.key),
        None => &order.key,
    }
}

/// The value of the last term that the statement gives a name.
fn last_given_as<'a>(name: &Text, terms: &'a [Term<Expr>]) -> Option<&'a Expr>
    ensures { option_copied result ≡ spec.last_given_as name.now terms.now }
{
    let mut found = None;
    for term in terms {
        found = given_as(name, term).or(found);
    }
    found
}

/// The value of a term that the statement gives a name.
fn given_as<'a>(name: &Text, term: &'a Term<Expr>) -> Option<&'a Expr>
    ensures { option_copied result ≡ spec.given_as name.now term.now }
{
    match term {
        Term::One {
            value,
            name: Some(own),
            given: true,
        } if same_text(name.as_str(), own.as_str()) => Some(value),
        _ => None,
    }
}
