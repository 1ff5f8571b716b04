//! The terms of the result.

ghost use Rattle.std.specs.Prelude.{◌≡◌};
ghost use Rattle.n1ql_parse.specs.inner.Queries as spec;
ghost use Rattle.n1ql_parse.specs.inner.Steps.{Gives};

use crate::expressions::inside::parsed;
use crate::queries::naming::{may_as, own_name};
use crate::tokens::cursor::Cursor;
use crate::tokens::parse_stop::ParseStop;
use n1ql_ast::{Keyword, Term, TokenClass, UnresolvedExpr};
use n1ql_value::{ListOf, Text};
use sqlite_items::Boxed;
use std::alloc::Global;

/// Whether a point and a star come first.
fn spreads_behind(classes: &[TokenClass]) -> bool
    ensures { result ≡ spec.spreads_behind classes.now }
{
    let mut rest = Cursor::new(classes);
    rest.eat(Keyword::Dot) && rest.sees(Keyword::Star)
}

/// Whether a name, a point and a star come next.
fn spreads(tokens: &Cursor<'_>) -> bool
    ensures { result ≡ spec.spreads tokens.now }
{
    match tokens.rest().split_first() {
        Some((TokenClass::Name(..), rest)) => spreads_behind(rest),
        _ => false,
    }
}

/// A name, a point and a star.
#[tactic(auto, unfolding(crate::specs::inner::Queries::spread))]
fn spread(alloc: Global, tokens: &mut Cursor<'_>) -> Result<Term<UnresolvedExpr>, ParseStop>
    ensures { Gives (spec.spread tokens.old) result tokens.new }
{
    let name = tokens.name(alloc)?;
    tokens.expect(Keyword::Dot)?;
    tokens.expect(Keyword::Star)?;
    Ok(Term::Spread(name))
}

/// A term of a value, with the name that is written behind it, or the one that it has by itself.
fn one_term(
    value: Boxed<UnresolvedExpr>,
    own: Option<Text>,
    given: Option<Text>,
) -> Term<UnresolvedExpr>
    ensures { result ≡ spec.one_term value own given }
{
    match given {
        Some(name) => Term::One {
            value: value.into_inner(),
            name: Some(name),
            given: true,
        },
        None => Term::One {
            value: value.into_inner(),
            name: own,
            given: false,
        },
    }
}

/// An expression with the name that is written behind it, if there is one.
#[tactic(auto, unfolding(crate::specs::inner::Queries::value_term))]
fn value_term(alloc: Global, tokens: &mut Cursor<'_>) -> Result<Term<UnresolvedExpr>, ParseStop>
    ensures { Gives (spec.value_term tokens.old) result tokens.new }
{
    let before = tokens.rest();
    let value = parsed(alloc, tokens, true)?;
    let own = own_name(alloc, before, tokens.left(), value.get())?;
    let given = may_as(alloc, tokens)?;
    Ok(one_term(value, own, given))
}

/// A term.
#[tactic(auto, unfolding(crate::specs::inner::Queries::term))]
fn term(alloc: Global, tokens: &mut Cursor<'_>) -> Result<Term<UnresolvedExpr>, ParseStop>
    ensures { Gives (spec.term tokens.old) result tokens.new }
{
    if tokens.eat(Keyword::Star) {
        return Ok(Term::All);
    }
    if spreads(tokens) {
        spread(alloc, tokens)
    } else {
        value_term(alloc, tokens)
    }
}

/// Terms with commas between them.
pub fn terms(
    alloc: Global,
    tokens: &mut Cursor<'_>,
) -> Result<ListOf<Term<UnresolvedExpr>>, ParseStop>
    ensures { Gives (spec.terms tokens.old) result tokens.new }
{
    let mut found = ListOf::new(alloc);
    for _turn in 0..tokens.left() {
        found.push(term(alloc, tokens)?)?;
        if !tokens.eat(Keyword::Comma) {
            return Ok(found);
        }
    }
    Err(tokens.fault())
}
