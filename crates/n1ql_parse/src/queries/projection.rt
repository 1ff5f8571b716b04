ghost use Rattle.n1ql_parse.specs.inner.Queries as spec;
ghost use Rattle.n1ql_parse.specs.inner.Steps.{Gives};

use crate::expressions::inside::parsed;
use crate::queries::terms::terms;
use crate::tokens::cursor::Cursor;
use crate::tokens::parse_stop::ParseStop;
use n1ql_ast::{Keyword, Term, UnresolvedExpr};
use n1ql_value::ListOf;
use std::alloc::Global;

/// The result of SELECT: the value of RAW, or else terms.
#[derive(Drop)]
pub struct Projection {
    pub raw: Option<UnresolvedExpr>,
    pub terms: ListOf<Term<UnresolvedExpr>>,
}

/// The value of RAW, after its word.
#[tactic(auto, unfolding(crate::specs::inner::Queries::raw))]
fn raw_value(alloc: Global, tokens: &mut Cursor<'_>) -> Result<Projection, ParseStop>
    ensures { Gives (spec.raw tokens.old) result tokens.new }
{
    let value = parsed(alloc, tokens, true)?;
    Ok(Projection {
        raw: Some(value.into_inner()),
        terms: ListOf::new(alloc),
    })
}

/// Terms as a result.
#[tactic(auto, unfolding(crate::specs::inner::Queries::listed))]
fn listed(alloc: Global, tokens: &mut Cursor<'_>) -> Result<Projection, ParseStop>
    ensures { Gives (spec.listed tokens.old) result tokens.new }
{
    let terms = terms(alloc, tokens)?;
    Ok(Projection { raw: None, terms })
}

/// The result of SELECT.
#[tactic(auto, unfolding(crate::specs::inner::Queries::projection))]
pub fn result_of_select(alloc: Global, tokens: &mut Cursor<'_>) -> Result<Projection, ParseStop>
    ensures { Gives (spec.projection tokens.old) result tokens.new }
{
    if tokens.eat(Keyword::Raw) {
        raw_value(alloc, tokens)
    } else {
        listed(alloc, tokens)
    }
}
