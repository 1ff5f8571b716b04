//! The UNNESTs.

ghost use Rattle.n1ql_parse.specs.inner.Queries as spec;
ghost use Rattle.n1ql_parse.specs.inner.Steps.{Gives};

use crate::expressions::inside::parsed;
use crate::queries::naming::as_name;
use crate::tokens::cursor::Cursor;
use crate::tokens::parse_stop::ParseStop;
use n1ql_ast::{Keyword, Unnest, UnresolvedExpr};
use n1ql_value::ListOf;
use std::alloc::Global;

/// The array of an UNNEST and what its elements are called, after the word.
#[tactic(auto, unfolding(crate::specs::inner::Queries::unnest))]
fn unnest(
    alloc: Global,
    tokens: &mut Cursor<'_>,
    left: bool,
) -> Result<Unnest<UnresolvedExpr>, ParseStop>
    ensures { Gives (spec.unnest left tokens.old) result tokens.new }
{
    let over = parsed(alloc, tokens, false)?;
    let name = as_name(alloc, tokens)?;
    Ok(Unnest {
        left,
        over: over.into_inner(),
        name,
    })
}

/// UNNEST, after LEFT.
#[tactic(auto, unfolding(crate::specs::inner::Queries::left_unnest))]
fn left_unnest(alloc: Global, tokens: &mut Cursor<'_>) -> Result<Unnest<UnresolvedExpr>, ParseStop>
    ensures { Gives (spec.left_unnest tokens.old) result tokens.new }
{
    tokens.expect(Keyword::Unnest)?;
    unnest(alloc, tokens, true)
}

/// As many UNNESTs as come next.
pub fn unnests(
    alloc: Global,
    tokens: &mut Cursor<'_>,
) -> Result<ListOf<Unnest<UnresolvedExpr>>, ParseStop>
    ensures { Gives (spec.unnests tokens.old) result tokens.new }
{
    let mut found = ListOf::new(alloc);
    for _turn in 0..tokens.left() {
        if tokens.eat(Keyword::Left) {
            found.push(left_unnest(alloc, tokens)?)?;
        } else if tokens.eat(Keyword::Unnest) {
            found.push(unnest(alloc, tokens, false)?)?;
        } else {
            return Ok(found);
        }
    }
    Ok(found)
}
