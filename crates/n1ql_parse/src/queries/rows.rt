ghost use Rattle.std.specs.Prelude.{◌≡◌};
ghost use Rattle.n1ql_parse.specs.inner.Queries as spec;
ghost use Rattle.n1ql_parse.specs.inner.Steps.{Gives};

use crate::expressions::inside::parsed_after;
use crate::queries::unnests::unnests;
use crate::tokens::cursor::Cursor;
use crate::tokens::parse_stop::ParseStop;
use n1ql_ast::{Keyword, Unnest, UnresolvedExpr};
use n1ql_value::ListOf;
use sqlite_items::Boxed;
use std::alloc::Global;

/// Which rows there are: the UNNESTs, and the condition of WHERE.
#[derive(Drop)]
pub struct Rows {
    pub unnests: ListOf<Unnest<UnresolvedExpr>>,
    pub filter: Option<UnresolvedExpr>,
}

/// An expression out of its box, if there is one.
pub fn unboxed(unresolved: Option<Boxed<UnresolvedExpr>>) -> Option<UnresolvedExpr>
    ensures { result ≡ unresolved }
{
    match unresolved {
        Some(unresolved) => Some(unresolved.into_inner()),
        None => None,
    }
}

/// The UNNESTs and WHERE, as far as they come next.
#[tactic(auto, unfolding(crate::specs::inner::Queries::rows))]
pub fn rows_of_source(alloc: Global, tokens: &mut Cursor<'_>) -> Result<Rows, ParseStop>
    ensures { Gives (spec.rows tokens.old) result tokens.new }
{
    let unnests = unnests(alloc, tokens)?;
    let filter = parsed_after(alloc, tokens, false, Keyword::Where)?;
    Ok(Rows {
        unnests,
        filter: unboxed(filter),
    })
}
