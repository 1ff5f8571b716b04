ghost use Rattle.n1ql_parse.specs.inner.Queries as spec;
ghost use Rattle.n1ql_parse.specs.inner.Steps.{Gives};

use crate::queries::projection::{Projection, result_of_select};
use crate::queries::source::{Source, from_clause};
use crate::tokens::cursor::Cursor;
use crate::tokens::parse_stop::ParseStop;
use n1ql_ast::Keyword;
use std::alloc::Global;

/// SELECT up to what FROM names.
#[derive(Drop)]
pub struct Head {
    pub distinct: bool,
    pub projection: Projection,
    pub source: Source,
}

/// SELECT up to what FROM names.
#[tactic(auto, unfolding(crate::specs::inner::Queries::head))]
pub fn head_of_select(alloc: Global, tokens: &mut Cursor<'_>) -> Result<Head, ParseStop>
    ensures { Gives (spec.head tokens.old) result tokens.new }
{
    tokens.expect(Keyword::Select)?;
    let distinct = tokens.eat(Keyword::Distinct);
    let projection = result_of_select(alloc, tokens)?;
    let source = from_clause(alloc, tokens)?;
    Ok(Head {
        distinct,
        projection,
        source,
    })
}
