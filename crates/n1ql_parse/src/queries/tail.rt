ghost use Rattle.n1ql_parse.specs.inner.Queries as spec;
ghost use Rattle.n1ql_parse.specs.inner.Steps.{Gives};

use crate::queries::finish::{Finish, end_of_select};
use crate::queries::grouping::{Grouping, may_group};
use crate::queries::rows::{Rows, rows_of_source};
use crate::tokens::cursor::Cursor;
use crate::tokens::parse_stop::ParseStop;
use std::alloc::Global;

/// SELECT behind what FROM names.
#[derive(Drop)]
pub struct Tail {
    pub rows: Rows,
    pub grouping: Grouping,
    pub finish: Finish,
}

/// SELECT behind what FROM names.
#[tactic(auto, unfolding(crate::specs::inner::Queries::tail))]
pub fn tail_of_select(alloc: Global, tokens: &mut Cursor<'_>) -> Result<Tail, ParseStop>
    ensures { Gives (spec.tail tokens.old) result tokens.new }
{
    let rows = rows_of_source(alloc, tokens)?;
    let grouping = may_group(alloc, tokens)?;
    let finish = end_of_select(alloc, tokens)?;
    Ok(Tail {
        rows,
        grouping,
        finish,
    })
}
