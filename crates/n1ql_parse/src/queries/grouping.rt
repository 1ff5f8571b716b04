ghost use Rattle.std.specs.Prelude.{◌≡◌};
ghost use Rattle.n1ql_parse.specs.inner.Queries as spec;
ghost use Rattle.n1ql_parse.specs.inner.Steps.{Gives};

use crate::expressions::inside::{parsed_after, parsed_exprs};
use crate::queries::rows::unboxed;
use crate::tokens::cursor::Cursor;
use crate::tokens::parse_stop::ParseStop;
use n1ql_ast::{Keyword, UnresolvedExpr, UnresolvedExprs};
use sqlite_items::Items;
use std::alloc::Global;

/// The keys of GROUP BY, and the condition of HAVING.
#[derive(Drop)]
pub struct Grouping {
    pub groups: UnresolvedExprs,
    pub having: Option<UnresolvedExpr>,
}

impl Grouping {
    /// No keys and no condition.
    fn none(alloc: Global) -> Grouping
        ensures { result ≡ spec.no_grouping }
    {
        Grouping {
            groups: Items::new(alloc),
            having: None,
        }
    }
}

/// BY, keys and HAVING, after GROUP.
#[tactic(auto, unfolding(crate::specs::inner::Queries::grouped))]
fn grouped(alloc: Global, tokens: &mut Cursor<'_>) -> Result<Grouping, ParseStop>
    ensures { Gives (spec.grouped tokens.old) result tokens.new }
{
    tokens.expect(Keyword::By)?;
    let groups = parsed_exprs(alloc, tokens)?;
    let having = parsed_after(alloc, tokens, true, Keyword::Having)?;
    Ok(Grouping {
        groups,
        having: unboxed(having),
    })
}

/// GROUP BY with HAVING, if it comes next.
#[tactic(auto, unfolding(crate::specs::inner::Queries::grouping))]
pub fn may_group(alloc: Global, tokens: &mut Cursor<'_>) -> Result<Grouping, ParseStop>
    ensures { Gives (spec.grouping tokens.old) result tokens.new }
{
    if tokens.eat(Keyword::Group) {
        grouped(alloc, tokens)
    } else {
        Ok(Grouping::none(alloc))
    }
}
