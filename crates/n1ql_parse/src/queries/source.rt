ghost use Rattle.std.specs.Prelude.{◌≡◌, IfOk};
ghost use Rattle.n1ql_parse.specs.inner.Queries as spec;
ghost use Rattle.n1ql_parse.specs.inner.Steps.{Gives};

use crate::index_statements::clauses::may_using;
use crate::queries::naming::may_as;
use crate::tokens::cursor::Cursor;
use crate::tokens::parse_stop::ParseStop;
use n1ql_ast::Keyword;
use n1ql_value::{Memory, Text};
use std::alloc::Global;

/// What FROM names: the keyspace, what its document is called, and the index of USE INDEX.
#[derive(Drop)]
pub struct Source {
    pub keyspace: Text,
    pub alias: Text,
    pub hint: Option<Text>,
}

impl Source {
    /// A keyspace, which may have a second name.
    fn of(
        alloc: Global,
        keyspace: Text,
        second: Option<Text>,
        hint: Option<Text>,
    ) -> Result<Source, Memory>
        ensures { IfOk result (λ source. source ≡ spec.source_of keyspace second hint) }
    {
        let alias = match second {
            Some(second) => second,
            None => keyspace.copy(alloc)?,
        };
        Ok(Source {
            keyspace,
            alias,
            hint,
        })
    }
}

/// INDEX and the name of one in brackets, after USE.
#[tactic(auto, unfolding(crate::specs::inner::Queries::used))]
fn used_index(alloc: Global, tokens: &mut Cursor<'_>) -> Result<Option<Text>, ParseStop>
    ensures { Gives (spec.used tokens.old) result tokens.new }
{
    tokens.expect(Keyword::Index)?;
    tokens.expect(Keyword::OpenParenthesis)?;
    let name = tokens.name(alloc)?;
    may_using(tokens)?;
    tokens.expect(Keyword::CloseParenthesis)?;
    Ok(Some(name))
}

/// USE INDEX, if it comes next.
#[tactic(auto, unfolding(crate::specs::inner::Queries::may_use))]
fn may_use(alloc: Global, tokens: &mut Cursor<'_>) -> Result<Option<Text>, ParseStop>
    ensures { Gives (spec.may_use tokens.old) result tokens.new }
{
    if tokens.eat(Keyword::Use) {
        used_index(alloc, tokens)
    } else {
        Ok(None)
    }
}

/// FROM and what it names.
#[tactic(auto, unfolding(crate::specs::inner::Queries::source))]
pub fn from_clause(alloc: Global, tokens: &mut Cursor<'_>) -> Result<Source, ParseStop>
    ensures { Gives (spec.source tokens.old) result tokens.new }
{
    tokens.expect(Keyword::From)?;
    let keyspace = tokens.name(alloc)?;
    let second = may_as(alloc, tokens)?;
    let hint = may_use(alloc, tokens)?;
    Ok(Source::of(alloc, keyspace, second, hint)?)
}
