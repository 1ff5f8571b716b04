//! DROP INDEX and DROP PRIMARY INDEX.

ghost use Rattle.n1ql_parse.specs.inner.Statements as spec;
ghost use Rattle.n1ql_parse.specs.inner.Steps.{Gives};

use crate::index_statements::clauses::may_using;
use crate::index_statements::create::primary_name;
use crate::tokens::cursor::Cursor;
use crate::tokens::parse_stop::ParseStop;
use n1ql_ast::{Ddl, Keyword};
use n1ql_value::Text;
use std::alloc::Global;

/// ON and the keyspace, after the name of an index.
#[tactic(auto, unfolding(crate::specs::inner::Statements::remove_on))]
fn remove_on(alloc: Global, name: Text, tokens: &mut Cursor<'_>) -> Result<Ddl, ParseStop>
    ensures { Gives (spec.remove_on name tokens.old) result tokens.new }
{
    tokens.expect(Keyword::On)?;
    let keyspace = tokens.name(alloc)?;
    may_using(tokens)?;
    Ok(Ddl::Remove { keyspace, name })
}

/// The name of an index, after its keyspace and a point.
#[tactic(auto, unfolding(crate::specs::inner::Statements::remove_in))]
fn remove_in(alloc: Global, keyspace: Text, tokens: &mut Cursor<'_>) -> Result<Ddl, ParseStop>
    ensures { Gives (spec.remove_in keyspace tokens.old) result tokens.new }
{
    let name = tokens.name(alloc)?;
    may_using(tokens)?;
    Ok(Ddl::Remove { keyspace, name })
}

/// DROP INDEX, after its words.
#[tactic(auto, unfolding(crate::specs::inner::Statements::remove_index))]
fn remove_index(alloc: Global, tokens: &mut Cursor<'_>) -> Result<Ddl, ParseStop>
    ensures { Gives (spec.remove_index tokens.old) result tokens.new }
{
    let first = tokens.name(alloc)?;
    if tokens.eat(Keyword::Dot) {
        remove_in(alloc, first, tokens)
    } else {
        remove_on(alloc, first, tokens)
    }
}

/// DROP PRIMARY INDEX, after PRIMARY.
#[tactic(auto, unfolding(crate::specs::inner::Statements::remove_primary))]
fn remove_primary(alloc: Global, tokens: &mut Cursor<'_>) -> Result<Ddl, ParseStop>
    ensures { Gives (spec.remove_primary tokens.old) result tokens.new }
{
    tokens.expect(Keyword::Index)?;
    let name = primary_name(alloc)?;
    remove_on(alloc, name, tokens)
}

/// The rest of a statement after DROP.
#[tactic(auto, unfolding(crate::specs::inner::Statements::remove))]
pub fn remove(alloc: Global, tokens: &mut Cursor<'_>) -> Result<Ddl, ParseStop>
    ensures { Gives (spec.remove tokens.old) result tokens.new }
{
    if tokens.eat(Keyword::Primary) {
        return remove_primary(alloc, tokens);
    }
    tokens.expect(Keyword::Index)?;
    remove_index(alloc, tokens)
}
