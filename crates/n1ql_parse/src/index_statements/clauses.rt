//! The parts that a statement may end with.

ghost use Rattle.n1ql_parse.specs.inner.Statements as spec;
ghost use Rattle.n1ql_parse.specs.inner.Steps.{Gives};

use crate::expressions::inside::{on_document, parsed, parsed_object};
use crate::tokens::cursor::Cursor;
use crate::tokens::parse_stop::ParseStop;
use n1ql_ast::{Expr, Keyword};
use std::alloc::Global;

/// USING GSI, if it comes next.
#[tactic(auto, unfolding(crate::specs::inner::Statements::may_using))]
pub fn may_using(tokens: &mut Cursor<'_>) -> Result<(), ParseStop>
    ensures { Gives (spec.may_using tokens.old) result tokens.new }
{
    if tokens.eat(Keyword::Using) {
        tokens.expect(Keyword::Gsi)
    } else {
        Ok(())
    }
}

/// The condition after WHERE.
#[tactic(auto, unfolding(crate::specs::inner::Statements::filter))]
fn filter(alloc: Global, keyspace: &str, tokens: &mut Cursor<'_>) -> Result<Option<Expr>, ParseStop>
    ensures { Gives (spec.filter keyspace.now tokens.old) result tokens.new }
{
    let unresolved = parsed(alloc, tokens, false)?;
    Ok(Some(on_document(alloc, keyspace, unresolved.get())?))
}

/// WHERE and its condition, if they come next.
#[tactic(auto, unfolding(crate::specs::inner::Statements::may_where))]
pub fn may_where(
    alloc: Global,
    keyspace: &str,
    tokens: &mut Cursor<'_>,
) -> Result<Option<Expr>, ParseStop>
    ensures { Gives (spec.may_where keyspace.now tokens.old) result tokens.new }
{
    if tokens.eat(Keyword::Where) {
        filter(alloc, keyspace, tokens)
    } else {
        Ok(None)
    }
}

/// The object after WITH.
#[tactic(auto, unfolding(crate::specs::inner::Statements::options))]
fn options(
    alloc: Global,
    keyspace: &str,
    tokens: &mut Cursor<'_>,
) -> Result<Option<Expr>, ParseStop>
    ensures { Gives (spec.options keyspace.now tokens.old) result tokens.new }
{
    tokens.expect(Keyword::OpenBrace)?;
    let unresolved = parsed_object(alloc, tokens)?;
    Ok(Some(on_document(alloc, keyspace, unresolved.get())?))
}

/// WITH and its object, if they come next.
#[tactic(auto, unfolding(crate::specs::inner::Statements::may_with))]
pub fn may_with(
    alloc: Global,
    keyspace: &str,
    tokens: &mut Cursor<'_>,
) -> Result<Option<Expr>, ParseStop>
    ensures { Gives (spec.may_with keyspace.now tokens.old) result tokens.new }
{
    if tokens.eat(Keyword::With) {
        options(alloc, keyspace, tokens)
    } else {
        Ok(None)
    }
}
