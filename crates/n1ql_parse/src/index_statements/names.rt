//! The names in statements.

ghost use Rattle.n1ql_parse.specs.inner.Statements as spec;
ghost use Rattle.n1ql_parse.specs.inner.Steps.{Gives};

use crate::tokens::cursor::Cursor;
use crate::tokens::parse_stop::ParseStop;
use n1ql_ast::{Keyword, Names, TokenClass};
use n1ql_value::Text;
use std::alloc::Global;

/// A name, if one comes next.
pub fn may_name(alloc: Global, tokens: &mut Cursor<'_>) -> Result<Option<Text>, ParseStop>
    ensures { Gives (spec.may_name tokens.old) result tokens.new }
{
    match tokens.rest().split_first() {
        Some((TokenClass::Name(..), _)) => Ok(Some(tokens.name(alloc)?)),
        _ => Ok(None),
    }
}

/// ON and the name of a keyspace.
#[tactic(auto, unfolding(crate::specs::inner::Statements::on_keyspace))]
pub fn on_keyspace(alloc: Global, tokens: &mut Cursor<'_>) -> Result<Text, ParseStop>
    ensures { Gives (spec.on_keyspace tokens.old) result tokens.new }
{
    tokens.expect(Keyword::On)?;
    tokens.name(alloc)
}

/// Names with commas between them.
fn names(alloc: Global, tokens: &mut Cursor<'_>) -> Result<Names, ParseStop>
    ensures { Gives (spec.names tokens.old) result tokens.new }
{
    let mut found = Names::new(alloc);
    for _turn in 0..tokens.left() {
        found.push(tokens.name(alloc)?)?;
        if !tokens.eat(Keyword::Comma) {
            return Ok(found);
        }
    }
    Err(tokens.fault())
}

/// Names in brackets.
#[tactic(auto, unfolding(crate::specs::inner::Statements::name_list))]
pub fn name_list(alloc: Global, tokens: &mut Cursor<'_>) -> Result<Names, ParseStop>
    ensures { Gives (spec.name_list tokens.old) result tokens.new }
{
    tokens.expect(Keyword::OpenParenthesis)?;
    let found = names(alloc, tokens)?;
    tokens.expect(Keyword::CloseParenthesis)?;
    Ok(found)
}
