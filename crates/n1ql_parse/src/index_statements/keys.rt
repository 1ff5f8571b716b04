//! The keys of an index.

ghost use Rattle.std.specs.Prelude.{◌≡◌, IfOk, option_map};
ghost use Rattle.n1ql_ast.specs.Statements as grammar;
ghost use Rattle.n1ql_parse.specs.inner.Statements as spec;
ghost use Rattle.n1ql_parse.specs.inner.Steps.{Gives};

use crate::expressions::each::Each;
use crate::expressions::inside::{on_document, on_element, parsed, parsed_each};
use crate::tokens::cursor::Cursor;
use crate::tokens::parse_stop::ParseStop;
use n1ql_ast::{Expr, Key, Keys, Keyword, UnresolvedExpr};
use n1ql_value::{Memory, Text};
use sqlite_items::Boxed;
use std::alloc::Global;

/// What an unresolved expression means on an element, if there is one.
fn passes(
    alloc: Global,
    keyspace: &str,
    variable: &Text,
    when: &Option<Boxed<UnresolvedExpr>>,
) -> Result<Option<Expr>, Memory>
    ensures { IfOk result (λ passes. passes ≡ option_map (grammar.on_element keyspace.now variable.now) when.now) }
{
    match when {
        Some(unresolved) => Ok(Some(on_element(alloc, keyspace, variable, unresolved.get())?)),
        None => Ok(None),
    }
}

/// The array key of what ARRAY begins.
fn key_over(alloc: Global, keyspace: &str, distinct: bool, each: Each) -> Result<Key, Memory>
    ensures { IfOk result (λ key. key ≡ grammar.array_key keyspace.now distinct each.variable each.item each.over each.when) }
{
    let Each {
        variable,
        item,
        over,
        when,
    } = each;
    Ok(Key::Each {
        distinct,
        item: on_element(alloc, keyspace, &variable, item.get())?,
        over: on_document(alloc, keyspace, over.get())?,
        when: passes(alloc, keyspace, &variable, &when)?,
        var: variable,
    })
}

/// An array key, after ALL or DISTINCT.
#[tactic(auto, unfolding(crate::specs::inner::Statements::array_key))]
fn array_key(
    alloc: Global,
    keyspace: &str,
    distinct: bool,
    tokens: &mut Cursor<'_>,
) -> Result<Key, ParseStop>
    ensures { Gives (spec.array_key keyspace.now distinct tokens.old) result tokens.new }
{
    tokens.expect(Keyword::Array)?;
    let each = parsed_each(alloc, tokens)?;
    Ok(key_over(alloc, keyspace, distinct, each)?)
}

/// An expression as a key.
#[tactic(auto, unfolding(crate::specs::inner::Statements::plain_key))]
fn plain_key(alloc: Global, keyspace: &str, tokens: &mut Cursor<'_>) -> Result<Key, ParseStop>
    ensures { Gives (spec.plain_key keyspace.now tokens.old) result tokens.new }
{
    let unresolved = parsed(alloc, tokens, false)?;
    Ok(Key::Plain(on_document(alloc, keyspace, unresolved.get())?))
}

/// A key.
#[tactic(auto, unfolding(crate::specs::inner::Statements::key))]
fn key(alloc: Global, keyspace: &str, tokens: &mut Cursor<'_>) -> Result<Key, ParseStop>
    ensures { Gives (spec.key keyspace.now tokens.old) result tokens.new }
{
    if tokens.eat(Keyword::All) {
        array_key(alloc, keyspace, false, tokens)
    } else if tokens.eat(Keyword::Distinct) {
        array_key(alloc, keyspace, true, tokens)
    } else {
        plain_key(alloc, keyspace, tokens)
    }
}

/// Keys with commas between them.
fn keys(alloc: Global, keyspace: &str, tokens: &mut Cursor<'_>) -> Result<Keys, ParseStop>
    ensures { Gives (spec.keys keyspace.now tokens.old) result tokens.new }
{
    let mut found = Keys::new(alloc);
    for _turn in 0..tokens.left() {
        found.push(key(alloc, keyspace, tokens)?)?;
        if !tokens.eat(Keyword::Comma) {
            return Ok(found);
        }
    }
    Err(tokens.fault())
}

/// Keys in brackets.
#[tactic(auto, unfolding(crate::specs::inner::Statements::key_list))]
pub fn key_list(alloc: Global, keyspace: &str, tokens: &mut Cursor<'_>) -> Result<Keys, ParseStop>
    ensures { Gives (spec.key_list keyspace.now tokens.old) result tokens.new }
{
    tokens.expect(Keyword::OpenParenthesis)?;
    let found = keys(alloc, keyspace, tokens)?;
    tokens.expect(Keyword::CloseParenthesis)?;
    Ok(found)
}
