//! Names that are written behind a part of SELECT, and those that an expression has by itself.

ghost use Rattle.std.specs.Prelude.{◌≡◌, ◌-◌, IfOk, length, take};
ghost use Rattle.std.specs.Option.{option_copied};
ghost use Rattle.n1ql_ast.specs.declared.unresolved_expr.UnresolvedExpr.{out-UnresolvedExpr};
ghost use Rattle.n1ql_ast.specs.Selections as grammar;
ghost use Rattle.n1ql_parse.specs.inner.Queries as spec;
ghost use Rattle.n1ql_parse.specs.inner.Steps.{Gives};

use crate::index_statements::names::may_name;
use crate::tokens::cursor::Cursor;
use crate::tokens::parse_stop::ParseStop;
use n1ql_ast::{Keyword, TokenClass, UnresolvedExpr};
use n1ql_value::{Memory, Text};
use std::alloc::Global;

/// A name, with AS before it or without, if one comes next.
#[tactic(auto, unfolding(crate::specs::inner::Queries::may_as))]
pub fn may_as(alloc: Global, tokens: &mut Cursor<'_>) -> Result<Option<Text>, ParseStop>
    ensures { Gives (spec.may_as tokens.old) result tokens.new }
{
    if tokens.eat(Keyword::As) {
        Ok(Some(tokens.name(alloc)?))
    } else {
        may_name(alloc, tokens)
    }
}

/// A name, with AS before it or without.
#[tactic(auto, unfolding(crate::specs::inner::Queries::as_name))]
pub fn as_name(alloc: Global, tokens: &mut Cursor<'_>) -> Result<Text, ParseStop>
    ensures { Gives (spec.as_name tokens.old) result tokens.new }
{
    tokens.eat(Keyword::As);
    tokens.name(alloc)
}

/// The last of the tokens before those that are left.
fn last_before(tokens: &[TokenClass], left: usize) -> Option<&TokenClass>
    ensures { option_copied result ≡ grammar.last_of (take (length tokens.now - left) tokens.now) }
{
    let (taken, _) = tokens.split_at(tokens.len().saturating_sub(left));
    taken.last()
}

/// The name that an expression has by itself, where this is its last token.
fn name_at_end(
    alloc: Global,
    last: Option<&TokenClass>,
    unresolved: &UnresolvedExpr,
) -> Result<Option<Text>, Memory>
    ensures { IfOk result (λ name. name ≡ grammar.name_at_end (option_copied last.entry) (out-UnresolvedExpr unresolved.now)) }
{
    match (last, unresolved) {
        (Some(TokenClass::Name(name, _)), UnresolvedExpr::Name(_) | UnresolvedExpr::Field(..)) => {
            Ok(Some(name.copy(alloc)?))
        }
        _ => Ok(None),
    }
}

/// The name that an expression is, and nothing else, where this is its last token.
fn name_only(
    alloc: Global,
    last: Option<&TokenClass>,
    unresolved: &UnresolvedExpr,
) -> Result<Option<Text>, Memory>
    ensures { IfOk result (λ name. name ≡ grammar.name_only (option_copied last.entry) (out-UnresolvedExpr unresolved.now)) }
{
    match (last, unresolved) {
        (Some(TokenClass::Name(name, _)), UnresolvedExpr::Name(_)) => Ok(Some(name.copy(alloc)?)),
        _ => Ok(None),
    }
}

/// The name that an expression has by itself, of these tokens but for those that are left.
pub fn own_name(
    alloc: Global,
    tokens: &[TokenClass],
    left: usize,
    unresolved: &UnresolvedExpr,
) -> Result<Option<Text>, Memory>
    ensures { IfOk result (λ name. name ≡ grammar.own_name (take (length tokens.now - left) tokens.now) unresolved.now) }
{
    name_at_end(alloc, last_before(tokens, left), unresolved)
}

/// The name that an expression is, and nothing else, of these tokens but for those that are left.
pub fn name_alone(
    alloc: Global,
    tokens: &[TokenClass],
    left: usize,
    unresolved: &UnresolvedExpr,
) -> Result<Option<Text>, Memory>
    ensures { IfOk result (λ name. name ≡ grammar.name_alone (take (length tokens.now - left) tokens.now) unresolved.now) }
{
    name_only(alloc, last_before(tokens, left), unresolved)
}
