ghost use Rattle.std.specs.Prelude.{◌≡◌};
ghost use Rattle.n1ql_parse.specs.inner.Queries as spec;
ghost use Rattle.n1ql_parse.specs.inner.Steps.{Gives};

use crate::queries::orders::may_order;
use crate::tokens::cursor::Cursor;
use crate::tokens::parse_stop::ParseStop;
use n1ql_ast::{Keyword, Order, TokenClass, UnresolvedExpr};
use n1ql_value::ListOf;
use std::alloc::Global;

/// The least number that is too great for LIMIT and OFFSET.
const TOO_GREAT: u64 = 1 << 63;

/// What is done with the results: the keys of ORDER BY, LIMIT and OFFSET.
#[derive(Drop)]
pub struct Finish {
    pub orders: ListOf<Order<UnresolvedExpr>>,
    pub limit: Option<u64>,
    pub offset: u64,
}

/// The number of LIMIT or OFFSET that the next token is.
fn next_count(classes: &[TokenClass]) -> Option<u64>
    ensures { result ≡ spec.next_count classes.now }
{
    match classes.split_first() {
        Some((TokenClass::Num(number), _)) if *number < TOO_GREAT => Some(*number),
        _ => None,
    }
}

/// Moves past the number of LIMIT or OFFSET.
fn count(tokens: &mut Cursor<'_>) -> Result<u64, ParseStop>
    ensures { Gives (spec.count tokens.old) result tokens.new }
{
    match next_count(tokens.rest()) {
        Some(number) => {
            tokens.skip();
            Ok(number)
        }
        None => Err(tokens.fault()),
    }
}

/// LIMIT, if it comes next.
#[tactic(auto, unfolding(crate::specs::inner::Queries::may_limit))]
fn may_limit(tokens: &mut Cursor<'_>) -> Result<Option<u64>, ParseStop>
    ensures { Gives (spec.may_limit tokens.old) result tokens.new }
{
    if tokens.eat(Keyword::Limit) {
        Ok(Some(count(tokens)?))
    } else {
        Ok(None)
    }
}

/// OFFSET, if it comes next, else 0.
#[tactic(auto, unfolding(crate::specs::inner::Queries::may_offset))]
fn may_offset(tokens: &mut Cursor<'_>) -> Result<u64, ParseStop>
    ensures { Gives (spec.may_offset tokens.old) result tokens.new }
{
    if tokens.eat(Keyword::Offset) {
        count(tokens)
    } else {
        Ok(0)
    }
}

/// ORDER BY, LIMIT and OFFSET, as far as they come next.
#[tactic(auto, unfolding(crate::specs::inner::Queries::finish))]
pub fn end_of_select(alloc: Global, tokens: &mut Cursor<'_>) -> Result<Finish, ParseStop>
    ensures { Gives (spec.finish tokens.old) result tokens.new }
{
    let orders = may_order(alloc, tokens)?;
    let limit = may_limit(tokens)?;
    let offset = may_offset(tokens)?;
    Ok(Finish {
        orders,
        limit,
        offset,
    })
}
