//! ORDER BY.

ghost use Rattle.std.specs.Prelude.{◌≡◌};
ghost use Rattle.n1ql_parse.specs.inner.Queries as spec;
ghost use Rattle.n1ql_parse.specs.inner.Steps.{Gives, got};

use crate::expressions::inside::parsed;
use crate::queries::naming::name_alone;
use crate::tokens::cursor::Cursor;
use crate::tokens::parse_stop::ParseStop;
use n1ql_ast::{Keyword, Order, UnresolvedExpr};
use n1ql_value::ListOf;
use std::alloc::Global;

/// Moves past ASC or DESC where one comes next, and tells whether it is DESC.
#[tactic(auto, unfolding(crate::specs::inner::Queries::direction))]
fn is_descending(tokens: &mut Cursor<'_>) -> bool
    ensures { spec.direction tokens.old ≡ got result tokens.new }
{
    if tokens.eat(Keyword::Desc) {
        return true;
    }
    tokens.eat(Keyword::Asc);
    false
}

/// A key of ORDER BY.
#[tactic(auto, unfolding(crate::specs::inner::Queries::order))]
fn order(alloc: Global, tokens: &mut Cursor<'_>) -> Result<Order<UnresolvedExpr>, ParseStop>
    ensures { Gives (spec.order tokens.old) result tokens.new }
{
    let before = tokens.rest();
    let key = parsed(alloc, tokens, true)?;
    let alone = name_alone(alloc, before, tokens.left(), key.get())?;
    let desc = is_descending(tokens);
    Ok(Order {
        key: key.into_inner(),
        desc,
        alone,
    })
}

/// Keys of ORDER BY with commas between them.
fn orders(
    alloc: Global,
    tokens: &mut Cursor<'_>,
) -> Result<ListOf<Order<UnresolvedExpr>>, ParseStop>
    ensures { Gives (spec.orders tokens.old) result tokens.new }
{
    let mut found = ListOf::new(alloc);
    for _turn in 0..tokens.left() {
        found.push(order(alloc, tokens)?)?;
        if !tokens.eat(Keyword::Comma) {
            return Ok(found);
        }
    }
    Err(tokens.fault())
}

/// BY and keys, after ORDER.
#[tactic(auto, unfolding(crate::specs::inner::Queries::ordered))]
fn ordered(
    alloc: Global,
    tokens: &mut Cursor<'_>,
) -> Result<ListOf<Order<UnresolvedExpr>>, ParseStop>
    ensures { Gives (spec.ordered tokens.old) result tokens.new }
{
    tokens.expect(Keyword::By)?;
    orders(alloc, tokens)
}

/// ORDER BY, if it comes next.
#[tactic(auto, unfolding(crate::specs::inner::Queries::may_order))]
pub fn may_order(
    alloc: Global,
    tokens: &mut Cursor<'_>,
) -> Result<ListOf<Order<UnresolvedExpr>>, ParseStop>
    ensures { Gives (spec.may_order tokens.old) result tokens.new }
{
    if tokens.eat(Keyword::Order) {
        ordered(alloc, tokens)
    } else {
        Ok(ListOf::new(alloc))
    }
}
