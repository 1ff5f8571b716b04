//! The ranges that the bounding conjuncts of a key give.

ghost use Rattle.std.specs.Prelude.{◌≡◌, [], if◌then◌else◌, IfOk};
ghost use Rattle.std.specs.List.{All};
ghost use Rattle.n1ql_ast.specs.declared.expr.Expr.{out-Expr};
ghost use Rattle.n1ql_ast.specs.Conjunction as conjunction;
ghost use Rattle.n1ql_ast.specs.Forms.{IsWellFormed};
ghost use Rattle.n1ql_spans.specs.Spans as spec;

use crate::bounding::ranges_of_conjunct;
use crate::operands::{are_among, conjuncts_of};
use crate::range_algebra::Ranges;
use n1ql_ast::{Expr, Key};
use n1ql_expr::{conjuncts_in, same};
use n1ql_value::{Memory, Text, same_text};
use std::alloc::Global;

/// The ranges of each bounding conjunct of a key; of an array key those in the first ANY that bounds its item.
///
/// # Errors
///
/// `Memory` where memory ran out.
pub fn bounds_of(alloc: Global, conjuncts: &[Expr], key: &Key) -> Result<Vec<Ranges>, Memory>
    requires { All IsWellFormed conjuncts.now }
    ensures { IfOk result (λ bounds. bounds.items ≡ spec.bounds_of conjuncts.now key.now) }
{
    match key {
        Key::Plain(e) => bounds_in(alloc, e, conjuncts),
        Key::Each {
            item,
            var,
            over,
            when,
            ..
        } => array_bounds(alloc, item, var, over, when, conjuncts),
    }
}

/// The ranges of each conjunct that bounds an expression.
fn bounds_in(alloc: Global, e: &Expr, conjuncts: &[Expr]) -> Result<Vec<Ranges>, Memory>
    requires { All IsWellFormed conjuncts.now }
    ensures { IfOk result (λ bounds. bounds.items ≡ spec.bounds_in e.now conjuncts.now) }
{
    let mut bounds = Vec::new(alloc);
    for c in conjuncts {
        if let Some(ranges) = ranges_of_conjunct(alloc, e, c)? {
            bounds.push(ranges)?;
        }
    }
    Ok(bounds)
}

/// The ranges of the first conjunct that bounds an array key.
fn array_bounds(
    alloc: Global,
    item: &Expr,
    var: &Text,
    over: &Expr,
    when: &Option<Expr>,
    conjuncts: &[Expr],
) -> Result<Vec<Ranges>, Memory>
    requires { All IsWellFormed conjuncts.now }
    ensures { IfOk result (λ bounds. bounds.items ≡ spec.array_bounds item.now var.now over.now when.now conjuncts.now) }
{
    for c in conjuncts {
        let bounds = any_bounds(alloc, item, var, over, when, c)?;
        if !bounds.is_empty() {
            return Ok(bounds);
        }
    }
    Ok(Vec::new(alloc))
}

/// The ranges of a conjunct, for an array key.
fn any_bounds(
    alloc: Global,
    item: &Expr,
    var: &Text,
    over: &Expr,
    when: &Option<Expr>,
    c: &Expr,
) -> Result<Vec<Ranges>, Memory>
    requires { IsWellFormed c.now }
    ensures { IfOk result (λ bounds. bounds.items ≡ spec.any_bounds item.now var.now over.now when.now (out-Expr c.now)) }
{
    match c {
        Expr::Any(name, array, condition) => {
            if same_text(name.as_str(), var.as_str()) && same(array.get(), over) {
                bounds_under(alloc, item, when, condition.get())
            } else {
                Ok(Vec::new(alloc))
            }
        }
        _ => Ok(Vec::new(alloc)),
    }
}

/// The ranges of each conjunct of a condition that bounds the item, where the condition has each conjunct of WHEN.
fn bounds_under(
    alloc: Global,
    item: &Expr,
    when: &Option<Expr>,
    condition: &Expr,
) -> Result<Vec<Ranges>, Memory>
    requires { IsWellFormed condition.now }
    ensures { IfOk result (λ bounds. bounds.items ≡
        (if spec.are_among (conjunction.conjuncts_of condition.now) (conjunction.conjuncts_in when.now)
        then spec.bounds_in item.now (conjunction.conjuncts_of condition.now) else [])) }
{
    let parts = conjuncts_of(alloc, condition)?;
    let whens = conjuncts_in(alloc, when)?;
    if are_among(parts.as_slice(), whens.as_slice()) {
        bounds_in(alloc, item, parts.as_slice())
    } else {
        Ok(Vec::new(alloc))
    }
}
