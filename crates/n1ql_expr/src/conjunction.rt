ghost use Rattle.std.specs.Prelude.{◌≡◌, ◌++◌, IfOk, OnOk};
ghost use Rattle.n1ql_ast.specs.Conjunction as spec;

use crate::copies::copy;
use n1ql_ast::Expr;
use n1ql_value::{ListOf, Memory, Op};
use std::alloc::Global;

/// The operands of a conjunction, in order.
pub type Conjuncts = ListOf<Expr>;

/// The operands of the ANDs at the top of an expression, left to right: an operand that is an AND is taken apart too, and an
/// expression that is none stands for itself.
///
/// # Errors
///
/// `Memory` where memory ran out.
pub fn conjuncts(alloc: Global, e: &Expr) -> Result<Conjuncts, Memory>
    ensures { IfOk result (λ es. es ≡ spec.conjuncts_of e.now) }
{
    let mut found = Conjuncts::new(alloc);
    add_conjuncts(alloc, e, &mut found)?;
    Ok(found)
}

/// The conjuncts of WHERE, none where there is no WHERE.
///
/// # Errors
///
/// `Memory` where memory ran out.
pub fn conjuncts_in(alloc: Global, filter: &Option<Expr>) -> Result<Conjuncts, Memory>
    ensures { IfOk result (λ es. es ≡ spec.conjuncts_in filter.now) }
{
    match filter {
        Some(e) => conjuncts(alloc, e),
        None => Ok(Conjuncts::new(alloc)),
    }
}

/// Adds the operands at the end.
fn add_conjuncts(alloc: Global, e: &Expr, found: &mut Conjuncts) -> Result<(), Memory>
    ensures { OnOk result (found.new ≡ found.old ++ spec.conjuncts_of e.now) }
{
    match e {
        Expr::Two(Op::And, x, y) => {
            add_conjuncts(alloc, x.get(), found)?;
            add_conjuncts(alloc, y.get(), found)
        }
        _ => found.push(copy(alloc, e)?),
    }
}
