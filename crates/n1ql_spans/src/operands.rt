//! The conjuncts of expressions, which can be evaluated where these can.

ghost use Rattle.std.specs.Prelude.{◌≡◌, IfOk, IfSome};
ghost use Rattle.std.specs.List.{All, list_all};
ghost use Rattle.n1ql_ast.specs.Conjunction as conjunction;
ghost use Rattle.n1ql_ast.specs.Forms.{IsWellFormed};
ghost use Rattle.n1ql_spans.specs.Spans as spec;

use n1ql_ast::Expr;
use n1ql_expr::{Conjuncts, conjuncts, same};
use n1ql_value::Memory;
use std::alloc::Global;

/// The conjuncts of an expression.
///
/// # Errors
///
/// `Memory` where memory ran out.
#[tactic(auto, using(crate::proofs::FormedConjuncts::conjuncts_well_formed))]
pub fn conjuncts_of(alloc: Global, e: &Expr) -> Result<Conjuncts, Memory>
    requires { IsWellFormed e.now }
    ensures whole { IfOk result (λ es. es ≡ conjunction.conjuncts_of e.now) }
    ensures formed { IfOk result (λ es. All IsWellFormed es) }
{
    conjuncts(alloc, e)
}

/// The conjuncts of WHERE, none where there is no WHERE.
///
/// # Errors
///
/// `Memory` where memory ran out.
pub fn conjuncts_in(alloc: Global, filter: &Option<Expr>) -> Result<Conjuncts, Memory>
    requires { IfSome filter.now IsWellFormed }
    ensures whole { IfOk result (λ es. es ≡ conjunction.conjuncts_in filter.now) }
    ensures formed { IfOk result (λ es. All IsWellFormed es) }
{
    match filter {
        Some(e) => conjuncts_of(alloc, e),
        None => Ok(Conjuncts::new(alloc)),
    }
}

/// Whether each of some expressions is the same as one of others.
pub fn are_among(others: &[Expr], es: &[Expr]) -> bool
    ensures { result ≡ spec.are_among others.now es.now }
{
    for e in es {
        if !is_among(others, e) {
            return false;
        }
    }
    true
}

/// Whether an expression is the same as one of others.
pub fn is_among(others: &[Expr], e: &Expr) -> bool
    ensures { result ≡ spec.is_among others.now e.now }
{
    for other in others {
        if same(e, other) {
            return true;
        }
    }
    false
}
