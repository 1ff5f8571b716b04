//! Constants: expressions without names.

ghost use Rattle.std.specs.Prelude.{◌≡◌, map, IfOk};
ghost use Rattle.std.specs.Option.{option_map};
ghost use Rattle.n1ql_ast.specs.Bindings as bindings;
ghost use Rattle.n1ql_ast.specs.Forms.{IsWellFormed, all_hold, held_if_any};
ghost use Rattle.n1ql_spans.specs.Bounding as spec;

use n1ql_ast::Expr;
use n1ql_expr::{Env, Scope, eval};
use n1ql_value::{Memory, Vals, Value};
use sqlite_items::Boxed;
use std::alloc::Global;

/// Whether no name, no META, no key of a row and no aggregate stands in an expression.
#[cycle(constant)]
#[tactic(auto, using(crate::proofs::Constants::constant_by_cases))]
pub fn is_constant(e: &Expr) -> bool
    ensures { result ≡ bindings.is_constant e.now }
{
    match e {
        Expr::Const(_) => true,
        Expr::Doc | Expr::MetaOf(_) | Expr::Var(_) | Expr::Key(_) | Expr::Agg(_, _) => false,
        Expr::Field(x, _) => is_constant(x.get()),
        Expr::Not(x) => is_constant(x.get()),
        Expr::Neg(x) => is_constant(x.get()),
        Expr::Is(_, x) => is_constant(x.get()),
        Expr::Place(x, y) => is_constant(x.get()) && is_constant(y.get()),
        Expr::Two(_, x, y) => is_constant(x.get()) && is_constant(y.get()),
        Expr::Among(x, y) => is_constant(x.get()) && is_constant(y.get()),
        Expr::Any(_, x, y) => is_constant(x.get()) && is_constant(y.get()),
        Expr::Every(_, x, y) => is_constant(x.get()) && is_constant(y.get()),
        Expr::Between(x, low, high) => {
            is_constant(x.get()) && (is_constant(low.get()) && is_constant(high.get()))
        }
        Expr::Call(_, xs) => are_constant(xs.as_slice()),
        Expr::List(xs) => are_constant(xs.as_slice()),
        Expr::Build(_, xs) => are_constant(xs.as_slice()),
        Expr::Case(whens, thens, other) => {
            are_constant(whens.as_slice())
                && (are_constant(thens.as_slice()) && is_part_constant(other))
        }
        Expr::Each(_, item, over, when) => {
            is_constant(item.get()) && (is_constant(over.get()) && is_part_constant(when))
        }
        Expr::First(_, item, over, when) => {
            is_constant(item.get()) && (is_constant(over.get()) && is_part_constant(when))
        }
    }
}

/// Whether a part, which there may be, is a constant.
#[cycle(constant)]
fn is_part_constant(x: &Option<Boxed<Expr>>) -> bool
    ensures { result ≡ held_if_any (option_map bindings.is_constant x.now) }
{
    match x {
        Some(x) => is_constant(x.get()),
        None => true,
    }
}

/// Whether all of several parts are constants.
#[cycle(constant)]
fn are_constant(xs: &[Expr]) -> bool
    ensures { result ≡ all_hold (map bindings.is_constant xs.now) }
{
    for x in xs {
        if !is_constant(x) {
            return false;
        }
    }
    true
}

/// The value of a constant, which it has everywhere.
///
/// # Errors
///
/// `Memory` where memory ran out.
pub fn constant_value(alloc: Global, c: &Expr) -> Result<Value, Memory>
    requires { IsWellFormed c.now }
    ensures { IfOk result (λ v. v ≡ spec.constant_value c.now) }
{
    let keys = Vals::new(alloc);
    let env = Env::of_value(&Value::Missing, &keys);
    eval(alloc, &*c, &Scope::on(&env))
}
