ghost use Rattle.std.specs.Prelude.{◌≡◌, map, IfOk};
ghost use Rattle.std.specs.Borrow.{Bor};
ghost use Rattle.std.specs.List.{All};
ghost use Rattle.n1ql_value.specs.Datum.{datum_of};
ghost use Rattle.n1ql_ast.specs.Forms.{IsWellFormed};
ghost use Rattle.n1ql_expr.specs.Scopes.{environment_on};
ghost use Rattle.n1ql_meaning.specs.OrderKeys.{order_key};
ghost use Rattle.n1ql_meaning.specs.Results as spec;
ghost use Rattle.pipe_rows.specs.Evaluable.{IsEvaluable};
ghost use Rattle.pipe_rows.specs.Pipes.{alone, placed, row_of};

use crate::object::{result_on, value_on};
use crate::ordering::order_keys;
use crate::out::{Out, Outs};
use crate::pipe_row::PipeRow;
use n1ql_ast::{Expr, Select};
use n1ql_expr::Env;
use n1ql_value::{Memory, Vals};
use std::alloc::Global;

/// What each row gives, where the statement has no groups.
///
/// # Errors
///
/// `Memory` where memory ran out.
pub fn plain_outs(alloc: Global, q: &Select, rows: &[PipeRow<'_>]) -> Result<Outs, Memory>
    requires { IsEvaluable q.now }
    ensures { IfOk result (λ outs. map placed outs.items ≡ map (λ row. spec.placed_result q.now (spec.row_alone (row_of row))) rows.now) }
{
    let keys = order_keys(alloc, q)?;
    outs_of(alloc, q, keys.as_slice(), rows)
}

/// What each row gives, by the meanings of the keys of ORDER BY.
fn outs_of(alloc: Global, q: &Select, keys: &[&Expr], rows: &[PipeRow<'_>]) -> Result<Outs, Memory>
    requires evaluable { IsEvaluable q.now }
    requires keys { map (λ (key : Bor Expr). key.now) keys.now ≡ map (order_key q.now) q.now.orders }
    ensures { IfOk result (λ outs. map placed outs.items ≡ map (λ row. spec.placed_result q.now (spec.row_alone (row_of row))) rows.now) }
{
    let mut outs = Vec::with_capacity(alloc, rows.len())?;
    for row in rows {
        outs.push(out_of(alloc, q, keys, row)?)?;
    }
    Ok(outs)
}

/// What a row gives.
#[tactic(auto, using(crate::proofs::Forming::keys_well))]
fn out_of(alloc: Global, q: &Select, keys: &[&Expr], row: &PipeRow<'_>) -> Result<Out, Memory>
    requires evaluable { IsEvaluable q.now }
    requires keys { map (λ (key : Bor Expr). key.now) keys.now ≡ map (order_key q.now) q.now.orders }
    ensures { IfOk result (λ out. placed out ≡ spec.placed_result q.now (spec.row_alone (row_of row.now))) }
{
    let bound = (&*row).bindings(alloc)?;
    let env = (&*row).env(bound.as_slice());
    let result = result_on(alloc, &*q, &env)?;
    let order = values_on(alloc, &*keys, &env)?;
    let base = (&*row).base(alloc)?;
    Ok(Out {
        result,
        order,
        base,
    })
}

/// The values of expressions.
fn values_on(alloc: Global, keys: &[&Expr], env: &Env<'_>) -> Result<Vals, Memory>
    requires { All (λ (key : Bor Expr). IsWellFormed key.now) keys.now }
    ensures { IfOk result (λ vs. vs ≡ map (λ (key : Bor Expr). datum_of (spec.value_on (alone (environment_on env.now)) key.now)) keys.now) }
{
    let mut values = Vals::new(alloc);
    for key in keys {
        values.push(value_on(alloc, *key, env)?)?;
    }
    Ok(values)
}
