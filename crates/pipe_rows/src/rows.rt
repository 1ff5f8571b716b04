ghost use Rattle.std.specs.Prelude.{◌≡◌, map, IfOk, IfSome};
ghost use Rattle.std.specs.List.{filter};
ghost use Rattle.n1ql_ast.specs.Forms.{IsWellFormed};
ghost use Rattle.n1ql_expr.specs.Scopes.{environment_of};
ghost use Rattle.n1ql_meaning.specs.Rows as spec;
ghost use Rattle.n1ql_meaning.specs.Rows.{InputRow};
ghost use Rattle.pipe_rows.specs.Evaluable.{IsEvaluable};
ghost use Rattle.pipe_rows.specs.Pipes.{input_row, row_of};

use crate::input::{Input, Inputs};
use crate::pipe_row::{PipeRow, PipeRows};
use crate::unnesting::unnested_by;
use n1ql_ast::{Expr, Select};
use n1ql_expr::{Scope, eval};
use n1ql_value::{Memory, is_true};
use std::alloc::Global;

/// The rows of a statement: each UNNEST in turn takes the place of each row, and then those stay for which WHERE is TRUE.
///
/// # Errors
///
/// `Memory` where memory ran out.
pub fn base_rows<'a>(
    alloc: Global,
    q: &'a Select,
    inputs: &'a Inputs,
) -> Result<PipeRows<'a>, Memory>
    requires { IsEvaluable q.now }
    ensures { IfOk result (λ rows. map row_of rows.items ≡ spec.rows_from q.now (map input_row inputs.now)) }
{
    let rows = rows_alone(alloc, inputs.as_slice())?;
    let rows = unnested_by(alloc, q.unnests.as_slice(), rows)?;
    kept(alloc, &q.filter, rows)
}

/// A row for each input.
fn rows_alone<'a>(alloc: Global, inputs: &'a [Input]) -> Result<PipeRows<'a>, Memory>
    ensures { IfOk result (λ rows. map row_of rows.items ≡ map input_row inputs.now) }
{
    let mut rows = Vec::with_capacity(alloc, inputs.len())?;
    for input in inputs {
        rows.push(PipeRow {
            input,
            elements: Vec::new(alloc),
        })?;
    }
    Ok(rows)
}

/// The rows for which a condition is TRUE, and all where there is none.
fn kept<'a>(
    alloc: Global,
    condition: &Option<Expr>,
    rows: PipeRows<'a>,
) -> Result<PipeRows<'a>, Memory>
    requires { IfSome condition.now IsWellFormed }
    ensures { IfOk result (λ kept. map row_of kept.items
        ≡ filter (λ (row : InputRow). spec.meets condition.now row.env) (map row_of rows.entry.items)) }
{
    let mut kept = Vec::new(alloc);
    for row in rows {
        if is_kept(alloc, condition, &row)? {
            kept.push(row)?;
        }
    }
    Ok(kept)
}

/// Whether a condition is TRUE in a row, or there is none.
fn is_kept(alloc: Global, condition: &Option<Expr>, row: &PipeRow<'_>) -> Result<bool, Memory>
    requires { IfSome condition.now IsWellFormed }
    ensures { IfOk result (λ b. b ≡ spec.meets condition.now (row_of row.now).env) }
{
    match condition {
        Some(condition) => {
            let bound = (&*row).bindings(alloc)?;
            let env = (&*row).env(bound.as_slice());
            Ok(is_true(&eval(alloc, &*condition, &Scope::on(&env))?))
        }
        None => Ok(true),
    }
}
