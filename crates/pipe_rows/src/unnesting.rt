//! UNNEST: rows for the elements of an array.

ghost use Rattle.std.specs.Prelude.{◌≡◌, ◌++◌, [], map, unwrap_or, IfOk, OnOk};
ghost use Rattle.std.specs.List.{All, flat_map};
ghost use Rattle.n1ql_value.specs.declared.value.Value.TheVariants.{Missing};
ghost use Rattle.n1ql_value.specs.Datum.{datum_of};
ghost use Rattle.n1ql_value.specs.Kinds.{array_in};
ghost use Rattle.n1ql_ast.specs.Evaluation.{value_of};
ghost use Rattle.n1ql_ast.specs.Forms.{IsWellFormed};
ghost use Rattle.n1ql_meaning.specs.Rows as spec;
ghost use Rattle.pipe_rows.specs.Pipes.{row_of};

use crate::pipe_row::{PipeRow, PipeRows};
use n1ql_ast::{Expr, Unnest};
use n1ql_expr::{Scope, eval};
use n1ql_value::{Memory, Value};
use std::alloc::Global;

/// Each UNNEST in turn takes the place of each row.
pub fn unnested_by<'a>(
    alloc: Global,
    unnests: &'a [Unnest<Expr>],
    mut rows: PipeRows<'a>,
) -> Result<PipeRows<'a>, Memory>
    requires { All (λ u. IsWellFormed u.over) unnests.now }
    ensures { IfOk result (λ made. map row_of made.items ≡ spec.unnested_by unnests.now (map row_of rows.entry.items)) }
{
    for unnest in unnests {
        rows = unnested(alloc, unnest, rows)?;
    }
    Ok(rows)
}

/// An UNNEST takes the place of each row.
fn unnested<'a>(
    alloc: Global,
    unnest: &'a Unnest<Expr>,
    rows: PipeRows<'a>,
) -> Result<PipeRows<'a>, Memory>
    requires { IsWellFormed unnest.now.over }
    ensures { IfOk result (λ made. map row_of made.items ≡ flat_map (spec.unnested unnest.now) (map row_of rows.entry.items)) }
{
    let mut made = Vec::new(alloc);
    for row in rows {
        push_unnested(alloc, &mut made, unnest, &row)?;
    }
    Ok(made)
}

/// Adds what an UNNEST makes of a row.
fn push_unnested<'a>(
    alloc: Global,
    made: &mut PipeRows<'a>,
    unnest: &'a Unnest<Expr>,
    row: &PipeRow<'a>,
) -> Result<(), Memory>
    requires { IsWellFormed unnest.now.over }
    ensures { OnOk result (map row_of made.new.items ≡ map row_of made.old.items ++ spec.unnested unnest.now (row_of row.now)) }
{
    let over = over_in(alloc, &unnest.over, row)?;
    push_over(alloc, made, unnest, row, &over)
}

/// Adds what an UNNEST over a value makes of a row.
fn push_over<'a>(
    alloc: Global,
    made: &mut PipeRows<'a>,
    unnest: &'a Unnest<Expr>,
    row: &PipeRow<'a>,
    over: &Value,
) -> Result<(), Memory>
    ensures { OnOk result (map row_of made.new.items
        ≡ map row_of made.old.items ++ spec.unnested_over unnest.now (row_of row.now) (unwrap_or (array_in over.now) [])) }
{
    match over {
        Value::Array(items) if !items.is_empty() => {
            push_elements(alloc, made, unnest, row, items.as_slice())
        }
        _ => push_left(alloc, made, unnest, row),
    }
}

/// The value of an expression in a row.
fn over_in(alloc: Global, over: &Expr, row: &PipeRow<'_>) -> Result<Value, Memory>
    requires { IsWellFormed over.now }
    ensures { IfOk result (λ v. v ≡ value_of over.now (row_of row.now).env) }
{
    let bound = (&*row).bindings(alloc)?;
    let env = (&*row).env(bound.as_slice());
    eval(alloc, &*over, &Scope::on(&env))
}

/// Adds a row for each element.
fn push_elements<'a>(
    alloc: Global,
    made: &mut PipeRows<'a>,
    unnest: &'a Unnest<Expr>,
    row: &PipeRow<'a>,
    items: &[Value],
) -> Result<(), Memory>
    ensures { OnOk result (map row_of made.new.items
        ≡ map row_of made.old.items ++ spec.with_elements unnest.now.name (row_of row.now) 0 (map datum_of items.now)) }
{
    for at in 0..items.len() {
        let value = items[at].copy(alloc)?;
        made.push(row.with_element(alloc, &unnest.name, at, value)?)?;
    }
    Ok(())
}

/// Adds the row that LEFT keeps, where there are no elements.
fn push_left<'a>(
    alloc: Global,
    made: &mut PipeRows<'a>,
    unnest: &'a Unnest<Expr>,
    row: &PipeRow<'a>,
) -> Result<(), Memory>
    ensures { OnOk result (map row_of made.new.items
        ≡ map row_of made.old.items ++ spec.unnested_over unnest.now (row_of row.now) []) }
{
    if unnest.left {
        made.push(row.with_element(alloc, &unnest.name, 0, Value::Missing)?)?;
    }
    Ok(())
}
