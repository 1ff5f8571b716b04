//! DISTINCT: of equal results the first.

ghost use Rattle.std.specs.Prelude.{◌≡◌, map, not, true, ◌||◌, IfOk, OnOk, if◌then◌else◌};
ghost use Rattle.n1ql_ast.specs.Equality.{same_value};
ghost use Rattle.n1ql_meaning.specs.Finish as spec;
ghost use Rattle.pipe_rows.specs.Pipes.{placed};
ghost use Rattle.pipe_rows.specs.Seen.{has_seen};

use crate::out::Outs;
use n1ql_value::{Memory, Value};
use std::alloc::Global;
use std::collections::BTreeSet;

/// What gives the first of equal results, where a statement wants it, and else all.
pub fn distinct_if(alloc: Global, wanted: bool, outs: Outs) -> Result<Outs, Memory>
    ensures { IfOk result (λ kept. map placed kept.items
        ≡ (if wanted then spec.first_of_each (map placed outs.items) else map placed outs.items)) }
{
    if wanted {
        first_of_each(alloc, outs)
    } else {
        Ok(outs)
    }
}

/// What gives the first of equal results.
fn first_of_each(alloc: Global, outs: Outs) -> Result<Outs, Memory>
    ensures { IfOk result (λ kept. map placed kept.items ≡ spec.first_of_each (map placed outs.items)) }
{
    n1ql_value::laws::order_of_values_is_total();
    n1ql_meaning::laws::distinct_results_differ();
    let mut seen = BTreeSet::new(alloc);
    let mut kept = Vec::new(alloc);
    for out in outs {
        if is_new(alloc, &mut seen, &out.result)? {
            kept.push(out)?;
        }
    }
    Ok(kept)
}

/// Whether a result wasn't seen before. From now on it is.
fn is_new(alloc: Global, seen: &mut BTreeSet<Value>, value: &Value) -> Result<bool, Memory>
    ensures new { IfOk result (λ b. b ≡ not (has_seen seen.old value.now)) }
    ensures seen { OnOk result ((v : Value) → has_seen seen.new v ≡ (same_value v value.now || has_seen seen.old v)) }
{
    n1ql_value::laws::order_of_values_is_total();
    Ok(seen.insert(value.copy(alloc)?)?)
}
