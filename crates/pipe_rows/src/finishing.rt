ghost use Rattle.std.specs.Prelude.{◌≡◌, List, Option, ℕ, map, take, drop, IfOk};
ghost use Rattle.std.specs.Option.{option_map_or};
ghost use Rattle.n1ql_value.specs.Datum.{datum_of};
ghost use Rattle.n1ql_meaning.specs.Finish as spec;
ghost use Rattle.pipe_rows.specs.Pipes.{placed};

use crate::distinct::distinct_if;
use crate::out::{Out, Outs};
use crate::sorting::in_order;
use n1ql_ast::Select;
use n1ql_value::{Memory, Vals};
use std::alloc::Global;

/// The results of a statement, given what its rows or groups give: DISTINCT, ORDER BY, OFFSET and LIMIT.
///
/// # Errors
///
/// `Memory` where memory ran out.
pub fn finish(alloc: Global, q: &Select, outs: Outs) -> Result<Vals, Memory>
    ensures { IfOk result (λ vs. vs ≡ map datum_of (spec.finished q.now (map placed outs.items))) }
{
    let outs = distinct_if(alloc, q.distinct, outs)?;
    let outs = in_order(q.orders.as_slice(), outs)?;
    let outs = at_most(q.limit, past(q.offset, outs)?);
    Ok(results(alloc, outs)?)
}

/// All but so many from the front.
#[tactic(auto, using(std::proofs::lemmas::List::drop_min))]
fn past(offset: u64, mut outs: Outs) -> Result<Outs, Memory>
    ensures { IfOk result (λ kept. kept.items ≡ drop offset outs.items) }
{
    let at = (offset as usize).min(outs.len());
    Ok(outs.split_off(at)?)
}

/// So many from the front, and all where there is no limit.
fn at_most(limit: Option<u64>, mut outs: Outs) -> Outs
    ensures { result.items ≡ option_map_or (λ n. take n outs.items) limit outs.items }
{
    if let Some(n) = limit {
        outs.truncate(n as usize);
    }
    outs
}

/// The results alone.
fn results(alloc: Global, outs: Outs) -> Result<Vals, Memory>
    ensures { IfOk result (λ vs. vs ≡ map (λ (o : Out). datum_of o.result) outs.items) }
{
    let mut values = Vals::new(alloc);
    for out in outs {
        values.push(out.result)?;
    }
    Ok(values)
}
