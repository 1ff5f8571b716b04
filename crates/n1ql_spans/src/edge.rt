//! One end of a range, and which of two such ends lets fewer values in, or more.

ghost use Rattle.std.specs.Prelude.{◌≡◌, IfOk};
ghost use Rattle.n1ql_spans.specs.RangeAlgebra as spec;

use n1ql_value::{Memory, Range, Value, collate};
use std::alloc::Global;
use std::cmp::Ordering;

/// One end of a range.
#[derive(Drop)]
pub struct Edge {
    /// Absent where the side is free.
    pub bound: Option<Value>,
    /// Whether the bound is in.
    pub included: bool,
}

/// The low end of a range.
pub fn low_of(alloc: Global, r: &Range) -> Result<Edge, Memory>
    ensures { IfOk result (λ edge. edge ≡ spec.low_of r.now) }
{
    let included = r.incl == 1 || r.incl == 3;
    let bound = copy_bound(alloc, &r.low)?;
    Ok(Edge { bound, included })
}

/// The high end of a range.
pub fn high_of(alloc: Global, r: &Range) -> Result<Edge, Memory>
    ensures { IfOk result (λ edge. edge ≡ spec.high_of r.now) }
{
    let included = r.incl == 2 || r.incl == 3;
    let bound = copy_bound(alloc, &r.high)?;
    Ok(Edge { bound, included })
}

/// The same bound again.
pub fn copy_bound(alloc: Global, bound: &Option<Value>) -> Result<Option<Value>, Memory>
    ensures { IfOk result (λ copy. copy ≡ bound.now) }
{
    match bound {
        Some(value) => Ok(Some(value.copy(alloc)?)),
        None => Ok(None),
    }
}

/// The range between two ends.
pub fn range_of(low: Edge, high: Edge) -> Range
    ensures { result ≡ spec.range_of low high }
{
    let incl = inclusion(low.included, high.included);
    Range {
        low: low.bound,
        high: high.bound,
        incl,
    }
}

/// Which bounds are in, as a range tells it.
fn inclusion(low: bool, high: bool) -> u8
    ensures { result ≡ spec.inclusion low high }
{
    match (low, high) {
        (false, false) => 0,
        (true, false) => 1,
        (false, true) => 2,
        (true, true) => 3,
    }
}

/// Of two low ends the one that lets fewer values in.
pub fn narrower_low(a: Edge, b: Edge) -> Edge
    ensures { result ≡ spec.narrower_low a b }
{
    let Some(v) = &a.bound else { return b };
    let Some(w) = &b.bound else { return a };
    match collate(v, w) {
        Ordering::Less => b,
        Ordering::Equal => with_inclusion(a.included && b.included, a),
        Ordering::Greater => a,
    }
}

/// Of two high ends the one that lets fewer values in.
pub fn narrower_high(a: Edge, b: Edge) -> Edge
    ensures { result ≡ spec.narrower_high a b }
{
    let Some(v) = &a.bound else { return b };
    let Some(w) = &b.bound else { return a };
    match collate(v, w) {
        Ordering::Less => a,
        Ordering::Equal => with_inclusion(a.included && b.included, a),
        Ordering::Greater => b,
    }
}

/// Of two low ends the one that lets more values in.
pub fn wider_low(a: Edge, b: Edge) -> Edge
    ensures { result ≡ spec.wider_low a b }
{
    let Some(v) = &a.bound else { return a };
    let Some(w) = &b.bound else { return b };
    match collate(v, w) {
        Ordering::Less => a,
        Ordering::Equal => with_inclusion(a.included || b.included, a),
        Ordering::Greater => b,
    }
}

/// Of two high ends the one that lets more values in.
pub fn wider_high(a: Edge, b: Edge) -> Edge
    ensures { result ≡ spec.wider_high a b }
{
    let Some(v) = &a.bound else { return a };
    let Some(w) = &b.bound else { return b };
    match collate(v, w) {
        Ordering::Less => b,
        Ordering::Equal => with_inclusion(a.included || b.included, a),
        Ordering::Greater => a,
    }
}

/// The same bound, in or out.
fn with_inclusion(included: bool, edge: Edge) -> Edge
    ensures { result ≡ spec.with_inclusion included edge }
{
    Edge {
        bound: edge.bound,
        included,
    }
}
