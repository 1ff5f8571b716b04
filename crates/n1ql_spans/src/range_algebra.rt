//! Ranges of values: what lies in two of them, the least one around several, and those with nothing in them.

ghost use Rattle.std.specs.Prelude.{◌≡◌, ◌++◌, map, not, IfOk, OnOk};
ghost use Rattle.std.specs.List.{filter, fold};
ghost use Rattle.n1ql_spans.specs.RangeAlgebra as spec;

use crate::edge::{
    copy_bound, high_of, low_of, narrower_high, narrower_low, range_of, wider_high, wider_low,
};
use n1ql_value::{ListOf, Memory, Range, collate};
use std::alloc::Global;
use std::cmp::Ordering;

/// Ranges, in order.
pub type Ranges = ListOf<Range>;

/// The same range again.
pub fn copy_range(alloc: Global, r: &Range) -> Result<Range, Memory>
    ensures { IfOk result (λ copy. copy ≡ r.now) }
{
    let low = copy_bound(alloc, &r.low)?;
    let high = copy_bound(alloc, &r.high)?;
    Ok(Range {
        low,
        high,
        incl: r.incl,
    })
}

/// The range of all values, MISSING too.
pub fn free() -> Range
    ensures { result ≡ spec.free }
{
    Range {
        low: None,
        high: None,
        incl: 3,
    }
}

/// What lies in one of each, but for empty ranges.
pub fn meets(alloc: Global, rs: &[Range], ss: &[Range]) -> Result<Ranges, Memory>
    ensures { IfOk result (λ kept. kept ≡ spec.meets rs.now ss.now) }
{
    let mut kept = Ranges::new(alloc);
    for r in rs {
        add_meets(alloc, r, ss, &mut kept)?;
    }
    Ok(kept)
}

/// Adds what lies in a range and in one of several, but for empty ranges.
fn add_meets(alloc: Global, r: &Range, ss: &[Range], kept: &mut Ranges) -> Result<(), Memory>
    ensures { OnOk result (kept.new ≡ kept.old ++ filter (λ q. not (spec.is_empty q)) (map (spec.meet r.now) ss.now)) }
{
    for s in ss {
        let both = meet(alloc, r, s)?;
        if !is_empty(&both) {
            kept.push(both)?;
        }
    }
    Ok(())
}

/// What lies in both ranges.
fn meet(alloc: Global, r: &Range, s: &Range) -> Result<Range, Memory>
    ensures { IfOk result (λ both. both ≡ spec.meet r.now s.now) }
{
    let low = narrower_low(low_of(alloc, r)?, low_of(alloc, s)?);
    let high = narrower_high(high_of(alloc, r)?, high_of(alloc, s)?);
    Ok(range_of(low, high))
}

/// Whether nothing lies in a range, by its bounds alone.
fn is_empty(r: &Range) -> bool
    ensures { result ≡ spec.is_empty r.now }
{
    let Some(low) = &r.low else { return false };
    let Some(high) = &r.high else { return false };
    match collate(low, high) {
        Ordering::Less => false,
        Ordering::Equal => r.incl != 3,
        Ordering::Greater => true,
    }
}

/// The range from the least to the greatest bound of several.
pub fn hull(alloc: Global, rs: &[Range]) -> Result<Range, Memory>
    ensures { IfOk result (λ r. r ≡ spec.hull rs.now) }
{
    match rs.split_first() {
        Some((first, rest)) => hull_from(alloc, copy_range(alloc, first)?, rest),
        None => Ok(free()),
    }
}

/// The least range around one and several.
fn hull_from(alloc: Global, first: Range, rest: &[Range]) -> Result<Range, Memory>
    ensures { IfOk result (λ r. r ≡ fold spec.around first rest.now) }
{
    let mut hull = first;
    for r in rest {
        hull = around(alloc, &hull, r)?;
    }
    Ok(hull)
}

/// The least range around both.
fn around(alloc: Global, r: &Range, s: &Range) -> Result<Range, Memory>
    ensures { IfOk result (λ all. all ≡ spec.around r.now s.now) }
{
    let low = wider_low(low_of(alloc, r)?, low_of(alloc, s)?);
    let high = wider_high(high_of(alloc, r)?, high_of(alloc, s)?);
    Ok(range_of(low, high))
}
