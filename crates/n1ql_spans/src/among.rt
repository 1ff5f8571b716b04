//! The ranges of IN.

ghost use Rattle.std.specs.Prelude.{◌≡◌, map, IfOk};
ghost use Rattle.n1ql_spans.specs.Bounding as spec;

use crate::distinct::distinct;
use crate::range_algebra::Ranges;
use n1ql_value::{Memory, Range, Value};
use std::alloc::Global;

/// A point for each distinct element of an array that isn't NULL, in order, and none of another value.
///
/// # Errors
///
/// `Memory` where memory ran out.
pub fn points_among(alloc: Global, list: &Value) -> Result<Ranges, Memory>
    ensures { IfOk result (λ points. points ≡ spec.among list.now) }
{
    match list {
        Value::Array(items) => points_of(alloc, distinct(alloc, items.as_slice())?),
        _ => Ok(Ranges::new(alloc)),
    }
}

/// The point of each value.
fn points_of(alloc: Global, values: Vec<Value>) -> Result<Ranges, Memory>
    ensures { IfOk result (λ points. points ≡ map spec.point values.items) }
{
    let mut points = Ranges::new(alloc);
    for value in values {
        points.push(point(alloc, value)?)?;
    }
    Ok(points)
}

/// The range of one value.
///
/// # Errors
///
/// `Memory` where memory ran out.
pub fn point(alloc: Global, value: Value) -> Result<Range, Memory>
    ensures { IfOk result (λ r. r ≡ spec.point value) }
{
    let low = value.copy(alloc)?;
    Ok(Range {
        low: Some(low),
        high: Some(value),
        incl: 3,
    })
}
