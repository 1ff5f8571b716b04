//! The distinct values of a list, in order.

ghost use Rattle.std.specs.Prelude.{◌≡◌, map, not, IfOk};
ghost use Rattle.std.specs.List.{filter};
ghost use Rattle.std.specs.Ordering.{on};
ghost use Rattle.n1ql_value.specs.Collation.{value_cmp};
ghost use Rattle.n1ql_value.specs.Datum.{datum_of};
ghost use Rattle.n1ql_value.specs.Kinds as kinds;
ghost use Rattle.sorted_lists.specs.SortedLists.{sort_of};
ghost use Rattle.n1ql_spans.specs.Bounding as spec;
ghost use Rattle.n1ql_spans.specs.inner.Neighbours.{ends_in, neighbours_once};

use n1ql_value::{Memory, Value, collate, is_null};
use std::alloc::Global;

/// The distinct values of some that aren't NULL, in order.
///
/// # Errors
///
/// `Memory` where memory ran out.
pub fn distinct(alloc: Global, values: &[Value]) -> Result<Vec<Value>, Memory>
    ensures { IfOk result (λ found. map datum_of found.items ≡ spec.distinct (map datum_of values.now)) }
{
    n1ql_value::laws::order_of_values_is_total();
    n1ql_value::laws::alike_values_are_equal();
    let sorted = in_order(without_nulls(alloc, values)?)?;
    once(alloc, sorted)
}

/// Copies of the values that aren't NULL.
fn without_nulls(alloc: Global, values: &[Value]) -> Result<Vec<Value>, Memory>
    ensures { IfOk result (λ kept. kept.items ≡ filter (λ v. not (kinds.is_null v)) values.now) }
{
    let mut kept = Vec::new(alloc);
    for value in values {
        if !is_null(value) {
            kept.push(value.copy(alloc)?)?;
        }
    }
    Ok(kept)
}

/// The values in order.
fn in_order(mut values: Vec<Value>) -> Result<Vec<Value>, Memory>
    ensures { IfOk result (λ sorted. sorted.items ≡ sort_of (on datum_of value_cmp) values.items) }
{
    n1ql_value::laws::order_of_values_is_total();
    values.sort_by(|a, b| collate(a, b))?;
    Ok(values)
}

/// The values without those that are the same as the one before.
fn once(alloc: Global, values: Vec<Value>) -> Result<Vec<Value>, Memory>
    ensures { IfOk result (λ kept. kept.items ≡ neighbours_once (on datum_of value_cmp) values.items) }
{
    let mut kept: Vec<Value> = Vec::new(alloc);
    for value in values {
        if !is_last(kept.as_slice(), &value) {
            kept.push(value)?;
        }
    }
    Ok(kept)
}

/// Whether the last of some values is the same as this one.
fn is_last(values: &[Value], value: &Value) -> bool
    ensures { result ≡ ends_in (on datum_of value_cmp) values.now value.now }
{
    match values.last() {
        Some(last) => collate(last, value).is_eq(),
        None => false,
    }
}
