ghost use Rattle.std.specs.Prelude.{◌≡◌, IsTrue, map};
ghost use Rattle.n1ql_value.specs.Comparison as comparison;
ghost use Rattle.n1ql_value.specs.Datum.{datum_of};
ghost use Rattle.n1ql_funcs.specs.Truths.{truth_value};

use crate::logic::and2;
use crate::truth::Truth;
use n1ql_value::{Op, Value, collate, is_missing, is_null};
use std::cmp::Ordering;

/// A comparison: MISSING where an operand is MISSING, else NULL where one is NULL, else by the order of values, for values
/// of two types too. `op` has to be one of the six operators that compare.
pub fn compare(op: Op, a: &Value, b: &Value) -> Truth
    requires { IsTrue (comparison.is_comparing op) }
    ensures { truth_value result ≡ comparison.comparison_of op a.now b.now }
{
    if is_missing(a) || is_missing(b) {
        Truth::Missing
    } else if is_null(a) || is_null(b) {
        Truth::Null
    } else {
        Truth::of_test(allows(op, collate(a, b)))
    }
}

/// `value BETWEEN low AND high`, which is `value >= low AND value <= high`.
pub fn between(value: &Value, low: &Value, high: &Value) -> Truth
    ensures { truth_value result ≡ comparison.between_of value.now low.now high.now }
{
    let above = compare(Op::Ge, value, low).value();
    let below = compare(Op::Le, value, high).value();
    and2(&above, &below)
}

/// `value IN list`: MISSING where an operand is MISSING, NULL where the value is NULL or the list isn't an array, else whether
/// an element equals the value by the order.
pub fn is_in(value: &Value, list: &Value) -> Truth
    ensures { truth_value result ≡ comparison.in_of value.now list.now }
{
    if is_missing(value) || is_missing(list) {
        return Truth::Missing;
    }
    match list {
        Value::Array(items) if !is_null(value) => {
            Truth::of_test(is_among(value, items.as_slice()))
        }
        _ => Truth::Null,
    }
}

/// Whether an element equals a value by the order.
fn is_among(value: &Value, items: &[Value]) -> bool
    ensures { result ≡ comparison.is_among value.now (map datum_of items.now) }
{
    for item in items {
        if collate(value, item).is_eq() {
            return true;
        }
    }
    false
}

/// Whether an operator is true of values in this order.
fn allows(op: Op, order: Ordering) -> bool
    requires { IsTrue (comparison.is_comparing op) }
    ensures { result ≡ comparison.allows op order }
{
    match op {
        Op::Eq => order.is_eq(),
        Op::Ne => order.is_ne(),
        Op::Lt => order.is_lt(),
        Op::Le => order.is_le(),
        Op::Gt => order.is_gt(),
        Op::Ge => order.is_ge(),
        _ => unreachable!(),
    }
}
