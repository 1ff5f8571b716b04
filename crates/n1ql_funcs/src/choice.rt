ghost use Rattle.std.specs.Prelude.{◌≡◌, IfOk, map, not};
ghost use Rattle.std.specs.Option.{option_copied, option_map};
ghost use Rattle.n1ql_value.specs.Datum.{datum_of};
ghost use Rattle.n1ql_value.specs.Collation.{value_cmp};
ghost use Rattle.n1ql_value.specs.Kinds as kinds;
ghost use Rattle.n1ql_value.specs.Kinds.{or_null};
ghost use Rattle.n1ql_value.specs.FunctionValues.{first_that, topmost_valued};
ghost use Rattle.n1ql_funcs.specs.Choice.{higher_valued};

use n1ql_value::{Memory, Value, collate, is_missing, is_null, is_valued};
use std::alloc::Global;

/// Of the values that are neither MISSING nor NULL the greatest by the order.
pub fn greatest(values: &[Value]) -> Option<&Value>
    ensures { or_null (option_copied result) ≡ topmost_valued value_cmp (map datum_of values.now) }
{
    let mut found: Option<&Value> = None;
    for value in values {
        found = greater(found, value);
    }
    found
}

/// Of the values that are neither MISSING nor NULL the least by the order.
pub fn least(values: &[Value]) -> Option<&Value>
    ensures { or_null (option_copied result) ≡ topmost_valued (λ d e. value_cmp e d) (map datum_of values.now) }
{
    let mut found: Option<&Value> = None;
    for value in values {
        found = lesser(found, value);
    }
    found
}

/// The greater of what was found before and another value, if that is neither MISSING nor NULL.
fn greater<'a>(found: Option<&'a Value>, value: &'a Value) -> Option<&'a Value>
    ensures { option_map datum_of (option_copied result) ≡ higher_valued value_cmp (option_map datum_of (option_copied found.entry)) value.now }
{
    match found {
        _ if !is_valued(value) => found,
        Some(held) if !collate(held, value).is_lt() => found,
        _ => Some(value),
    }
}

/// The lesser of what was found before and another value, if that is neither MISSING nor NULL.
fn lesser<'a>(found: Option<&'a Value>, value: &'a Value) -> Option<&'a Value>
    ensures { option_map datum_of (option_copied result) ≡ higher_valued (λ d e. value_cmp e d) (option_map datum_of (option_copied found.entry)) value.now }
{
    match found {
        _ if !is_valued(value) => found,
        Some(held) if !collate(value, held).is_lt() => found,
        _ => Some(value),
    }
}

/// The first value that isn't MISSING.
pub fn first_not_missing(values: &[Value]) -> Option<&Value>
    ensures { or_null (option_copied result) ≡ first_that (λ v. not (kinds.is_missing v)) (map datum_of values.now) }
{
    values.iter().find(|value| !is_missing(value))
}

/// The first value that isn't NULL.
pub fn first_not_null(values: &[Value]) -> Option<&Value>
    ensures { or_null (option_copied result) ≡ first_that (λ v. not (kinds.is_null v)) (map datum_of values.now) }
{
    values.iter().find(|value| !is_null(value))
}

/// The first value that is neither MISSING nor NULL.
pub fn first_valued(values: &[Value]) -> Option<&Value>
    ensures { or_null (option_copied result) ≡ first_that kinds.is_valued (map datum_of values.now) }
{
    values.iter().find(|value| is_valued(value))
}

/// A copy of the value, NULL where there is none.
pub fn copy_or_null(alloc: Global, found: Option<&Value>) -> Result<Value, Memory>
    ensures { IfOk result (λ v. v ≡ or_null (option_copied found.entry)) }
{
    match found {
        Some(value) => value.copy(alloc),
        None => Ok(Value::Null),
    }
}
