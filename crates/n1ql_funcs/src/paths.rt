ghost use Rattle.std.specs.Prelude.{◌≡◌, ◌↔◌, IsNone};
ghost use Rattle.std.specs.Option.{option_copied, option_map};
ghost use Rattle.n1ql_value.specs.declared.value.Value.TheVariants.{Missing};
ghost use Rattle.n1ql_value.specs.Datum.{datum_of};
ghost use Rattle.n1ql_value.specs.Kinds.{or_missing};
ghost use Rattle.n1ql_value.specs.Paths.{element_at, field_of, place_of};

use n1ql_value::{Vals, Value, is_missing};

/// The field of a value under a name, by reference. None stands for MISSING: for an absent name and for what isn't an object.
pub fn field<'a>(value: &'a Value, name: &str) -> Option<&'a Value>
    ensures value { or_missing (option_copied result) ≡ field_of name.now value.now }
    ensures none { IsNone result ↔ (field_of name.now value.now ≡ Missing) }
{
    match value {
        Value::Object(pairs) => unless_missing(pairs.get(name)),
        _ => None,
    }
}

/// The element of a value at a place, by reference. Places count from 0, and from the end back from -1. None stands for
/// MISSING: for a place outside, for what isn't an array and for a place that isn't a number.
pub fn place<'a>(value: &'a Value, at: &Value) -> Option<&'a Value>
    ensures value { or_missing (option_copied result) ≡ place_of value.now at.now }
    ensures none { IsNone result ↔ (place_of value.now at.now ≡ Missing) }
{
    match (value, at) {
        (Value::Array(items), Value::Int(at)) => unless_missing(element(items, *at)),
        _ => None,
    }
}

/// What was found, unless it is MISSING.
fn unless_missing(found: Option<&Value>) -> Option<&Value>
    ensures value { or_missing (option_copied result) ≡ or_missing (option_copied found.entry) }
    ensures none { IsNone result ↔ (or_missing (option_copied found.entry) ≡ Missing) }
{
    match found {
        Some(value) if !is_missing(value) => Some(value),
        _ => None,
    }
}

/// The element at a place from 0, or from the end back from -1.
fn element(items: &Vals, at: i64) -> Option<&Value>
    ensures { option_map datum_of (option_copied result) ≡ element_at items.now at }
{
    let from_end = at.unsigned_abs() as usize;
    if at >= 0 {
        items.get(from_end)
    } else if from_end <= items.len() {
        items.get(items.len() - from_end)
    } else {
        None
    }
}
