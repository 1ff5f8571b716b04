ghost use Rattle.std.specs.Prelude.{◌≡◌, ◌<◌, ◌^◌, IfOk, length, map};
ghost use Rattle.std.specs.Str.{chars};
ghost use Rattle.n1ql_value.specs.declared.datum.Datum.TheVariants as datum;
ghost use Rattle.n1ql_value.specs.declared.text.Text.{Text as Bytes};
ghost use Rattle.n1ql_value.specs.declared.value.Value.{Value};
ghost use Rattle.n1ql_value.specs.Functions.{TakesCount};
ghost use Rattle.n1ql_value.specs.FunctionValues as values;

use crate::arithmetic::number;
use crate::choice::{
    copy_or_null, first_not_missing, first_not_null, first_valued, greatest, least,
};
use crate::comparison::is_in;
use crate::texts::{to_string, type_name, word};
use n1ql_value::{Fun, Memory, Text, Vals, Value};
use std::alloc::Global;

/// The value of a call of a function. It has to be given as many arguments as it takes.
///
/// # Errors
///
/// `Memory` where memory ran out.
pub fn call(alloc: Global, fun: Fun, args: &Vals) -> Result<Value, Memory>
    requires { TakesCount fun (length args.now) }
    ensures { IfOk result (λ v. v ≡ values.call_of fun args.now) }
{
    let values = args.as_slice();
    match fun {
        Fun::Abs => Ok(absolute(argument(args, 0))),
        Fun::ArrayLength => Ok(array_length(argument(args, 0))),
        Fun::ArrayContains => Ok(is_in(argument(args, 1), argument(args, 0)).value()),
        Fun::Contains => Ok(contains(argument(args, 0), argument(args, 1))),
        Fun::Greatest => copy_or_null(alloc, greatest(values)),
        Fun::Least => copy_or_null(alloc, least(values)),
        Fun::IfMissing => copy_or_null(alloc, first_not_missing(values)),
        Fun::IfNull => copy_or_null(alloc, first_not_null(values)),
        Fun::IfMissingOrNull => copy_or_null(alloc, first_valued(values)),
        Fun::Length => Ok(text_length(argument(args, 0))),
        Fun::ObjectNames => object_names(alloc, argument(args, 0)),
        Fun::ToString => to_string(alloc, argument(args, 0)),
        Fun::TypeOf => word(alloc, type_name(argument(args, 0))),
    }
}

/// The argument at a place.
fn argument(args: &Vals, place: usize) -> &Value
    requires { place < length args.now }
    ensures { result.now ≡ values.argument args.now place }
{
    &args.as_slice()[place]
}

/// ABS: the absolute value, NULL of what isn't a number and of -2^63.
fn absolute(value: &Value) -> Value
    ensures { result ≡ values.absolute_of value.now }
{
    match value {
        Value::Missing => Value::Missing,
        Value::Int(n) => number(n.checked_abs()),
        _ => Value::Null,
    }
}

/// ARRAY_LENGTH: how many elements there are.
fn array_length(value: &Value) -> Value
    ensures { result ≡ values.count_of value.now }
{
    match value {
        Value::Missing => Value::Missing,
        Value::Array(items) => Value::Int(items.as_slice().len() as i64),
        _ => Value::Null,
    }
}

/// CONTAINS: whether the second text occurs in the first.
fn contains(text: &Value, part: &Value) -> Value
    ensures { result ≡ values.contains_of text.now part.now }
{
    match (text, part) {
        (Value::Missing, _) | (_, Value::Missing) => Value::Missing,
        (Value::Text(text), Value::Text(part)) => Value::Bool(occurs(text.as_str(), part.as_str())),
        _ => Value::Null,
    }
}

/// Whether the second text occurs in the first.
fn occurs(text: &str, part: &str) -> bool
    ensures { result ≡ values.occurs text.now part.now }
{
    text.contains(part)
}

/// LENGTH: how many code points there are.
fn text_length(value: &Value) -> Value
    ensures { result ≡ values.length_of value.now }
{
    match value {
        Value::Missing => Value::Missing,
        Value::Text(text) => Value::Int(code_points(text.as_str()) as i64),
        _ => Value::Null,
    }
}

/// How many code points a text has.
fn code_points(text: &str) -> usize
    ensures count { result ≡ length (chars text.now) }
    ensures small { result < 2 ^ 63 }
{
    text.chars().count()
}

/// OBJECT_NAMES: the names, in byte order.
fn object_names(alloc: Global, value: &Value) -> Result<Value, Memory>
    ensures { IfOk result (λ v. v ≡ values.names_of value.now) }
{
    match value {
        Value::Missing => Ok(Value::Missing),
        Value::Object(pairs) => Ok(Value::Array(names(alloc, pairs.as_slice())?)),
        _ => Ok(Value::Null),
    }
}

/// The names of pairs.
fn names(alloc: Global, entries: &[(Text, Value)]) -> Result<Vals, Memory>
    ensures { IfOk result (λ vs. vs ≡ map (λ (e : Bytes × Value). datum.Text e.0) entries.now) }
{
    let mut found = Vals::new(alloc);
    for (name, _) in entries {
        found.push(Value::Text(name.copy(alloc)?))?;
    }
    Ok(found)
}
