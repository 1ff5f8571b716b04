ghost use Rattle.std.specs.Prelude.{◌≡◌, IfOk, codes};
ghost use Rattle.n1ql_value.specs.declared.value.Value.TheVariants as value;
ghost use Rattle.n1ql_value.specs.Arithmetic.{joined_of};
ghost use Rattle.n1ql_value.specs.FunctionValues.{string_of, type_name};

use n1ql_value::{Memory, Text, Value};
use std::alloc::Global;

/// `a || b`: MISSING where an operand is MISSING, else NULL where one isn't a string, else the strings joined.
///
/// # Errors
///
/// `Memory` where memory ran out.
pub fn join(alloc: Global, a: &Value, b: &Value) -> Result<Value, Memory>
    ensures { IfOk result (λ v. v ≡ joined_of a.now b.now) }
{
    match (a, b) {
        (Value::Missing, _) | (_, Value::Missing) => Ok(Value::Missing),
        (Value::Text(a), Value::Text(b)) => {
            let mut both = String::from_str(alloc, a.as_str())?;
            both.push_str(b.as_str())?;
            Ok(Value::Text(Text::from_string(both)))
        }
        _ => Ok(Value::Null),
    }
}

/// A string itself, a number in decimal, TRUE and FALSE by their names; MISSING of MISSING, else NULL.
pub fn to_string(alloc: Global, value: &Value) -> Result<Value, Memory>
    ensures { IfOk result (λ v. v ≡ string_of value.now) }
{
    match value {
        Value::Missing => Ok(Value::Missing),
        Value::Bool(true) => word(alloc, "true"),
        Value::Bool(false) => word(alloc, "false"),
        Value::Int(n) => Ok(Value::Text(Text::from_string(n.to_string(alloc)?))),
        Value::Text(text) => Ok(Value::Text(text.copy(alloc)?)),
        _ => Ok(Value::Null),
    }
}

/// The name of a value's type.
pub fn type_name(value: &Value) -> &'static str
    ensures { result.now ≡ type_name value.now }
{
    match value {
        Value::Missing => "missing",
        Value::Null => "null",
        Value::Bool(_) => "boolean",
        Value::Int(_) => "number",
        Value::Text(_) => "string",
        Value::Array(_) => "array",
        Value::Object(_) => "object",
    }
}

/// A word as a string.
pub fn word(alloc: Global, word: &str) -> Result<Value, Memory>
    ensures { IfOk result (λ v. v ≡ value.Text word.now) }
{
    Ok(Value::Text(Text::of(alloc, word)?))
}
