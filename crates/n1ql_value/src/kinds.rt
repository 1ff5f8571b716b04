ghost use Rattle.std.specs.Prelude.{◌≡◌};
ghost use Rattle.n1ql_value.specs.Kinds as kinds;

use crate::value::Value;

/// Whether a value is MISSING.
pub fn is_missing(value: &Value) -> bool
    ensures { result ≡ kinds.is_missing value.now }
{
    matches!(value, Value::Missing)
}

/// Whether a value is NULL.
pub fn is_null(value: &Value) -> bool
    ensures { result ≡ kinds.is_null value.now }
{
    matches!(value, Value::Null)
}

/// Whether a value is neither MISSING nor NULL.
pub fn is_valued(value: &Value) -> bool
    ensures { result ≡ kinds.is_valued value.now }
{
    !matches!(value, Value::Missing | Value::Null)
}

/// Whether a value is TRUE.
pub fn is_true(value: &Value) -> bool
    ensures { result ≡ kinds.is_true value.now }
{
    matches!(value, Value::Bool(true))
}
