ghost use Rattle.std.specs.Prelude.{◌≡◌};
ghost use Rattle.std.specs.Option.{option_copied};
ghost use Rattle.script_text.specs.Members.{value_at, text_at, number_at, flag_at, count_at};
ghost use Rattle.script_text.specs.Rows.{spelling};

use crate::reader::format::name::Name;
use n1ql_value::{Pairs, Value};

/// The value of the member with a name.
pub(crate) fn value_at<'a>(members: &'a Pairs, name: Name) -> Option<&'a Value>
    ensures { option_copied result ≡ value_at (spelling name) members.now }
{
    value_under(members, name.as_str())
}

/// The text of the member with a name, or the other one where no text stands there.
pub(crate) fn text_at<'a>(members: &'a Pairs, name: Name, other: &'a str) -> &'a str
    ensures { result.now ≡ text_at (spelling name) other.now members.now }
{
    match value_at(members, name) {
        Some(Value::Text(text)) => text.as_str(),
        _ => other,
    }
}

/// The number of the member with a name, or the other one where no number stands there.
pub(crate) fn number_at(members: &Pairs, name: Name, other: i64) -> i64
    ensures { result ≡ number_at (spelling name) other members.now }
{
    match value_at(members, name) {
        Some(Value::Int(number)) => *number,
        _ => other,
    }
}

/// The flag of the member with a name, or the other one where none stands there.
pub(crate) fn flag_at(members: &Pairs, name: Name, other: bool) -> bool
    ensures { result ≡ flag_at (spelling name) other members.now }
{
    match value_at(members, name) {
        Some(Value::Bool(flag)) => *flag,
        _ => other,
    }
}

/// The magnitude of that number.
pub(crate) fn count_at(members: &Pairs, name: Name, other: u32) -> u64
    ensures { result ≡ count_at (spelling name) other members.now }
{
    number_at(members, name, i64::from(other)).unsigned_abs()
}

/// The magnitude of the number under a name, or the other one where no number stands there.
pub(crate) fn count_under(members: &Pairs, name: &str, other: u32) -> u64
    ensures { result ≡ count_at name.now other members.now }
{
    match value_under(members, name) {
        Some(Value::Int(number)) => number.unsigned_abs(),
        _ => u64::from(other),
    }
}

/// The value under a name.
fn value_under<'a>(members: &'a Pairs, name: &str) -> Option<&'a Value>
    ensures { option_copied result ≡ value_at name.now members.now }
{
    members.get(name)
}
