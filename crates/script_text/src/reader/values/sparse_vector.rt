ghost use Rattle.std.specs.Prelude.{◌≡◌, nat_lt};
ghost use Rattle.std.specs.List.{list_all};
ghost use Rattle.script_text.specs.Members.{each_member};
ghost use Rattle.script_text.specs.SparseVectors.{is_digit, is_decimal, number_of_digits, is_entry, is_vector, is_entry_below, is_vector_below};

use crate::reader::format::member_kind::{is_number, is_place};
use n1ql_value::{Pairs, Text, Value};

/// Whether a value is a sparse vector.
pub(crate) fn is_vector(value: &Value) -> bool
    ensures { result ≡ is_vector value.now }
{
    match value {
        Value::Object(members) => are_entries(members),
        _ => false,
    }
}

fn are_entries(members: &Pairs) -> bool
    ensures { result ≡ each_member is_entry members.now }
{
    each_is_entry(members.as_slice())
}

fn each_is_entry(entries: &[(Text, Value)]) -> bool
    ensures { result ≡ list_all (λ entry. is_entry entry.0 entry.1) entries.now }
{
    entries
        .iter()
        .all(|(name, value)| is_entry(name.as_str(), value))
}

fn is_entry(name: &str, value: &Value) -> bool
    ensures { result ≡ is_entry name.now value.now }
{
    is_decimal(name.as_bytes()) && is_number(value)
}

/// Whether these are digits alone, at least one, and none in front of others is 0.
fn is_decimal(name: &[u8]) -> bool
    ensures { result ≡ is_decimal name.now }
{
    !name.is_empty() && (name.len() == 1 || name[0] != b'0') && are_digits(name)
}

fn are_digits(name: &[u8]) -> bool
    ensures { result ≡ list_all is_digit name.now }
{
    name.iter().all(|b| b'0' <= *b && *b <= b'9')
}

/// Whether each entry of a sparse vector names a vBucket below the end and isn't negative.
pub(crate) fn is_vector_below(end: u32, value: &Value) -> bool
    ensures { result ≡ is_vector_below end value.now }
{
    match value {
        Value::Object(members) => are_entries_below(end, members),
        _ => false,
    }
}

fn are_entries_below(end: u32, members: &Pairs) -> bool
    ensures { result ≡ each_member (is_entry_below end) members.now }
{
    each_is_entry_below(end, members.as_slice())
}

fn each_is_entry_below(end: u32, entries: &[(Text, Value)]) -> bool
    ensures { result ≡ list_all (λ entry. is_entry_below end entry.0 entry.1) entries.now }
{
    entries
        .iter()
        .all(|(name, value)| is_entry_below(end, name.as_str(), value))
}

fn is_entry_below(end: u32, name: &str, value: &Value) -> bool
    ensures { result ≡ is_entry_below end name.now value.now }
{
    is_number_below(end, name.as_bytes()) && is_place(value)
}

/// Whether the number that the digits stand for, which may have any size, is below the end.
fn is_number_below(end: u32, digits: &[u8]) -> bool
    ensures { result ≡ nat_lt (number_of_digits digits.now) end }
{
    let mut number = 0;
    for digit in digits {
        number = (number * 10 + u64::from(digit.saturating_sub(b'0'))).min(u64::from(end));
    }
    number < u64::from(end)
}
