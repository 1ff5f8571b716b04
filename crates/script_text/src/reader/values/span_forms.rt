ghost use Rattle.std.specs.Prelude.{◌≡◌, map, IfOk};
ghost use Rattle.std.specs.List.{list_all};
ghost use Rattle.std.specs.Option.{option_copied};
ghost use Rattle.script_text.specs.Members.{each_member, each_item, value_at};
ghost use Rattle.script_text.specs.SpanForms.{is_range_member, is_range, is_span, are_spans, included, is_range_within, is_span_within, are_spans_within};

use crate::reader::format::member_kind::is_number;
use crate::reader::format::name::Name;
use crate::reader::values::members::number_at;
use n1ql_value::limits::{MAX_RANGES, MAX_SPANS};
use n1ql_value::{Pairs, Text, Vals, Value};

/// Whether a value is a list of spans.
pub(crate) fn are_spans(value: &Value) -> bool
    ensures { result ≡ are_spans value.now }
{
    match value {
        Value::Array(items) => items_are_spans(items),
        _ => false,
    }
}

fn items_are_spans(items: &Vals) -> bool
    ensures { result ≡ each_item is_span items.now }
{
    each_is_span(items.as_slice())
}

fn each_is_span(values: &[Value]) -> bool
    ensures { result ≡ list_all is_span values.now }
{
    values.iter().all(|value| is_span(value))
}

fn is_span(value: &Value) -> bool
    ensures { result ≡ is_span value.now }
{
    match value {
        Value::Array(items) => items_are_ranges(items),
        _ => false,
    }
}

fn items_are_ranges(items: &Vals) -> bool
    ensures { result ≡ each_item is_range items.now }
{
    each_is_range(items.as_slice())
}

fn each_is_range(values: &[Value]) -> bool
    ensures { result ≡ list_all is_range values.now }
{
    values.iter().all(|value| is_range(value))
}

fn is_range(value: &Value) -> bool
    ensures { result ≡ is_range value.now }
{
    match value {
        Value::Object(members) => are_range_members(members),
        _ => false,
    }
}

fn are_range_members(members: &Pairs) -> bool
    ensures { result ≡ each_member is_range_member members.now }
{
    each_is_range_member(members.as_slice())
}

fn each_is_range_member(entries: &[(Text, Value)]) -> bool
    ensures { result ≡ list_all (λ entry. is_range_member entry.0 entry.1) entries.now }
{
    entries
        .iter()
        .all(|(name, value)| is_range_member(name.as_str(), value))
}

fn is_range_member(name: &str, value: &Value) -> bool
    ensures { result ≡ is_range_member name.now value.now }
{
    name == "low" || name == "high" || (name == "incl" && is_number(value))
}

/// Whether the spans, and the ranges of each, are few enough, and each range says one of the four things of its bounds.
pub(crate) fn are_spans_within(value: &Value) -> bool
    ensures { result ≡ are_spans_within value.now }
{
    match value {
        Value::Array(items) => items.len() <= MAX_SPANS && items_are_spans_within(items),
        _ => false,
    }
}

fn items_are_spans_within(items: &Vals) -> bool
    ensures { result ≡ each_item is_span_within items.now }
{
    each_is_span_within(items.as_slice())
}

fn each_is_span_within(values: &[Value]) -> bool
    ensures { result ≡ list_all is_span_within values.now }
{
    values.iter().all(|value| is_span_within(value))
}

fn is_span_within(value: &Value) -> bool
    ensures { result ≡ is_span_within value.now }
{
    match value {
        Value::Array(items) => items.len() <= MAX_RANGES && items_are_ranges_within(items),
        _ => false,
    }
}

fn items_are_ranges_within(items: &Vals) -> bool
    ensures { result ≡ each_item is_range_within items.now }
{
    each_is_range_within(items.as_slice())
}

fn each_is_range_within(values: &[Value]) -> bool
    ensures { result ≡ list_all is_range_within values.now }
{
    values.iter().all(|value| is_range_within(value))
}

fn is_range_within(value: &Value) -> bool
    ensures { result ≡ is_range_within value.now }
{
    match value {
        Value::Object(members) => (0..=3).contains(&included(members)),
        _ => false,
    }
}

/// Which bounds of a range are in: both, where nothing is said.
pub(crate) fn included(members: &Pairs) -> i64
    ensures { result ≡ included members.now }
{
    number_at(members, Name::Incl, 3)
}
