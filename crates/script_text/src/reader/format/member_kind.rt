ghost use Rattle.std.specs.Prelude.{◌≡◌, int_le, pos, false};
ghost use Rattle.std.specs.Option.{is_some, option_map_or};
ghost use Rattle.n1ql_value.specs.Kinds.{number_in, text_in};
ghost use Rattle.script_text.specs.Members.{flag_in, is_word};
ghost use Rattle.script_text.specs.Rows.{has_kind, in_range, is_consistency, is_mine, is_number_within, is_number_below, is_text_within};

use crate::reader::format::sizes::Sizes;
use crate::reader::values::span_forms::{are_spans, are_spans_within};
use crate::reader::values::sparse_vector::{is_vector, is_vector_below};
use n1ql_value::Value;

/// What the value of a member is, and in which range it lies.
#[derive(Clone, Copy)]
pub(crate) enum MemberKind {
    /// A whole number between bounds.
    Whole { least: i64, most: i64 },
    /// The number of a client.
    Client,
    /// The number of a vBucket.
    VBucket,
    /// A place in a list, from 0.
    Place,
    /// A text of so many bytes.
    Text { least: usize, most: usize },
    /// Any text.
    AnyText,
    /// Any value.
    AnyValue,
    /// True or false.
    Flag,
    /// The word for how new an answer has to be.
    Consistency,
    /// What an answer has to cover: `"mine"` or a sparse vector.
    Demand,
    /// A sparse vector.
    Vector,
    /// A list of spans.
    Spans,
}

impl MemberKind {
    /// Whether a value is of this kind.
    #[tactic(auto, unfolding(crate::specs::Rows::has_kind))]
    pub(crate) fn has(self, value: &Value) -> bool
        ensures { result ≡ has_kind self value.now }
    {
        match self {
            MemberKind::Whole { .. } => is_number(value),
            MemberKind::Client => is_number(value),
            MemberKind::VBucket => is_number(value),
            MemberKind::Place => is_number(value),
            MemberKind::Text { .. } => is_text(value),
            MemberKind::AnyText => is_text(value),
            MemberKind::AnyValue => true,
            MemberKind::Flag => is_flag(value),
            MemberKind::Consistency => is_consistency(value),
            MemberKind::Demand => is_mine(value) || is_vector(value),
            MemberKind::Vector => is_vector(value),
            MemberKind::Spans => are_spans(value),
        }
    }

    /// Whether a value of this kind is in its range.
    #[tactic(auto, unfolding(crate::specs::Rows::in_range))]
    pub(crate) fn admits(self, sizes: Sizes, value: &Value) -> bool
        ensures { result ≡ in_range sizes self value.now }
    {
        match self {
            MemberKind::Whole { least, most } => is_number_within(least, most, value),
            MemberKind::Client => is_number_below(sizes.clients, value),
            MemberKind::VBucket => is_number_below(sizes.vbuckets, value),
            MemberKind::Place => is_place(value),
            MemberKind::Text { least, most } => is_text_within(least, most, value),
            MemberKind::AnyText => true,
            MemberKind::AnyValue => true,
            MemberKind::Flag => true,
            MemberKind::Consistency => true,
            MemberKind::Demand => is_mine(value) || is_vector_below(sizes.vbuckets, value),
            MemberKind::Vector => is_vector_below(sizes.vbuckets, value),
            MemberKind::Spans => are_spans_within(value),
        }
    }
}

pub(crate) fn is_number(value: &Value) -> bool
    ensures { result ≡ is_some (number_in value.now) }
{
    matches!(value, Value::Int(_))
}

fn is_text(value: &Value) -> bool
    ensures { result ≡ is_some (text_in value.now) }
{
    matches!(value, Value::Text(_))
}

fn is_flag(value: &Value) -> bool
    ensures { result ≡ is_some (flag_in value.now) }
{
    matches!(value, Value::Bool(_))
}

fn is_word(word: &str, value: &Value) -> bool
    ensures { result ≡ is_word word.now value.now }
{
    match value {
        Value::Text(text) => text.as_str() == word,
        _ => false,
    }
}

fn is_consistency(value: &Value) -> bool
    ensures { result ≡ is_consistency value.now }
{
    is_word("not_bounded", value) || is_word("at_plus", value) || is_word("request_plus", value)
}

pub(crate) fn is_mine(value: &Value) -> bool
    ensures { result ≡ is_mine value.now }
{
    is_word("mine", value)
}

fn is_number_within(least: i64, most: i64, value: &Value) -> bool
    ensures { result ≡ is_number_within least most value.now }
{
    match value {
        Value::Int(number) => least <= *number && *number <= most,
        _ => false,
    }
}

fn is_number_below(end: u32, value: &Value) -> bool
    ensures { result ≡ is_number_below end value.now }
{
    match value {
        Value::Int(number) => 0 <= *number && *number < i64::from(end),
        _ => false,
    }
}

pub(crate) fn is_place(value: &Value) -> bool
    ensures { result ≡ option_map_or (int_le (pos 0)) (number_in value.now) false }
{
    match value {
        Value::Int(number) => 0 <= *number,
        _ => false,
    }
}

fn is_text_within(least: usize, most: usize, value: &Value) -> bool
    ensures { result ≡ is_text_within least most value.now }
{
    match value {
        Value::Text(text) => least <= text.as_str().len() && text.as_str().len() <= most,
        _ => false,
    }
}
