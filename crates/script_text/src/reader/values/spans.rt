ghost use Rattle.std.specs.Prelude.{◌≡◌, [], ◌∷◌, map, IfOk};
ghost use Rattle.n1ql_value.specs.Datum.{value_of};
ghost use Rattle.script_text.specs.Members.{value_at};
ghost use Rattle.script_text.specs.Rows.{spelling};
ghost use Rattle.script_text.specs.SpanForms.{incl_of, range_with, range_of_value, span_of_value, spans_of_value};

use crate::reader::format::name::Name;
use crate::reader::values::members::value_at;
use crate::reader::values::span_forms::included;
use n1ql_value::{Memory, Pairs, Range, Span, Spans, Vals, Value};
use std::alloc::Global;

/// One span without ranges, which holds every row.
pub(crate) fn whole_spans(alloc: Global) -> Result<Spans, Memory>
    ensures { IfOk result (λ spans. spans ≡ [] ∷ []) }
{
    let mut spans = Spans::new(alloc);
    spans.push(Span::new(alloc))?;
    Ok(spans)
}

/// The spans that a value is.
pub(crate) fn spans_of_value(alloc: Global, value: &Value) -> Result<Spans, Memory>
    ensures { IfOk result (λ spans. spans ≡ spans_of_value value.now) }
{
    match value {
        Value::Array(items) => spans_in(alloc, items),
        _ => Ok(Spans::new(alloc)),
    }
}

fn spans_in(alloc: Global, items: &Vals) -> Result<Spans, Memory>
    ensures { IfOk result (λ spans. spans ≡ map (λ d. span_of_value (value_of d)) items.now) }
{
    let mut spans = Spans::new(alloc);
    for value in items.as_slice() {
        let span = span_of_value(alloc, value)?;
        spans.push(span)?;
    }
    Ok(spans)
}

fn span_of_value(alloc: Global, value: &Value) -> Result<Span, Memory>
    ensures { IfOk result (λ span. span ≡ span_of_value value.now) }
{
    match value {
        Value::Array(items) => ranges_in(alloc, items),
        _ => Ok(Span::new(alloc)),
    }
}

fn ranges_in(alloc: Global, items: &Vals) -> Result<Span, Memory>
    ensures { IfOk result (λ span. span ≡ map (λ d. range_of_value (value_of d)) items.now) }
{
    let mut span = Span::new(alloc);
    for value in items.as_slice() {
        let range = range_of_value(alloc, value)?;
        span.push(range)?;
    }
    Ok(span)
}

fn range_of_value(alloc: Global, value: &Value) -> Result<Range, Memory>
    ensures { IfOk result (λ range. range ≡ range_of_value value.now) }
{
    match value {
        Value::Object(members) => range_with(alloc, members),
        _ => range_with(alloc, &Pairs::new(alloc)),
    }
}

fn range_with(alloc: Global, members: &Pairs) -> Result<Range, Memory>
    ensures { IfOk result (λ range. range ≡ range_with members.now) }
{
    Ok(Range {
        low: bound_at(alloc, members, Name::Low)?,
        high: bound_at(alloc, members, Name::High)?,
        incl: incl_of(included(members)),
    })
}

/// Which bounds are in, as ranges count it.
fn incl_of(number: i64) -> u8
    ensures { result ≡ incl_of number }
{
    if number == 0 {
        0
    } else if number == 1 {
        1
    } else if number == 2 {
        2
    } else {
        3
    }
}

/// A copy of the bound with a name, None where it is absent.
fn bound_at(alloc: Global, members: &Pairs, name: Name) -> Result<Option<Value>, Memory>
    ensures { IfOk result (λ bound. bound ≡ value_at (spelling name) members.now) }
{
    match value_at(members, name) {
        Some(value) => Ok(Some(value.copy(alloc)?)),
        None => Ok(None),
    }
}
