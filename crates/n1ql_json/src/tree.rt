//! From a tree over borrowed text, whose numbers are texts, to a value.

ghost use Rattle.std.specs.Prelude.{◌≡◌, ◌==◌, ◌<◌, true, false, length, slice_index, Some, IfOk, IsTrue, option_and_then};
ghost use Rattle.json.specs.Value.{value_view, items_view, members_view};
ghost use Rattle.n1ql_value.specs.Datum.{datum_of};
ghost use Rattle.serde_json.specs.Data.{no_members};
ghost use Rattle.serde_json.specs.Find.{as_i64};
ghost use Rattle.serde_json.specs.Read.{of_json, of_items, of_members, number_of, number_from};
ghost use Rattle.n1ql_json.specs.Reads.{value_read, items_read, members_read};

use crate::fault::JsonFault;
use fast_float::Numeral;
use json::Value as Tree;
use n1ql_value::{Pairs, Text, Vals, Value};
use std::alloc::Global;

/// The value that a tree stands for, where each number in it is an integer of 64 bits.
///
/// # Errors
///
/// `Number` where some number isn't, also one whose member another of its name replaces. `Memory` where it ran out.
#[cycle(trees)]
pub(crate) fn value_of(alloc: Global, tree: Tree<'_>) -> Result<Value, JsonFault>
    ensures { IfOk result (λ v. option_and_then value_read (of_json (value_view tree.entry)) ≡ Some (datum_of v)) }
{
    match tree {
        Tree::Null => Ok(Value::Null),
        Tree::Bool(b) => Ok(Value::Bool(b)),
        Tree::Number(text) => match integer_of(text) {
            Some(n) => Ok(Value::Int(n)),
            None => Err(JsonFault::Number),
        },
        Tree::String(text) => Ok(Value::Text(Text::of(alloc, text)?)),
        Tree::Array(items) => Ok(Value::Array(values_of(alloc, items)?)),
        Tree::Object(members) => Ok(Value::Object(pairs_of(alloc, members)?)),
    }
}

/// The values of an array.
#[cycle(trees)]
fn values_of(alloc: Global, items: Vec<Tree<'_>>) -> Result<Vals, JsonFault>
    ensures { IfOk result (λ vs. option_and_then items_read (of_items (items_view items.entry.items)) ≡ Some vs) }
{
    let mut values = Vals::new(alloc);
    for item in items {
        let value = value_of(alloc, item)?;
        values.push(value)?;
    }
    Ok(values)
}

/// The pairs of an object. Of a name that stands more than once, the last value counts.
#[cycle(trees)]
fn pairs_of(alloc: Global, members: Vec<(&str, Tree<'_>)>) -> Result<Pairs, JsonFault>
    ensures { IfOk result (λ ps. option_and_then members_read (of_members (members_view members.entry.items) no_members) ≡ Some ps) }
{
    let mut pairs = Pairs::new(alloc);
    for (name, member) in members {
        let value = value_of(alloc, member)?;
        let name = Text::of(alloc, name)?;
        pairs.put(name, value)?;
    }
    Ok(pairs)
}

/// The integer of 64 bits with a sign that a number's text writes; `-0` writes none.
fn integer_of(text: &str) -> Option<i64>
    ensures { result ≡ option_and_then as_i64 (number_of text.now) }
{
    let bytes = text.as_bytes();
    if has_minus(bytes) {
        negative(&Numeral::scan(&bytes[1..]))
    } else {
        unsigned(&Numeral::scan(bytes))
    }
}

fn has_minus(bytes: &[u8]) -> bool
    ensures minus { result ≡ (slice_index bytes.now 0 == 45) }
    ensures some { IsTrue result → 0 < length bytes.now }
{
    !bytes.is_empty() && bytes[0] == b'-'
}

fn unsigned(numeral: &Numeral<'_>) -> Option<i64>
    ensures { result ≡ option_and_then as_i64 (number_from false numeral.now) }
{
    numeral.to_i64(false)
}

fn negative(numeral: &Numeral<'_>) -> Option<i64>
    ensures { result ≡ option_and_then as_i64 (number_from true numeral.now) }
{
    match numeral.to_i64(true) {
        Some(n) if n < 0 => Some(n),
        _ => None,
    }
}
