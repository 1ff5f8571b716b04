ghost use Rattle.std.specs.Prelude.{◌≡◌, Some, IfOk, IfErr};
ghost use Rattle.serde_json.specs.View.{view, items_view, members_view};
ghost use Rattle.n1ql_value.specs.Datum.{datum_of};
ghost use Rattle.n1ql_json.specs.Reads.{value_read, items_read, members_read, read_of, Gives, IsFault};

use crate::fault::JsonFault;
use n1ql_value::{Pairs, Text, Vals, Value};
use serde_json::{Map, Value as Json};
use std::alloc::Global;

/// Reads a value from the bytes of its JSON text (RFC 8259). Of a name that an object has more than once, the last
/// value counts.
///
/// # Errors
///
/// `Syntax` exactly where the bytes are not JSON that nests at most 127 deep. Else `Number` exactly where a number of the
/// value is not written as an integer from -2^63 to 2^63 - 1, so also for `1.0`, `1e2` and `-0`. `Memory` where it ran out.
pub fn read(alloc: Global, bytes: &[u8]) -> Result<Value, JsonFault>
    ensures { Gives (read_of bytes.now) result }
{
    match Json::from_slice(alloc, bytes) {
        Ok(tree) => value_from(alloc, tree),
        Err(error) => {
            if error.is_memory() {
                Err(JsonFault::Memory)
            } else {
                Err(JsonFault::Syntax)
            }
        }
    }
}

/// The value that a tree of JSON stands for, made of the tree's own texts.
///
/// # Errors
///
/// `Number` exactly where a number of the tree is not an integer from -2^63 to 2^63 - 1. `Memory` where it ran out.
#[cycle(values)]
pub fn value_from(alloc: Global, tree: Json) -> Result<Value, JsonFault>
    ensures ok { IfOk result (λ v. value_read (view tree) ≡ Some (datum_of v)) }
    ensures err { IfErr result (IsFault (value_read (view tree))) }
{
    match tree {
        Json::Null => Ok(Value::Null),
        Json::Bool(b) => Ok(Value::Bool(b)),
        Json::Number(number) => match number.as_i64() {
            Some(n) => Ok(Value::Int(n)),
            None => Err(JsonFault::Number),
        },
        Json::String(text) => Ok(Value::Text(Text::from_string(text))),
        Json::Array(items) => Ok(Value::Array(values_from(alloc, items)?)),
        Json::Object(members) => Ok(Value::Object(pairs_from(alloc, members)?)),
    }
}

/// The values of an array.
#[cycle(values)]
fn values_from(alloc: Global, items: Vec<Json>) -> Result<Vals, JsonFault>
    ensures ok { IfOk result (λ vs. items_read (items_view items.items) ≡ Some vs) }
    ensures err { IfErr result (IsFault (items_read (items_view items.items))) }
{
    let mut values = Vals::new(alloc);
    for item in items {
        let value = value_from(alloc, item)?;
        values.push(value)?;
    }
    Ok(values)
}

/// The pairs of an object.
#[cycle(values)]
fn pairs_from(alloc: Global, members: Map<String, Json>) -> Result<Pairs, JsonFault>
    ensures ok { IfOk result (λ ps. members_read (members_view members.entries) ≡ Some ps) }
    ensures err { IfErr result (IsFault (members_read (members_view members.entries))) }
{
    let mut pairs = Pairs::new(alloc);
    for (name, member) in members {
        let value = value_from(alloc, member)?;
        pairs.put(Text::from_string(name), value)?;
    }
    Ok(pairs)
}
