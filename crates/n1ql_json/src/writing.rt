ghost use Rattle.std.specs.Prelude.{◌≡◌, ◌++◌, true, map, IfOk, OnOk, OnErr};
ghost use Rattle.serde_json.specs.View.{view, items_of, items_view, members_view};
ghost use Rattle.n1ql_value.specs.declared.datum.Datum.TheVariants as datum;
ghost use Rattle.n1ql_value.specs.Datum.{datum_of};
ghost use Rattle.n1ql_json.specs.Json.{json_of, json_pair, members_with, text_of};
ghost use Rattle.n1ql_json.specs.ReadBack.{IsReadBack};
ghost use Rattle.n1ql_json.specs.Valid.{all_true, is_value};

use n1ql_value::{Memory, Pairs, Value};
use serde_json::{Map, Value as Json};
use std::alloc::Global;

/// Writes a value's compact JSON text at the end of the bytes, names in byte order. MISSING is written as `null`.
///
/// # Errors
///
/// `Memory` where memory ran out. The bytes are then as before.
pub fn write(value: &Value, out: &mut Vec<u8>) -> Result<(), Memory>
    ensures ok { OnOk result (out.new.items ≡ out.old.items ++ text_of (datum_of value.now)) }
    ensures err { OnErr result (out.new.items ≡ out.old.items) }
    ensures reads_back { OnOk result (IsReadBack (datum_of value.now)) }
{
    let alloc = *out.allocator();
    let json = json_value(alloc, value)?;
    let text = json.to_vec(alloc)?;
    out.extend_from_slice(&text)?;
    Ok(())
}

/// The value as JSON.
#[cycle(json)]
fn json_value(alloc: Global, value: &Value) -> Result<Json, Memory>
    ensures json { IfOk result (λ j. view j ≡ json_of (datum_of value.now)) }
    ensures held { OnOk result (is_value (datum_of value.now) ≡ true) }
{
    match value {
        Value::Missing => Ok(Json::Null),
        Value::Null => Ok(Json::Null),
        Value::Bool(b) => Ok(Json::Bool(*b)),
        Value::Int(n) => Ok(Json::from(*n)),
        Value::Text(text) => Ok(Json::try_from_str(alloc, text.as_str())?),
        Value::Array(items) => Ok(Json::Array(json_items(alloc, items.as_slice())?)),
        Value::Object(pairs) => Ok(Json::Object(json_members(alloc, pairs)?)),
    }
}

/// The items of an array as JSON.
#[cycle(json)]
fn json_items(alloc: Global, items: &[Value]) -> Result<Vec<Json>, Memory>
    ensures json { IfOk result (λ v. items_view v.items ≡ items_of (map json_of (map datum_of items.now))) }
    ensures held { OnOk result (all_true (map is_value (map datum_of items.now)) ≡ true) }
{
    let mut found = Vec::with_capacity(alloc, items.len())?;
    for item in items {
        found.push(json_value(alloc, item)?)?;
    }
    Ok(found)
}

/// The pairs of an object as its members.
#[cycle(json)]
fn json_members(alloc: Global, pairs: &Pairs) -> Result<Map<String, Json>, Memory>
    ensures json { IfOk result (λ m. members_view m.entries ≡ members_with (map json_pair pairs.now)) }
    ensures held { OnOk result (is_value (datum.Object pairs.now) ≡ true) }
{
    let mut found = Map::new(alloc);
    for (name, value) in pairs.as_slice() {
        let member = json_value(alloc, value)?;
        serde_json::put(&mut found, alloc, name.as_str(), member)?;
    }
    Ok(found)
}
