ghost use Rattle.std.specs.Prelude.{◌≡◌, ◌∷◌, [], map, IfOk};
ghost use Rattle.n1ql_value.specs.Datum.{datum_of};
ghost use Rattle.scan_history.specs.RowTexts.{key_shown, row_shown, rows_text};

use n1ql_json::write;
use n1ql_value::{ListOf, Memory, Pairs, Row, Rows, Text, Vals, Value};
use std::alloc::Global;

/// The rows as JSON: an object with the id and the keys of each.
pub(crate) fn rows_text(alloc: Global, rows: &Rows) -> Result<ListOf<u8>, Memory>
    ensures { IfOk result (λ text. text ≡ rows_text rows.now) }
{
    let mut shown = Vals::new(alloc);
    for row in rows.as_slice() {
        shown.push(row_shown(alloc, row)?)?;
    }
    let mut text = Vec::new(alloc);
    write(&Value::Array(shown), &mut text)?;
    Ok(ListOf::from_vec(text))
}

fn row_shown(alloc: Global, row: &Row) -> Result<Value, Memory>
    ensures { IfOk result (λ v. datum_of v ≡ row_shown row.now) }
{
    let mut keys = Vals::new(alloc);
    for key in row.keys.as_slice() {
        keys.push(key_shown(alloc, key)?)?;
    }
    let mut pairs = Pairs::new(alloc);
    pairs.put(Text::of(alloc, "id")?, Value::Text(row.id.copy(alloc)?))?;
    pairs.put(Text::of(alloc, "keys")?, Value::Array(keys))?;
    Ok(Value::Object(pairs))
}

/// A key's value in brackets, and nothing in them for MISSING.
fn key_shown(alloc: Global, key: &Value) -> Result<Value, Memory>
    ensures { IfOk result (λ v. datum_of v ≡ key_shown (datum_of key.now)) }
{
    match key {
        Value::Missing => Ok(Value::Array(Vals::new(alloc))),
        _ => in_brackets(alloc, key),
    }
}

fn in_brackets(alloc: Global, key: &Value) -> Result<Value, Memory>
    ensures { IfOk result (λ v. datum_of v ≡ datum_of (Value.Array (datum_of key.now ∷ []))) }
{
    let mut shown = Vals::new(alloc);
    shown.push(key.copy(alloc)?)?;
    Ok(Value::Array(shown))
}
