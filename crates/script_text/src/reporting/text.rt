//! Values as compact JSON. Names and words stand as they are, since none of a report's needs an escape.
ghost use Rattle.std.specs.Prelude.{◌≡◌, ◌==◌, ◌∷◌, [], ◌++◌, decimal, map, if◌then◌else◌, IfOk, OnOk};
ghost use Rattle.serde_json.specs.Data.{no_members, number, unsigned, put as with_member};
ghost use Rattle.serde_json.specs.View.{members_view};
ghost use Rattle.json.specs.Print.{quoted};
ghost use Rattle.script_text.specs.Lines.{word, joined, array_of, with_entries, vector_text};

use n1ql_value::{Memory, Text, Value};
use seq_vector::Vector;
use serde_json::{Map, Value as Json};
use std::alloc::Global;

/// Appends a text.
pub(crate) fn put(out: &mut Vec<u8>, text: &[u8]) -> Result<(), Memory>
    ensures { OnOk result (out.new.items ≡ out.old.items ++ text.now) }
{
    out.extend_from_slice(text)?;
    Ok(())
}

/// Appends a number in decimal.
pub(crate) fn put_decimal(out: &mut Vec<u8>, n: u64) -> Result<(), Memory>
    ensures { OnOk result (out.new.items ≡ out.old.items ++ decimal n) }
{
    let mut buffer = itoa::Buffer::new();
    put(out, buffer.format(n).as_bytes())
}

/// Appends a string that needs no escape.
pub(crate) fn put_word(out: &mut Vec<u8>, text: &str) -> Result<(), Memory>
    ensures { OnOk result (out.new.items ≡ out.old.items ++ word text.now) }
{
    put(out, b"\"")?;
    put(out, text.as_bytes())?;
    put(out, b"\"")
}

/// Appends any string.
pub(crate) fn put_string(out: &mut Vec<u8>, text: &Text) -> Result<(), Memory>
    ensures { OnOk result (out.new.items ≡ out.old.items ++ quoted text.now) }
{
    let alloc = *out.allocator();
    n1ql_json::write(&Value::Text(text.copy(alloc)?), out)?;
    Ok(())
}

/// Appends the name of a member, which needs no escape.
pub(crate) fn put_name(out: &mut Vec<u8>, name: &str) -> Result<(), Memory>
    ensures { OnOk result (out.new.items ≡ out.old.items ++ (word name.now ++ 58 ∷ [])) }
{
    put_word(out, name)?;
    put(out, b":")
}

/// Appends a vector.
pub(crate) fn put_vector(out: &mut Vec<u8>, vector: &Vector) -> Result<(), Memory>
    ensures { OnOk result (out.new.items ≡ out.old.items ++ vector_text vector.now) }
{
    let alloc = *out.allocator();
    let text = vector_text(alloc, vector)?;
    put(out, &text)
}

/// Appends an array of numbers.
pub(crate) fn put_numbers(out: &mut Vec<u8>, numbers: &[u32]) -> Result<(), Memory>
    ensures { OnOk result (out.new.items ≡ out.old.items ++ array_of (map decimal numbers.now)) }
{
    put(out, b"[")?;
    put_items(out, numbers)?;
    put(out, b"]")
}

/// Appends numbers with a comma between each two.
fn put_items(out: &mut Vec<u8>, numbers: &[u32]) -> Result<(), Memory>
    ensures { OnOk result (out.new.items ≡ out.old.items ++ joined (map decimal numbers.now)) }
{
    for (at, number) in numbers.iter().enumerate() {
        separate(out, at)?;
        put_decimal(out, *number as u64)?;
    }
    Ok(())
}

/// Appends the comma before an item at a place from 0 of an array or an object.
pub(crate) fn separate(out: &mut Vec<u8>, at: usize) -> Result<(), Memory>
    ensures { OnOk result (out.new.items ≡ out.old.items ++ (if at == 0 then [] else 44 ∷ [])) }
{
    if at > 0 {
        put(out, b",")?;
    }
    Ok(())
}

/// The text of a vector: the object of its entries that aren't 0, names in byte order.
fn vector_text(alloc: Global, vector: &Vector) -> Result<Vec<u8>, Memory>
    ensures { IfOk result (λ text. text.items ≡ vector_text vector.now) }
{
    let entries = entries_of(alloc, vector)?;
    Ok(Json::Object(entries).to_vec(alloc)?)
}

/// The entries that aren't 0.
fn entries_of(alloc: Global, vector: &Vector) -> Result<Map<String, Json>, Memory>
    ensures { IfOk result (λ found. members_view found.entries ≡ with_entries 0 vector.now no_members) }
{
    let mut found = Map::new(alloc);
    for vb in 0..vector.len() {
        put_entry(alloc, &mut found, vb, vector.get(vb))?;
    }
    Ok(found)
}

/// Puts an entry in its place, unless it is 0.
fn put_entry(alloc: Global, found: &mut Map<String, Json>, vb: u32, n: u64) -> Result<(), Memory>
    ensures { OnOk result (members_view found.new.entries ≡ (if n == 0 then members_view found.old.entries else with_member (decimal vb) (number (unsigned n)) (members_view found.old.entries))) }
{
    if n == 0 {
        return Ok(());
    }
    let mut buffer = itoa::Buffer::new();
    serde_json::put(found, alloc, buffer.format(vb), Json::from(n))?;
    Ok(())
}
