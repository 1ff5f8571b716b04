ghost use Rattle.std.specs.Prelude.{◌≡◌, map, length};
ghost use Rattle.std.specs.Cmp.Lexicographic.{slice_cmp};
ghost use Rattle.std.specs.Ordering.{nat_cmp, ordering_then};
ghost use Rattle.n1ql_value.specs.Datum.{datum_of, pair_of};
ghost use Rattle.n1ql_value.specs.inner.Rank.{rank_of};
ghost use Rattle.n1ql_value.specs.Collation.{value_cmp, pair_cmp, key_at, keys_cmp, row_cmp};

use crate::row::Row;
use crate::text::Text;
use crate::vals::Vals;
use crate::value::Value;
use std::cmp::Ordering;

/// The order of two values: MISSING, NULL, FALSE, TRUE, numbers, strings, arrays, objects, as the N1QL reference's
/// collation has the types. Numbers go by value, strings by their bytes, arrays element by element with a proper prefix
/// smaller, objects by the number of names and then by their pairs in byte order of names.
#[cycle(collation)]
pub fn collate(a: &Value, b: &Value) -> Ordering
    ensures { result ≡ value_cmp (datum_of a.now) (datum_of b.now) }
{
    match a {
        Value::Int(x) => match b {
            Value::Int(y) => x.cmp(y),
            _ => rank(a).cmp(&rank(b)),
        },
        Value::Text(x) => match b {
            Value::Text(y) => x.cmp(y),
            _ => rank(a).cmp(&rank(b)),
        },
        Value::Array(xs) => match b {
            Value::Array(ys) => collate_items(xs.as_slice(), ys.as_slice()),
            _ => rank(a).cmp(&rank(b)),
        },
        Value::Object(ps) => match b {
            Value::Object(qs) => collate_objects(ps.as_slice(), qs.as_slice()),
            _ => rank(a).cmp(&rank(b)),
        },
        _ => rank(a).cmp(&rank(b)),
    }
}

/// The order of two rows: by their keys place by place, where a place past the keys reads MISSING, then the fewer keys
/// first, then by id.
pub fn collate_rows(a: &Row, b: &Row) -> Ordering
    ensures { result ≡ row_cmp a.now b.now }
{
    collate_keys(&a.keys, &b.keys)
        .then_with(|| a.keys.len().cmp(&b.keys.len()))
        .then_with(|| a.id.cmp(&b.id))
}

/// Keys place by place. A place past the keys reads MISSING.
fn collate_keys(a: &Vals, b: &Vals) -> Ordering
    ensures { result ≡ keys_cmp a.now b.now }
{
    for place in 0..a.len().max(b.len()) {
        match collate_at(a, b, place) {
            Ordering::Equal => {}
            order => return order,
        }
    }
    Ordering::Equal
}

/// The keys at one place.
fn collate_at(a: &Vals, b: &Vals, place: usize) -> Ordering
    ensures { result ≡ value_cmp (key_at a.now place) (key_at b.now place) }
{
    collate(
        a.get_or(place, &Value::Missing),
        b.get_or(place, &Value::Missing),
    )
}

/// Arrays, element by element.
#[cycle(collation)]
pub(crate) fn collate_items(a: &[Value], b: &[Value]) -> Ordering
    ensures { result ≡ slice_cmp value_cmp (map datum_of a.now) (map datum_of b.now) }
{
    for place in 0..a.len().min(b.len()) {
        match collate(&a[place], &b[place]) {
            Ordering::Equal => {}
            order => return order,
        }
    }
    a.len().cmp(&b.len())
}

/// Objects, by the number of names, then pair by pair with the name before the value.
#[cycle(collation)]
fn collate_objects(a: &[(Text, Value)], b: &[(Text, Value)]) -> Ordering
    ensures { result ≡ ordering_then (nat_cmp (length a.now) (length b.now))
        (slice_cmp (pair_cmp value_cmp) (map pair_of a.now) (map pair_of b.now)) }
{
    match usize::cmp(&a.len(), &b.len()) {
        Ordering::Equal => collate_entries(a, b),
        order => order,
    }
}

/// Equally many pairs, pair by pair with the name before the value.
#[cycle(collation)]
fn collate_entries(a: &[(Text, Value)], b: &[(Text, Value)]) -> Ordering
    requires { length a.now ≡ length b.now }
    ensures { result ≡ slice_cmp (pair_cmp value_cmp) (map pair_of a.now) (map pair_of b.now) }
{
    for place in 0..a.len() {
        match a[place].0.cmp(&b[place].0) {
            Ordering::Equal => {}
            order => return order,
        }
        match collate(&a[place].1, &b[place].1) {
            Ordering::Equal => {}
            order => return order,
        }
    }
    Ordering::Equal
}

/// The place of a value's type in the order of types.
fn rank(value: &Value) -> u8
    ensures { result ≡ rank_of value.now }
{
    match value {
        Value::Missing => 0,
        Value::Null => 1,
        Value::Bool(false) => 2,
        Value::Bool(true) => 3,
        Value::Int(_) => 4,
        Value::Text(_) => 5,
        Value::Array(_) => 6,
        Value::Object(_) => 7,
    }
}
