use super::*;
use std::alloc::Global;

fn text(alloc: Global, text: &str) -> Result<Value, Memory> {
    Ok(Value::Text(Text::of(alloc, text)?))
}

fn numbers(alloc: Global, numbers: &[i64]) -> Result<Vals, Memory> {
    let mut vals = Vals::new(alloc);
    for n in numbers {
        vals.push(Value::Int(*n))?;
    }
    Ok(vals)
}

fn object(alloc: Global, entries: &[(&str, i64)]) -> Result<Pairs, Memory> {
    let mut pairs = Pairs::new(alloc);
    for (name, n) in entries {
        pairs.put(Text::of(alloc, name)?, Value::Int(*n))?;
    }
    Ok(pairs)
}

fn one(alloc: Global, value: Value) -> Result<Vals, Memory> {
    let mut vals = Vals::new(alloc);
    vals.push(value)?;
    Ok(vals)
}

// The four values without parts, then numbers, then strings: each below the next.
fn plain_values(alloc: Global) -> Result<Vals, Memory> {
    let mut vals = Vals::new(alloc);
    for value in [
        Value::Missing,
        Value::Null,
        Value::Bool(false),
        Value::Bool(true),
    ] {
        vals.push(value)?;
    }
    for n in [i64::MIN, -10, -9, -1, 0, 1, 9, 10, i64::MAX] {
        vals.push(Value::Int(n))?;
    }
    for t in ["", "\u{1}", "10", "9", "Z", "a", "ab", "b", "é", "€", "😀"] {
        vals.push(text(alloc, t)?)?;
    }
    Ok(vals)
}

// Arrays and then objects, each below the next.
fn deep_values(alloc: Global) -> Result<Vals, Memory> {
    let mut vals = Vals::new(alloc);
    let arrays: [&[i64]; 6] = [&[], &[-1], &[1], &[1, 1], &[1, 2], &[2]];
    for items in arrays {
        vals.push(Value::Array(numbers(alloc, items)?))?;
    }
    let objects: [&[(&str, i64)]; 9] = [
        &[],
        &[("Z", 9)],
        &[("a", 1)],
        &[("a", 2)],
        &[("ab", 0)],
        &[("a", 0), ("z", 0)],
        &[("a", 1), ("b", 2)],
        &[("b", 0), ("a", 2)],
        &[("a", 0), ("b", 0), ("c", 0)],
    ];
    for entries in objects {
        vals.push(Value::Object(object(alloc, entries)?))?;
    }
    Ok(vals)
}

// The first two places whose values don't compare as the places do, by the function or by `Ord` and `Eq`.
fn first_disorder(values: &[Value]) -> Option<(usize, usize)> {
    for (i, a) in values.iter().enumerate() {
        for (j, b) in values.iter().enumerate() {
            if collate(a, b) != i.cmp(&j) || a.cmp(b) != i.cmp(&j) || (a == b) != (i == j) {
                return Some((i, j));
            }
        }
    }
    None
}

// Each type before the next, and within a type by its own order; inside an array and under a name too.
#[test]
fn the_order_of_values(rt: HostRuntime) -> Result<(), Memory> {
    let alloc = rt.alloc();
    let mut values = plain_values(alloc)?;
    let deep = deep_values(alloc)?;
    let mut arrays = Vals::new(alloc);
    let mut objects = Vals::new(alloc);
    for value in deep.as_slice() {
        values.push(value.copy(alloc)?)?;
    }
    for value in values.as_slice() {
        arrays.push(Value::Array(one(alloc, value.copy(alloc)?)?))?;
        let mut pairs = Pairs::new(alloc);
        pairs.put(Text::of(alloc, "k")?, value.copy(alloc)?)?;
        objects.push(Value::Object(pairs))?;
    }
    assert_eq!(rt; values.len(), 39);
    assert_eq!(rt; first_disorder(values.as_slice()), None);
    assert_eq!(rt; first_disorder(arrays.as_slice()), None);
    assert_eq!(rt; first_disorder(objects.as_slice()), None);
    Ok(())
}

// What is under a name is taken out; nothing where no pair has it.
#[test]
fn a_value_is_taken_out(rt: HostRuntime) -> Result<(), Memory> {
    let alloc = rt.alloc();
    let entries = [("b", 2), ("a", 1), ("c", 3)];
    let taken = object(alloc, &entries)?.take("b");
    assert!(rt; matches!(taken, Some(Value::Int(2))));
    assert!(rt; object(alloc, &entries)?.take("d").is_none());
    Ok(())
}

// Keys place by place, where a place past the keys reads MISSING; then the fewer keys; then the id.
#[test]
fn the_order_of_rows(rt: HostRuntime) -> Result<(), Memory> {
    let alloc = rt.alloc();
    let mut rows = Rows::new(alloc);
    let cases: [(usize, &[i64], &str); 7] = [
        (0, &[], "a"),
        (0, &[], "b"),
        (1, &[], "a"),
        (2, &[], "a"),
        (1, &[0], "b"),
        (0, &[0], "a"),
        (0, &[0, 0], "a"),
    ];
    for (missing, tail, id) in cases {
        let mut keys = Vals::new(alloc);
        for _ in 0..missing {
            keys.push(Value::Missing)?;
        }
        for n in tail {
            keys.push(Value::Int(*n))?;
        }
        let id = Text::of(alloc, id)?;
        rows.push(Row { keys, id })?;
    }
    for (i, a) in rows.as_slice().iter().enumerate() {
        for (j, b) in rows.as_slice().iter().enumerate() {
            assert!(rt; collate_rows(a, b) == i.cmp(&j), "rows {i} and {j}");
        }
    }
    let again = rows.into_vec();
    let rows = Rows::from_vec(again);
    assert_eq!(rt; rows.len(), 7);
    let copied = match rows.get(4) {
        Some(row) => row.copy(alloc)?,
        None => return Err(Memory),
    };
    assert!(rt; matches!(copied.keys.get_or(1, &Value::Null), Value::Int(0)));
    assert!(rt; copied.keys.get(2).is_none());
    assert_eq!(rt; copied.id.copy(alloc)?.as_str(), "b");
    Ok(())
}

// The numbers from 1 to 3 by which bounds are in, and spans with a place past the keys.
#[test]
fn ranges_and_spans_hold(rt: HostRuntime) -> Result<(), Memory> {
    let alloc = rt.alloc();
    let cases: [(u8, [bool; 5]); 4] = [
        (0, [false, false, true, false, false]),
        (1, [false, true, true, false, false]),
        (2, [false, false, true, true, false]),
        (3, [false, true, true, true, false]),
    ];
    for (incl, wants) in cases {
        let range = Range {
            low: Some(Value::Int(1)),
            high: Some(Value::Int(3)),
            incl,
        };
        for (n, want) in wants.iter().enumerate() {
            assert_eq!(rt; range.holds(&Value::Int(n as i64)), *want, "{n} by {incl}");
        }
        assert!(rt; !range.holds(&Value::Null));
        assert!(rt; !range.holds(&Value::Bool(true)));
    }
    let free = Range {
        low: None,
        high: None,
        incl: 0,
    };
    assert!(rt; free.holds(&Value::Missing));
    let row = Row {
        keys: numbers(alloc, &[2])?,
        id: Text::of(alloc, "a")?,
    };
    let mut span = Span::new(alloc);
    assert!(rt; span.holds(&row));
    span.push(free)?;
    span.push(Range {
        low: None,
        high: Some(Value::Missing),
        incl: 2,
    })?;
    assert!(rt; span.holds(&row));
    span.push(Range {
        low: Some(Value::Null),
        high: None,
        incl: 3,
    })?;
    assert!(rt; !span.holds(&row));
    Ok(())
}

// The other public calls, each once.
#[test]
fn objects_texts_and_functions(rt: HostRuntime) -> Result<(), Memory> {
    let alloc = rt.alloc();
    let pairs = object(alloc, &[("b", 2), ("a", 1), ("b", 3)])?.copy(alloc)?;
    assert_eq!(rt; pairs.len(), 2);
    assert!(rt; !pairs.is_empty());
    assert_eq!(rt; pairs.as_slice().len(), 2);
    assert!(rt; matches!(pairs.get("b"), Some(Value::Int(3))));
    assert!(rt; pairs.get("c").is_none());
    let vals = numbers(alloc, &[7])?.copy(alloc)?;
    assert!(rt; matches!(vals.get(0), Some(Value::Int(7))));
    assert!(rt; vals < numbers(alloc, &[7, 0])?);
    assert!(rt; is_valued(&Value::Int(0)) && !is_null(&Value::Missing) && same_word("Ks", "kS"));
    assert!(rt; Fun::by_name("Array_Length") == Some(Fun::ArrayLength));
    assert!(rt; Fun::by_name("COUNT").is_none());
    assert_eq!(rt; Fun::TypeOf.name(), "TYPE");
    assert_eq!(rt; Fun::IfNull.least_arguments(), 2);
    assert!(rt; Fun::Least.most_arguments().is_none());
    Ok(())
}
