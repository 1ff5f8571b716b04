use super::*;
use n1ql_value::{Memory, Range, Row, Rows, Span, Spans, Text, Vals, Value};
use std::alloc::Global;
use std::test::Fail;

fn may_be_sent<T: Send>() {}

#[test]
fn frozen_rows_may_go_to_another_thread(_rt: HostRuntime) {
    may_be_sent::<Frozen>();
}

fn row(alloc: Global, key: i64, id: &str) -> Result<Row, Memory> {
    let mut keys = Vals::new(alloc);
    keys.push(Value::Int(key))?;
    Ok(Row {
        keys,
        id: Text::of(alloc, id)?,
    })
}

// The index on x where b, a, c, d have x = 1, 1, 2, 3.
fn small_tree(alloc: Global) -> Result<Tree, Memory> {
    let mut tree = Tree::new(alloc);
    for (key, id) in [(1, "b"), (1, "a"), (2, "c"), (3, "d")] {
        tree.insert(row(alloc, key, id)?)?;
    }
    Ok(tree)
}

fn between_one_and_three(alloc: Global, incl: u8) -> Result<Spans, Memory> {
    let mut span = Span::new(alloc);
    span.push(Range {
        low: Some(Value::Int(1)),
        high: Some(Value::Int(3)),
        incl,
    })?;
    let mut spans = Spans::new(alloc);
    spans.push(span)?;
    Ok(spans)
}

fn ids(alloc: Global, rows: &Rows) -> Result<String, Memory> {
    let mut ids = String::new(alloc);
    for row in rows.as_slice() {
        ids.push_str(row.id.as_str())?;
    }
    Ok(ids)
}

#[test]
fn spans_over_a_tree(rt: HostRuntime) -> Result<(), Fail> {
    let alloc = rt.alloc();
    let frozen = small_tree(alloc)?.freeze(alloc)?;
    assert_eq!(rt; frozen.len(), 4);
    for (incl, want) in [(0, "c"), (1, "abc"), (2, "cd"), (3, "abcd")] {
        let rows = frozen.range(alloc, &between_one_and_three(alloc, incl)?)?;
        assert_eq!(rt; ids(alloc, &rows)?.as_str(), want);
    }
    Ok(())
}

#[test]
fn rows_come_and_go(rt: HostRuntime) -> Result<(), Fail> {
    let alloc = rt.alloc();
    let mut tree = small_tree(alloc)?;
    let again = row(alloc, 2, "c")?;
    tree.insert(again.copy(alloc)?)?;
    assert!(rt; tree.remove(&again)?);
    assert!(rt; tree.remove(&again)?);
    assert!(rt; !tree.remove(&again)?);
    assert_eq!(rt; tree.len(), 3);
    Ok(())
}
