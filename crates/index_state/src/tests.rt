use super::*;
use n1ql_value::{Memory, Row, Rows, Span, Spans, Text, Vals, Value};
use std::alloc::Global;
use std::test::Fail;

fn may_be_sent<T: Send>() {}

#[test]
fn a_state_may_go_to_another_thread(_rt: HostRuntime) {
    may_be_sent::<IndexState>();
}

// A row with one key.
fn row(alloc: Global, key: i64, id: &Text) -> Result<Row, Memory> {
    let mut keys = Vals::new(alloc);
    keys.push(Value::Int(key))?;
    let id = id.copy(alloc)?;
    Ok(Row { keys, id })
}

// A row of the id for each of the keys.
fn rows(alloc: Global, keys: &[i64], id: &Text) -> Result<Rows, Memory> {
    let mut rows = Rows::new(alloc);
    for key in keys {
        rows.push(row(alloc, *key, id)?)?;
    }
    Ok(rows)
}

// The ids of all rows, in order.
fn ids(alloc: Global, state: &IndexState) -> Result<String, Memory> {
    let mut spans = Spans::new(alloc);
    spans.push(Span::new(alloc))?;
    let mut ids = String::new(alloc);
    for row in state.freeze(alloc)?.range(alloc, &spans)?.as_slice() {
        ids.push_str(row.id.as_str())?;
    }
    Ok(ids)
}

#[test]
fn one_document_at_a_time(rt: HostRuntime) -> Result<(), Fail> {
    let alloc = rt.alloc();
    let (a, b) = (Text::of(alloc, "a")?, Text::of(alloc, "b")?);
    let mut state = IndexState::new(alloc);
    state.put(&a, rows(alloc, &[5], &a)?)?;
    state.put(&b, rows(alloc, &[6], &b)?)?;
    assert_eq!(rt; ids(alloc, &state)?.as_str(), "ab");
    state.put(&a, rows(alloc, &[7], &a)?)?;
    assert_eq!(rt; ids(alloc, &state)?.as_str(), "ba");
    state.drop_id(&b)?;
    assert_eq!(rt; ids(alloc, &state)?.as_str(), "a");
    Ok(())
}

// An array key gives several rows, equal ones among them.
#[test]
fn several_rows_of_one_document(rt: HostRuntime) -> Result<(), Fail> {
    let alloc = rt.alloc();
    let (a, b) = (Text::of(alloc, "a")?, Text::of(alloc, "b")?);
    let mut state = IndexState::new(alloc);
    state.put(&a, rows(alloc, &[1, 3, 3], &a)?)?;
    state.put(&b, rows(alloc, &[2], &b)?)?;
    assert_eq!(rt; ids(alloc, &state)?.as_str(), "abaa");
    state.put(&a, rows(alloc, &[1, 4], &a)?)?;
    assert_eq!(rt; ids(alloc, &state)?.as_str(), "aba");
    state.put(&a, Rows::new(alloc))?;
    assert_eq!(rt; state.len(), 1);
    Ok(())
}

// What several ids hold from now on.
fn changes(alloc: Global, all: &[(&str, &[i64])]) -> Result<Vec<Change>, Memory> {
    let mut changes = Vec::new(alloc);
    for (id, keys) in all {
        let id = Text::of(alloc, id)?;
        let rows = rows(alloc, keys, &id)?;
        changes.push(Change { id, rows })?;
    }
    Ok(changes)
}

// Of several changes of one id the last counts, and one without rows takes the id out.
#[test]
fn several_documents_at_once(rt: HostRuntime) -> Result<(), Fail> {
    let alloc = rt.alloc();
    let mut state = IndexState::new(alloc);
    state.put_all(changes(alloc, &[("a", &[1, 5]), ("b", &[2]), ("c", &[3])])?)?;
    assert_eq!(rt; ids(alloc, &state)?.as_str(), "abca");
    state.put_all(changes(
        alloc,
        &[
            ("a", &[]),
            ("d", &[0]),
            ("a", &[4]),
            ("b", &[]),
            ("d", &[9]),
        ],
    )?)?;
    assert_eq!(rt; ids(alloc, &state)?.as_str(), "cad");
    Ok(())
}
