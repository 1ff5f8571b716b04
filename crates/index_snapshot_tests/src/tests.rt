use index_def::IndexDef;
use index_snapshot::{Applied, IndexWorker, Snapshot};
use key_eval::{KeyVersion, KeyVersions, Projected};
use n1ql_ast::Keys;
use n1ql_value::{ListOf, Memory, Row, Rows, Span, Spans, Text, Vals, Value};
use seq_vector::Vector;
use std::alloc::Global;
use std::sync::Arc;
use std::test::Fail;

fn may_be_sent<T: Send>() {}

#[test]
fn workers_and_snapshots_may_go_to_another_thread(_rt: HostRuntime) {
    may_be_sent::<IndexDef>();
    may_be_sent::<Snapshot>();
    may_be_sent::<IndexWorker>();
}

/// A number of a mutation, its id, and the keys of the rows that the id has from then on.
type Version<'a> = (u64, &'a str, &'a [i64]);

/// A row with one key.
fn row(alloc: Global, key: i64, id: &str) -> Result<Row, Memory> {
    let mut keys = Vals::new(alloc);
    keys.push(Value::Int(key))?;
    let id = Text::of(alloc, id)?;
    Ok(Row { keys, id })
}

fn version(alloc: Global, version: &Version<'_>) -> Result<KeyVersion, Memory> {
    let (seqno, id, keys) = version;
    let mut rows = Rows::new(alloc);
    for key in *keys {
        rows.push(row(alloc, *key, id)?)?;
    }
    let id = Text::of(alloc, id)?;
    Ok(KeyVersion {
        seqno: *seqno,
        id,
        rows,
    })
}

/// A piece of a vBucket, of a marker that ends at 9.
fn piece(alloc: Global, vb: u32, versions: &[Version<'_>]) -> Result<Projected, Memory> {
    let from = versions.first().map_or(1, |v| v.0);
    let to = versions.last().map_or(1, |v| v.0);
    let mut all = KeyVersions::new(alloc);
    for one in versions {
        all.push(version(alloc, one)?)?;
    }
    Ok(Projected {
        index: 7,
        vb,
        from,
        to,
        end: 9,
        versions: all,
    })
}

/// The worker of an index, with two vBuckets.
fn worker(alloc: Global) -> Result<IndexWorker, Memory> {
    let def = IndexDef {
        name: Text::of(alloc, "ix")?,
        keys: Keys::new(alloc),
        filter: ListOf::new(alloc),
        primary: false,
    };
    IndexWorker::new(alloc, 7, Arc::new(alloc, def)?, 2)
}

/// Delivers a piece. `None` where it isn't one.
fn deliver(
    alloc: Global,
    worker: &mut IndexWorker,
    vb: u32,
    versions: &[Version<'_>],
) -> Result<Option<Applied>, Memory> {
    let p = piece(alloc, vb, versions)?;
    if p.vb >= worker.vector().len() || p.from > p.to || p.to > p.end {
        return Ok(None);
    }
    let applied = worker.deliver(&p)?;
    Ok(Some(applied))
}

/// The ids of the rows of a snapshot, in the order of their keys.
fn ids(alloc: Global, snapshot: &Snapshot) -> Result<String, Memory> {
    let mut spans = Spans::new(alloc);
    spans.push(Span::new(alloc))?;
    let mut ids = String::new(alloc);
    for row in snapshot.scan(alloc, &spans)?.as_slice() {
        ids.push_str(row.id.as_str())?;
    }
    Ok(ids)
}

/// The numbers of two vBuckets.
fn numbers_of(vector: &Vector) -> Option<(u64, u64)> {
    if vector.len() == 2 {
        Some((vector.get(0), vector.get(1)))
    } else {
        None
    }
}

// A deletion stands inside the last piece.
#[test]
fn repeats_and_gaps_change_nothing(rt: HostRuntime) -> Result<(), Fail> {
    let alloc = rt.alloc();
    let mut worker = worker(alloc)?;
    let first = deliver(alloc, &mut worker, 0, &[(1, "a", &[1]), (2, "b", &[2, 5])])?;
    assert_eq!(rt; first, Some(Applied::Applied));
    let repeat = deliver(alloc, &mut worker, 0, &[(2, "b", &[9])])?;
    assert_eq!(rt; repeat, Some(Applied::Repeat));
    let gap = deliver(alloc, &mut worker, 0, &[(4, "c", &[0])])?;
    assert_eq!(rt; gap, Some(Applied::Gap { have: 2, from: 4 }));
    assert_eq!(rt; ids(alloc, &*worker.snapshot()?)?.as_str(), "abb");
    let last = deliver(alloc, &mut worker, 0, &[(3, "a", &[]), (4, "c", &[3])])?;
    assert_eq!(rt; last, Some(Applied::Applied));
    assert_eq!(rt; ids(alloc, &*worker.snapshot()?)?.as_str(), "bcb");
    Ok(())
}

// The first versions of the second piece are numbers that were applied; they tell other rows, so that it shows.
#[test]
fn old_numbers_of_a_piece_are_not_applied_again(rt: HostRuntime) -> Result<(), Fail> {
    let alloc = rt.alloc();
    let mut worker = worker(alloc)?;
    deliver(alloc, &mut worker, 1, &[(1, "a", &[1]), (2, "b", &[2])])?;
    deliver(
        alloc,
        &mut worker,
        1,
        &[(1, "a", &[8]), (2, "b", &[]), (3, "c", &[0])],
    )?;
    let snapshot = worker.snapshot()?;
    assert_eq!(rt; ids(alloc, &snapshot)?.as_str(), "cab");
    assert_eq!(rt; snapshot.index, 7);
    Ok(())
}

#[test]
fn a_snapshot_stays_as_it_was(rt: HostRuntime) -> Result<(), Fail> {
    let alloc = rt.alloc();
    let mut worker = worker(alloc)?;
    assert!(rt; !worker.ready());
    deliver(alloc, &mut worker, 1, &[(1, "a", &[5])])?;
    assert!(rt; worker.ready());
    let before = worker.snapshot()?;
    assert!(rt; !worker.ready());
    deliver(alloc, &mut worker, 0, &[(1, "b", &[4])])?;
    let after = worker.snapshot()?;
    assert_eq!(rt; ids(alloc, &before)?.as_str(), "a");
    assert_eq!(rt; ids(alloc, &after)?.as_str(), "ba");
    assert_eq!(rt; numbers_of(&before.vector), Some((0, 1)));
    assert_eq!(rt; numbers_of(&after.vector), Some((1, 1)));
    Ok(())
}
