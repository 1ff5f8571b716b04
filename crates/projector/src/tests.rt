ghost use Rattle.std.specs.Prelude.{◌<◌, IfOk, [], length};
ghost use Rattle.std.specs.Arc.{arc_value};
ghost use Rattle.std.specs.List.{All};
ghost use Rattle.n1ql_ast.specs.FormedStatements.{IsFormedIn, IsFormedKey};
ghost use Rattle.index_def.specs.Forms.{IsFormed};

use super::*;
use dcp_stream::Piece;
use index_def::IndexDef;
use key_eval::{KeyVersion, Projected};
use n1ql_ast::{Expr, Key, Keys};
use n1ql_value::{ListOf, Memory, Pairs, Text, Value};
use sqlite_items::Boxed;
use std::alloc::Global;
use std::sync::Arc;
use vb_store::{Mutation, Muts};

/// A field of the document.
fn field(alloc: Global, name: &str) -> Result<Expr, Memory>
    ensures { IfOk result (IsFormedIn []) }
{
    let name = Text::of(alloc, name)?;
    Ok(Expr::Field(Boxed::new(alloc, Expr::Doc)?, name))
}

/// The one key that is a field.
fn key(alloc: Global, name: &str) -> Result<Keys, Memory>
    ensures formed { IfOk result (All IsFormedKey) }
    ensures some { IfOk result (λ ks. 0 < length ks) }
{
    let mut keys = Keys::new(alloc);
    keys.push(Key::Plain(field(alloc, name)?))?;
    Ok(keys)
}

/// The index on a field.
fn index_on(alloc: Global, name: &str) -> Result<IndexDef, Memory>
    ensures { IfOk result IsFormed }
{
    let keys = key(alloc, name)?;
    Ok(IndexDef {
        name: Text::of(alloc, "ix")?,
        keys,
        filter: ListOf::new(alloc),
        primary: false,
    })
}

/// The index on a field, with its number.
fn numbered(alloc: Global, number: u32, name: &str) -> Result<NumberedDef, Memory>
    ensures { IfOk result (λ d. IsFormed (arc_value d.def)) }
{
    let def = Arc::new(alloc, index_on(alloc, name)?)?;
    Ok(NumberedDef { number, def })
}

/// An object of one pair.
fn object(alloc: Global, name: &str, n: i64) -> Result<Value, Memory> {
    let mut pairs = Pairs::new(alloc);
    pairs.put(Text::of(alloc, name)?, Value::Int(n))?;
    Ok(Value::Object(pairs))
}

/// Adds a mutation of the vBucket 3.
fn add(
    alloc: Global,
    muts: &mut Muts,
    seqno: u64,
    id: &str,
    body: Option<Value>,
) -> Result<(), Memory> {
    let id = Text::of(alloc, id)?;
    let mutation = Mutation {
        vb: 3,
        seqno,
        id,
        body,
    };
    muts.push(Arc::new(alloc, mutation)?)
}

/// `{"x": 1}` and `{"y": 2}` are put, and the first is deleted.
fn changes(alloc: Global) -> Result<Muts, Memory> {
    let mut muts = Muts::new(alloc);
    let with_x = object(alloc, "x", 1)?;
    let with_y = object(alloc, "y", 2)?;
    add(alloc, &mut muts, 2, "a", Some(with_x))?;
    add(alloc, &mut muts, 3, "b", Some(with_y))?;
    add(alloc, &mut muts, 4, "a", None)?;
    Ok(muts)
}

/// What becomes of the changes in an index on x and in one on y.
fn projected_on_x_and_y(alloc: Global) -> Result<ProjectedList, Memory> {
    let x = numbered(alloc, 7, "x")?;
    let y = numbered(alloc, 5, "y")?;
    let piece = Piece {
        vb: 3,
        start: 1,
        end: 9,
        from: 2,
        to: 4,
        muts: changes(alloc)?,
    };
    project(alloc, &piece, &[x, y])
}

/// The index, the vBucket, the first and the last number, and the end of the marker.
fn heads_of(projected: &Projected) -> (u32, u32, u64, u64, u64) {
    (
        projected.index,
        projected.vb,
        projected.from,
        projected.to,
        projected.end,
    )
}

/// What becomes of a mutation in an index.
fn version_at(projected: &ProjectedList, index: usize, at: usize) -> Option<&KeyVersion> {
    projected.get(index)?.versions.get(at)
}

/// Whether a version is of a mutation, and has so many rows.
fn is_version(version: Option<&KeyVersion>, seqno: u64, id: &str, rows: usize) -> bool {
    match version {
        Some(v) => v.seqno == seqno && v.id.as_str() == id && v.rows.len() == rows,
        None => false,
    }
}

/// The number that a version has as the key of its one row.
fn key_in(version: Option<&KeyVersion>) -> Option<i64> {
    match version?.rows.get(0)?.keys.get(0)? {
        Value::Int(n) => Some(*n),
        _ => None,
    }
}

#[test]
fn each_index_has_a_piece(rt: HostRuntime) -> Result<(), Memory> {
    let projected = projected_on_x_and_y(rt.alloc())?;
    assert_eq!(rt; projected.len(), 2);
    assert_eq!(rt; projected.get(0).map(heads_of), Some((7, 3, 2, 4, 9)));
    assert_eq!(rt; projected.get(1).map(heads_of), Some((5, 3, 2, 4, 9)));
    Ok(())
}

#[test]
fn each_mutation_has_a_version(rt: HostRuntime) -> Result<(), Memory> {
    let projected = projected_on_x_and_y(rt.alloc())?;
    for (index, of_a, of_b) in [(0, 1, 0), (1, 0, 1)] {
        assert!(rt; is_version(version_at(&projected, index, 0), 2, "a", of_a));
        assert!(rt; is_version(version_at(&projected, index, 1), 3, "b", of_b));
        assert!(rt; is_version(version_at(&projected, index, 2), 4, "a", 0));
        assert!(rt; version_at(&projected, index, 3).is_none());
    }
    Ok(())
}

#[test]
fn rows_have_the_key_of_their_index(rt: HostRuntime) -> Result<(), Memory> {
    let projected = projected_on_x_and_y(rt.alloc())?;
    assert_eq!(rt; key_in(version_at(&projected, 0, 0)), Some(1));
    assert_eq!(rt; key_in(version_at(&projected, 1, 1)), Some(2));
    Ok(())
}
