ghost use Rattle.std.specs.Prelude.{◌≡◌, ◌<◌, length, IfOk};
ghost use Rattle.seq_vector.specs.Vectors.{IsCovered};
ghost use Rattle.vb_store.specs.Mutations.{high_of};

use crate::{Piece, Position};
use n1ql_value::{Memory, Text, Value};
use seq_vector::zero;
use std::alloc::Global;
use vb_store::VbStore;
use vb_store::laws::high_counts;

/// Four vBuckets, of which the last has three mutations of `d` and the first one of `a`.
fn three_of_d(alloc: Global) -> Result<VbStore, Memory>
    ensures { IfOk result (λ store. store.vbuckets ≡ 4) }
{
    let mut store = VbStore::new(alloc, 4)?;
    for id in ["d", "a", "d", "d"] {
        store.append(Text::of(alloc, id)?, None)?;
    }
    Ok(store)
}

/// A stream of the store that stands at the beginning.
fn begun(alloc: Global, store: &VbStore) -> Result<Position, Memory>
    ensures size { IfOk result (λ p. length p.stream.at ≡ store.now.vbuckets) }
    ensures reached { IfOk result (λ p. IsCovered p.stream.ends (high_of store.now.vbuckets store.now.log)) }
{
    high_counts();
    Position::new(alloc, store.vbuckets())
}

/// One more mutation of `d`. The stream stays within what was accepted.
fn put_d(alloc: Global, store: &mut VbStore, position: &Position) -> Result<(), Memory>
    requires { IsCovered position.now.stream.ends (high_of store.old.vbuckets store.old.log) }
    ensures same { store.new.vbuckets ≡ store.old.vbuckets }
    ensures reached { IsCovered position.now.stream.ends (high_of store.new.vbuckets store.new.log) }
{
    high_counts();
    store.append(Text::of(alloc, "d")?, Some(Value::Null))?;
    Ok(())
}

/// The next piece of the last vBucket, of at most two mutations.
fn next_of_d(position: &mut Position, store: &VbStore) -> Result<Option<Piece>, Memory>
    requires vbucket { 3 < store.now.vbuckets }
    requires size { length position.old.stream.at ≡ store.now.vbuckets }
    requires reached { IsCovered position.old.stream.ends (high_of store.now.vbuckets store.now.log) }
    ensures size { length position.new.stream.at ≡ store.now.vbuckets }
    ensures reached { IsCovered position.new.stream.ends (high_of store.now.vbuckets store.now.log) }
{
    position.next(store, 3, 2)
}

/// The marker of a piece, and its first and last number.
fn bounds_of(piece: &Piece) -> (u64, u64, u64, u64) {
    (piece.start, piece.end, piece.from, piece.to)
}

/// The same of the next piece of the last vBucket.
fn next_bounds(
    position: &mut Position,
    store: &VbStore,
) -> Result<Option<(u64, u64, u64, u64)>, Memory>
    requires vbucket { 3 < store.now.vbuckets }
    requires size { length position.old.stream.at ≡ store.now.vbuckets }
    requires reached { IsCovered position.old.stream.ends (high_of store.now.vbuckets store.now.log) }
    ensures size { length position.new.stream.at ≡ store.now.vbuckets }
    ensures reached { IsCovered position.new.stream.ends (high_of store.now.vbuckets store.now.log) }
{
    let piece = next_of_d(position, store)?;
    Ok(piece.as_ref().map(bounds_of))
}

/// Goes back to the first mutation of the last vBucket. In the others the vector is ahead of all that was accepted.
fn back_to_first_d(alloc: Global, position: &mut Position, store: &VbStore) -> Result<(), Memory>
    requires vbuckets { store.now.vbuckets ≡ 4 }
    requires size { length position.old.stream.at ≡ store.now.vbuckets }
    requires reached { IsCovered position.old.stream.ends (high_of store.now.vbuckets store.now.log) }
    ensures size { length position.new.stream.at ≡ store.now.vbuckets }
    ensures reached { IsCovered position.new.stream.ends (high_of store.now.vbuckets store.now.log) }
{
    let mut first = zero(alloc, 4)?;
    first.set(0, 9);
    first.set(3, 1);
    position.rewind(&first);
    Ok(())
}

/// The vBucket and the number of a mutation of a piece.
fn numbers_at(piece: &Option<Piece>, at: usize) -> Option<(u32, u64)> {
    let mutation = piece.as_ref()?.muts.get(at)?;
    Some((mutation.vb, mutation.seqno))
}

#[test]
fn a_piece_holds_its_mutations(rt: HostRuntime) -> Result<(), Memory> {
    let store = three_of_d(rt.alloc())?;
    let mut position = begun(rt.alloc(), &store)?;
    let piece = next_of_d(&mut position, &store)?;
    assert_eq!(rt; numbers_at(&piece, 0), Some((3, 1)));
    assert_eq!(rt; numbers_at(&piece, 1), Some((3, 2)));
    assert_eq!(rt; numbers_at(&piece, 2), None);
    Ok(())
}

#[test]
fn a_marker_stays_and_another_follows(rt: HostRuntime) -> Result<(), Memory> {
    let alloc = rt.alloc();
    let mut store = three_of_d(alloc)?;
    let mut position = begun(alloc, &store)?;
    assert_eq!(rt; next_bounds(&mut position, &store)?, Some((1, 3, 1, 2)));
    put_d(alloc, &mut store, &position)?;
    assert_eq!(rt; next_bounds(&mut position, &store)?, Some((1, 3, 3, 3)));
    assert_eq!(rt; next_bounds(&mut position, &store)?, Some((4, 4, 4, 4)));
    assert_eq!(rt; next_bounds(&mut position, &store)?, None);
    Ok(())
}

#[test]
fn a_stream_goes_back(rt: HostRuntime) -> Result<(), Memory> {
    let alloc = rt.alloc();
    let store = three_of_d(alloc)?;
    let mut position = begun(alloc, &store)?;
    assert_eq!(rt; next_bounds(&mut position, &store)?, Some((1, 3, 1, 2)));
    assert_eq!(rt; next_bounds(&mut position, &store)?, Some((1, 3, 3, 3)));
    back_to_first_d(alloc, &mut position, &store)?;
    assert_eq!(rt; next_bounds(&mut position, &store)?, Some((2, 3, 2, 3)));
    assert_eq!(rt; next_bounds(&mut position, &store)?, None);
    Ok(())
}
