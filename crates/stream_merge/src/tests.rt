ghost use Rattle.std.specs.Prelude.{◌≡◌, ◌<◌, length, IfOk};
ghost use Rattle.seq_vector.specs.Vectors.{IsCovered};
ghost use Rattle.vb_store.specs.Mutations.{high_of};

use crate::Streams;
use n1ql_value::{Memory, Text};
use seq_vector::zero;
use std::alloc::Global;
use vb_store::VbStore;
use vb_store::laws::high_counts;

/// Three mutations in the one vBucket.
fn three(alloc: Global) -> Result<VbStore, Memory>
    ensures { IfOk result (λ store. store.vbuckets ≡ 1) }
{
    let mut store = VbStore::new(alloc, 1)?;
    store.append(Text::of(alloc, "a")?, None)?;
    store.append(Text::of(alloc, "b")?, None)?;
    store.append(Text::of(alloc, "c")?, None)?;
    Ok(store)
}

/// The maintenance stream of the store, which has given nothing, and no others.
fn begun(alloc: Global, store: &VbStore) -> Result<Streams, Memory>
    ensures size { IfOk result (λ s. length s.maint.stream.at ≡ store.now.vbuckets) }
    ensures reached { IfOk result (λ s. IsCovered s.maint.stream.ends (high_of store.now.vbuckets store.now.log)) }
{
    high_counts();
    Streams::new(alloc, store.vbuckets())
}

/// Gives two mutations of the maintenance stream, and tells where it stands then.
fn after_two(streams: &mut Streams, store: &VbStore) -> Result<u64, Memory>
    requires some { 0 < store.now.vbuckets }
    requires size { length streams.old.maint.stream.at ≡ store.now.vbuckets }
    requires reached { IsCovered streams.old.maint.stream.ends (high_of store.now.vbuckets store.now.log) }
    ensures size { length streams.new.maint.stream.at ≡ store.now.vbuckets }
    ensures reached { IsCovered streams.new.maint.stream.ends (high_of store.now.vbuckets store.now.log) }
{
    let maint = streams.maint();
    maint.next(store, 0, 2)?;
    Ok(maint.at().get(0))
}

/// Merges the index 3, which stands at the first number, and tells where the maintenance stream stands then.
fn merged_at_one(alloc: Global, streams: &mut Streams) -> Result<Option<u64>, Memory> {
    let mut first = zero(alloc, 1)?;
    first.set(0, 1);
    if streams.maint().at().len() != first.len() {
        return Ok(None);
    }
    streams.merge(3, &first);
    Ok(Some(streams.maint().at().get(0)))
}

#[test]
fn an_index_that_is_merged_takes_the_others_back(rt: HostRuntime) -> Result<(), Memory> {
    let alloc = rt.alloc();
    let store = three(alloc)?;
    let mut streams = begun(alloc, &store)?;
    assert_eq!(rt; after_two(&mut streams, &store)?, 2);
    streams.begin(3)?;
    assert!(rt; streams.init(3).is_some());
    assert!(rt; streams.init(4).is_none());
    streams.end(4);
    assert_eq!(rt; merged_at_one(alloc, &mut streams)?, Some(1));
    assert!(rt; streams.init(3).is_none());
    Ok(())
}
