//! The mutations that were accepted, numbered vBucket by vBucket, and the documents that they leave.
//!
//! This crate knows no index: it takes changes of documents and gives them back in order.
#![tactic(auto)]

mod by_vbucket;
pub mod laws;
mod mutation;
mod muts;
mod store;

pub use mutation::Mutation;
pub use muts::Muts;
pub use store::VbStore;

#[cfg(test)]
mod tests {
    use super::*;
    use n1ql_value::{Memory, Text, Value};

    fn put(
        rt: &impl AllocGlobal,
        store: &mut VbStore,
        id: &str,
        n: i64,
    ) -> Result<(u32, u64), Memory> {
        let id = Text::of(rt.alloc(), id)?;
        let mutation = store.append(id, Some(Value::Int(n)))?;
        Ok((mutation.vb, mutation.seqno))
    }

    fn may_be_sent<T: Send>() {}

    #[test]
    fn mutations_may_go_to_another_thread(_rt: HostRuntime) {
        may_be_sent::<Mutation>();
        may_be_sent::<VbStore>();
    }

    // The ids d, c, b and a go to the vBuckets 3, 2, 1 and 0 of four.
    #[test]
    fn mutations_are_numbered_by_vbucket(rt: HostRuntime) -> Result<(), Memory> {
        let mut store = VbStore::new(rt.alloc(), 4)?;
        assert_eq!(rt; put(&rt, &mut store, "d", 1)?, (3, 1));
        assert_eq!(rt; put(&rt, &mut store, "c", 2)?, (2, 1));
        assert_eq!(rt; put(&rt, &mut store, "b", 3)?, (1, 1));
        assert_eq!(rt; put(&rt, &mut store, "a", 4)?, (0, 1));
        assert_eq!(rt; put(&rt, &mut store, "d", 5)?, (3, 2));
        store.append(Text::of(rt.alloc(), "a")?, None)?;

        assert_eq!(rt; (store.vbuckets(), store.len()), (4, 6));
        assert_eq!(rt; store.high().first_short(store.high()), None);
        assert_eq!(rt;
            store.current("a").map(|m| (m.seqno, m.body.is_none())),
            Some((2, true))
        );
        assert_eq!(rt; store.current("d").map(|m| m.seqno), Some(2));
        assert!(rt; store.current("e").is_none());
        assert_eq!(rt; store.get(0).map(|m| m.vb), Some(3));
        Ok(())
    }

    #[test]
    fn a_slice_is_between_two_numbers(rt: HostRuntime) -> Result<(), Memory> {
        let mut store = VbStore::new(rt.alloc(), 1)?;
        for n in 0..4 {
            put(&rt, &mut store, "a", n)?;
        }
        if store.high().get(0) >= 3 {
            let mutations = store.slice(0, 1, 3)?;
            assert_eq!(rt; mutations.len(), 2);
            assert_eq!(rt; mutations.get(0).map(|m| m.seqno), Some(2));
            assert_eq!(rt; mutations.get(1).map(|m| m.seqno), Some(3));
        }
        Ok(())
    }
}
