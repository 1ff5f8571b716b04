//! A list of mutations for each vBucket. Room in one is reserved before a mutation goes into it.
ghost use Rattle.std.specs.Prelude.{◌≡◌, ◌+◌, ◌<◌, ◌++◌, ◌∷◌, [], replicate, vec_len, slice_set, slice_index_or, IfOk, OnOk};
ghost use Rattle.std.specs.Arc.{arc_value};
ghost use Rattle.vb_store.specs.inner.Held.{lists_of, HasRoom};

use crate::mutation::Mutation;
use n1ql_value::Memory;
use std::alloc::Global;
use std::sync::Arc;

pub(crate) type ByVbucket = Vec<Vec<Arc<Mutation>>>;

/// `n` lists with nothing in them.
pub(crate) fn no_lists(alloc: Global, n: usize) -> Result<ByVbucket, Memory>
    ensures { IfOk result (λ ls. lists_of ls.items ≡ replicate n []) }
{
    let mut lists = Vec::with_capacity(alloc, n)?;
    for _ in 0..n {
        lists.push(Vec::new(alloc))?;
    }
    Ok(lists)
}

/// Makes room for one more mutation of the vBucket.
pub(crate) fn reserve_in(lists: &mut ByVbucket, vb: usize) -> Result<(), Memory>
    requires { vb < vec_len lists.old }
    ensures same { lists_of lists.new.items ≡ lists_of lists.old.items }
    ensures room { OnOk result (HasRoom lists.new.items vb) }
{
    lists[vb].reserve(1)?;
    Ok(())
}

/// Adds a mutation to the list of its vBucket, which has room.
pub(crate) fn push_reserved(lists: &mut ByVbucket, vb: usize, mutation: Arc<Mutation>)
    requires within { vb < vec_len lists.old }
    requires room { HasRoom lists.old.items vb }
    ensures { lists_of lists.new.items ≡ slice_set (lists_of lists.old.items) vb (slice_index_or (lists_of lists.old.items) vb [] ++ arc_value mutation ∷ []) }
{
    let _ = lists[vb].push(mutation);
}
