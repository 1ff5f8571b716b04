ghost use Rattle.std.specs.Prelude.{◌≡◌, ℕ, ◌+◌, ◌<◌, ◌≤◌, ◌++◌, ◌∷◌, [], length, map, slice_get, IfOk, OnOk, OnErr};
ghost use Rattle.std.specs.Option.{option_map, option_copied};
ghost use Rattle.std.specs.Arc.{arc_value};
ghost use Rattle.seq_vector.specs.Vectors.{entry};
ghost use Rattle.vb_store.specs.Mutations.{IsNumbered, next_mutation, of_vbucket, high_of, slice_of, current_of};

use crate::by_vbucket::{no_lists, push_reserved, reserve_in};
use crate::mutation::Mutation;
use crate::muts::Muts;
use n1ql_value::{Memory, Text, Value};
use seq_vector::{Vector, vb_of, zero};
use std::alloc::Global;
use std::collections::BTreeMap;
use std::marker::Model;
use std::sync::Arc;

/// The mutations that were accepted. Contracts see how many vBuckets there are, and the list in order of acceptance.
#[derive(Drop)]
pub struct VbStore {
    alloc: Global,
    log: Vec<Arc<Mutation>>,
    by_vbucket: Vec<Vec<Arc<Mutation>>>,
    high: Vector,
    last: BTreeMap<String, Arc<Mutation>>,
}

impl Model for VbStore {
    ghost use Rattle.std.specs.Prelude.{map, length};
    ghost use Rattle.std.specs.Option.{option_map};
    ghost use Rattle.std.specs.Arc.{arc_value};
    ghost use Rattle.std.specs.BTreeMap.{get_by_text};
    ghost use Rattle.vb_store.specs.Accepted.{Accepted};
    ghost use Rattle.vb_store.specs.inner.Held.{IsKept, lists_of};

    ghost Value = { Accepted };

    ghost use Rattle.n1ql_value.specs.contracts.datum.Datum as datum;
    ghost use Rattle.std.specs.Coded.{codes};

    ghost coded = { Prim.hlevel (codes, datum.the_row.coded) };

    ghost view = { λ s. record { vbuckets = length s.high; log = map arc_value s.log.items } };

    ghost invariant = { λ s. IsKept (length s.high) (map arc_value s.log.items) (lists_of s.by_vbucket.items) s.high (λ id. option_map arc_value (get_by_text s.last id)) };
}

impl VbStore {
    /// A store of `n` vBuckets with no mutation.
    ///
    /// # Errors
    ///
    /// `Memory` where memory ran out.
    pub fn new(alloc: Global, n: u32) -> Result<VbStore, Memory>
        requires { (0 < n) × (n ≤ 1024) }
        ensures { IfOk result (λ s. (s.vbuckets ≡ n) × (s.log ≡ [])) }
    {
        let high = zero(alloc, n)?;
        let by_vbucket = no_lists(alloc, n as usize)?;
        Ok(VbStore {
            alloc,
            log: Vec::new(alloc),
            by_vbucket,
            high,
            last: BTreeMap::new(alloc),
        })
    }

    /// How many vBuckets there are.
    pub fn vbuckets(&self) -> u32
        ensures count { result ≡ self.now.vbuckets }
        ensures bounds { (0 < result) × (result ≤ 1024) }
        ensures numbered { IsNumbered self.now.vbuckets self.now.log }
    {
        self.high.len()
    }

    /// How many mutations there are.
    pub fn len(&self) -> usize
        ensures { result ≡ length self.now.log }
    {
        self.log.len()
    }

    /// The mutation at an index from 0 in order of acceptance, `None` past the last.
    pub fn get(&self, at: usize) -> Option<&Arc<Mutation>>
        ensures { option_map arc_value (option_copied result) ≡ slice_get self.now.log at }
    {
        self.log.get(at)
    }

    /// The newest number of each vBucket.
    pub fn high(&self) -> &Vector
        ensures newest { result.now ≡ high_of self.now.vbuckets self.now.log }
        ensures numbered { IsNumbered self.now.vbuckets self.now.log }
    {
        &self.high
    }

    /// The last mutation of an id, `None` where it has none.
    pub fn current(&self, id: &str) -> Option<&Arc<Mutation>>
        ensures { option_map arc_value (option_copied result) ≡ current_of self.now.log id.now }
    {
        self.last.get(id)
    }

    /// The mutations of a vBucket whose numbers are above `after` and at most `upto`.
    ///
    /// # Errors
    ///
    /// `Memory` where memory ran out.
    pub fn slice(&self, vb: u32, after: u64, upto: u64) -> Result<Muts, Memory>
        requires vbucket { vb < self.now.vbuckets }
        requires order { after ≤ upto }
        requires reached { upto ≤ entry (high_of self.now.vbuckets self.now.log) vb }
        ensures { IfOk result (λ ms. ms ≡ slice_of self.now.log vb after upto) }
    {
        let mutations = self.of_vbucket(vb);
        Muts::of(self.alloc, &mutations[after as usize..upto as usize])
    }

    /// Accepts a change of an id, with the next number of its vBucket.
    ///
    /// # Errors
    ///
    /// `Memory` where memory ran out; the store is then as before.
    pub fn append(&mut self, id: Text, body: Option<Value>) -> Result<Arc<Mutation>, Memory>
        ensures next { IfOk result (λ m. arc_value m ≡ next_mutation self.old.vbuckets self.old.log id body) }
        ensures within { IfOk result (λ m. (arc_value m).vb < self.old.vbuckets) }
        ensures added { OnOk result (self.new.log ≡ self.old.log ++ next_mutation self.old.vbuckets self.old.log id body ∷ []) }
        ensures same { self.new.vbuckets ≡ self.old.vbuckets }
        ensures numbered { IsNumbered self.new.vbuckets self.new.log }
        ensures err { OnErr result (self.new ≡ self.old) }
    {
        let next = self.next_mutation(id, body);
        let (vb, seqno) = (next.vb, next.seqno);
        let key = String::from_str(self.alloc, next.id.as_str())?;
        let mutation = Arc::new(self.alloc, next)?;
        let in_log = Arc::try_clone(&mutation)?;
        let in_vbucket = Arc::try_clone(&mutation)?;
        let as_last = Arc::try_clone(&mutation)?;
        self.log.reserve(1)?;
        reserve_in(&mut self.by_vbucket, vb as usize)?;
        self.last.insert(key, as_last)?;
        // From here on nothing fails.
        let _ = self.log.push(in_log);
        push_reserved(&mut self.by_vbucket, vb as usize, in_vbucket);
        self.high.set(vb, seqno);
        Ok(mutation)
    }

    fn of_vbucket(&self, vb: u32) -> &[Arc<Mutation>]
        requires { vb < self.now.vbuckets }
        ensures { map arc_value result.now ≡ of_vbucket vb self.now.log }
    {
        self.by_vbucket[vb as usize].as_slice()
    }

    // A vector holds fewer than 2^63 mutations, so the next number fits.
    fn next_mutation(&self, id: Text, body: Option<Value>) -> Mutation
        ensures { result ≡ next_mutation self.now.vbuckets self.now.log id body }
    {
        let vb = vb_of(id.as_str(), self.vbuckets());
        let seqno = self.by_vbucket[vb as usize].len() as u64 + 1;
        Mutation {
            vb,
            seqno,
            id,
            body,
        }
    }
}
