ghost use Rattle.std.specs.Prelude.{◌≡◌, ◌≤◌, ◌<◌, IfOk, OnOk};
ghost use Rattle.std.specs.Arc.{arc_value};
ghost use Rattle.gsi_sched.specs.Slots.{first_slot, with_piece, without_piece, after_delivery};
ghost use Rattle.gsi_sched.specs.inner.SlotLists.{given_to_worker, snapshot_taken, IsSnapshotOf, Takes, TakesFrom};

use index_def::IndexDef;
use index_snapshot::{IndexWorker, Snapshot};
use key_eval::Projected;
use n1ql_value::Memory;
use seq_vector::Vector;
use std::alloc::Global;
use std::collections::VecDeque;
use std::marker::Model;
use std::sync::Arc;

/// The worker of an index, and the projected pieces that wait for it, in the order in which they were sent.
#[derive(Drop)]
pub(crate) struct IndexSlot {
    worker: IndexWorker,
    inbox: VecDeque<Projected>,
}

impl Model for IndexSlot {
    ghost use Rattle.std.specs.Coded.{codes};
    ghost use Rattle.index_snapshot.specs.contracts.worker.IndexWorker as index_worker;
    ghost use Rattle.key_eval.specs.contracts.projected.Projected as piece;
    ghost use Rattle.gsi_sched.specs.Slots.{Slot};

    ghost Value = { Slot };

    ghost coded = { Prim.hlevel (codes, (index_worker.the_row).coded, (piece.the_row).coded) };

    ghost view = { λ s. record { worker = s.worker; inbox = s.inbox.items } };
}

impl IndexSlot {
    /// The slot of an index that begins to be built, among `n` vBuckets.
    ///
    /// # Errors
    ///
    /// `Memory` where memory ran out.
    pub(super) fn new(
        alloc: Global,
        i: u32,
        def: Arc<IndexDef>,
        n: u32,
    ) -> Result<IndexSlot, Memory>
        requires { (0 < n) × (n ≤ 1024) }
        ensures { IfOk result (λ slot. slot ≡ first_slot i (arc_value def) n) }
    {
        Ok(IndexSlot {
            worker: IndexWorker::new(alloc, i, def, n)?,
            inbox: VecDeque::new(alloc),
        })
    }

    /// How far the worker has come.
    pub(super) fn vector(&self) -> &Vector
        ensures { result.now ≡ self.now.worker.taken.at }
    {
        self.worker.vector()
    }

    /// One more piece waits.
    pub(super) fn send(&mut self, p: Projected) -> Result<(), Memory>
        ensures { OnOk result (self.new ≡ with_piece p self.old) }
    {
        self.inbox.push_back(p)?;
        Ok(())
    }

    /// The piece at a place waits no longer.
    pub(super) fn lose(&mut self, place: u64)
        ensures { self.new ≡ without_piece place self.old }
    {
        self.inbox.remove(place as usize);
    }

    /// The piece at a place is taken out and given to the worker.
    pub(super) fn deliver(&mut self, place: u64) -> Result<(), Memory>
        requires { TakesFrom place self.old }
        ensures { OnOk result (self.new ≡ after_delivery place self.old) }
    {
        match self.inbox.remove(place as usize) {
            Some(p) => self.give(&p),
            None => Ok(()),
        }
    }

    /// A piece is given to the worker, past the inbox.
    pub(super) fn give(&mut self, p: &Projected) -> Result<(), Memory>
        requires { Takes self.old p.now }
        ensures { OnOk result (self.new ≡ given_to_worker p.now self.old) }
    {
        self.worker.deliver(p)?;
        Ok(())
    }

    /// The rows at the worker's vector.
    pub(super) fn snapshot(&mut self) -> Result<Arc<Snapshot>, Memory>
        ensures made { IfOk result (λ s. IsSnapshotOf self.old (arc_value s)) }
        ensures taken { OnOk result (self.new ≡ snapshot_taken self.old) }
    {
        self.worker.snapshot()
    }
}
