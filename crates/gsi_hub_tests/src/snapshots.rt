//! Snapshots of workers that are made by hand.
ghost use Rattle.std.specs.Prelude.{◌≡◌, ℕ, List, IfOk, IfSome, OnOk, Some};
ghost use Rattle.std.specs.Option.{option_copied};
ghost use Rattle.std.specs.Arc.{arc_value};
ghost use Rattle.dcp_stream.specs.Pieces.{PieceStands};
ghost use Rattle.index_def.specs.Forms.{IsFormed};
ghost use Rattle.index_def.specs.LiveIndexes.{numbered};
ghost use Rattle.index_snapshot.specs.Stands.{WorkerStands, SnapshotStands};
ghost use Rattle.key_eval.specs.Stands.{ProjectedStands};
ghost use Rattle.vb_store.specs.declared.mutation.Mutation.{Mutation};
ghost use Rattle.gsi_hub.specs.Past.{state_of};
ghost use Rattle.gsi_hub_tests.specs.Pairs.{IsPair, IsTaken};

use dcp_stream::Piece;
use gsi_hub::{Hub, Pieces};
use index_ddl::LiveIndex;
use index_def::IndexDef;
use index_snapshot::{IndexWorker, Snapshot};
use key_eval::Projected;
use n1ql_value::{Memory, State};
use projector::{NumberedDef, project};
use scan_history::laws::a_legal_history_is_consistent;
use seq_vector::zero;
use std::alloc::Global;
use std::sync::Arc;
use vb_store::laws::start;

/// Delivers a projected piece.
fn take(worker: &mut IndexWorker, p: &Projected) -> Result<(), Memory>
    ensures def { OnOk result (worker.new.def ≡ worker.old.def) }
    ensures index { OnOk result (worker.new.index ≡ worker.old.index) }
    ensures stands { OnOk result ((n : ℕ) (log : List Mutation)
        → WorkerStands n log worker.old → ProjectedStands n worker.old.def log p.now → WorkerStands n log worker.new) }
{
    if p.vb >= worker.vector().len() || p.from > p.to || p.to > p.end {
        return Err(Memory);
    }
    worker.deliver(p)?;
    Ok(())
}

/// Delivers a piece.
fn deliver(
    alloc: Global,
    worker: &mut IndexWorker,
    def: &Arc<IndexDef>,
    piece: &Piece,
) -> Result<(), Memory>
    requires formed { IsFormed (arc_value def.now) }
    requires same { worker.old.def ≡ arc_value def.now }
    ensures def { OnOk result (worker.new.def ≡ worker.old.def) }
    ensures index { OnOk result (worker.new.index ≡ worker.old.index) }
    ensures stands { OnOk result ((n : ℕ) (log : List Mutation)
        → WorkerStands n log worker.old → PieceStands n log piece.now → WorkerStands n log worker.new) }
{
    let defs = [NumberedDef {
        number: 0,
        def: Arc::try_clone(def)?,
    }];
    let all = project(alloc, piece, &defs)?;
    match all.get(0) {
        Some(p) => take(worker, p),
        None => Err(Memory),
    }
}

/// A worker to which nothing was delivered.
fn new_worker(alloc: Global, hub: &Hub, i: u32, def: &Arc<IndexDef>) -> Result<IndexWorker, Memory>
    requires pair { IsPair hub.now.script }
    ensures stands { IfOk result (λ w. WorkerStands hub.now.script.vbuckets (state_of hub.now).log w) }
    ensures index { IfOk result (λ w. w.index ≡ i) }
    ensures def { IfOk result (λ w. w.def ≡ arc_value def.now) }
{
    start();
    a_legal_history_is_consistent();
    let _store = hub.store();
    let def = Arc::try_clone(def)?;
    let worker = IndexWorker::new(alloc, i, def, 2)?;
    Ok(worker)
}

/// Delivers the piece at a place, where there is one.
fn deliver_at(
    alloc: Global,
    hub: &Hub,
    worker: &mut IndexWorker,
    def: &Arc<IndexDef>,
    at: usize,
) -> Result<(), Memory>
    requires pair { IsPair hub.now.script }
    requires formed { IsFormed (arc_value def.now) }
    requires same { worker.old.def ≡ arc_value def.now }
    requires stands { WorkerStands hub.now.script.vbuckets (state_of hub.now).log worker.old }
    ensures def { OnOk result (worker.new.def ≡ worker.old.def) }
    ensures index { OnOk result (worker.new.index ≡ worker.old.index) }
    ensures stands { OnOk result (WorkerStands hub.now.script.vbuckets (state_of hub.now).log worker.new) }
{
    let none = zero(alloc, 2)?;
    let pieces = hub.take_pieces(alloc, &none)?;
    match pieces.get(at) {
        Some(piece) => deliver(alloc, worker, def, piece),
        None => Err(Memory),
    }
}

/// The snapshot of a worker to which the first pieces were delivered, up to two.
fn snapshot_with(
    alloc: Global,
    hub: &Hub,
    i: u32,
    def: &Arc<IndexDef>,
    count: u32,
) -> Result<Arc<Snapshot>, Memory>
    requires pair { IsPair hub.now.script }
    requires formed { IsFormed (arc_value def.now) }
    ensures stands { IfOk result (λ s. SnapshotStands hub.now.script.vbuckets (state_of hub.now).log (arc_value s)) }
    ensures index { IfOk result (λ s. (arc_value s).index ≡ i) }
    ensures def { IfOk result (λ s. arc_value (arc_value s).def ≡ arc_value def.now) }
{
    let mut worker = new_worker(alloc, hub, i, def)?;
    if count > 0 {
        deliver_at(alloc, hub, &mut worker, def, 0)?;
    }
    if count > 1 {
        deliver_at(alloc, hub, &mut worker, def, 1)?;
    }
    let snapshot = worker.snapshot()?;
    Ok(snapshot)
}

/// The same for a live index that isn't deferred.
fn snapshot_on(
    alloc: Global,
    hub: &Hub,
    i: u32,
    index: &LiveIndex,
    count: u32,
) -> Result<Option<Arc<Snapshot>>, Memory>
    requires pair { IsPair hub.now.script }
    requires formed { IsFormed index.now.def }
    requires live { numbered i (state_of hub.now).live ≡ Some index.now }
    ensures { IfOk result (λ found. IfSome found (λ s. IsTaken hub.now (arc_value s))) }
{
    match index.state() {
        State::Deferred => Ok(None),
        _ => {
            let snapshot = snapshot_with(alloc, hub, i, index.def(), count)?;
            Ok(Some(snapshot))
        }
    }
}

/// A snapshot of the index of a number. `None` where it isn't live, or is deferred.
pub fn snapshot_of(
    alloc: Global,
    hub: &Hub,
    i: u32,
    count: u32,
) -> Result<Option<Arc<Snapshot>>, Memory>
    requires pair { IsPair hub.now.script }
    ensures { IfOk result (λ found. IfSome found (λ s. IsTaken hub.now (arc_value s))) }
{
    match hub.catalog().numbered(i) {
        Some(index) => snapshot_on(alloc, hub, i, index, count),
        None => Ok(None),
    }
}
