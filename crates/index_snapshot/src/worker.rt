ghost use Rattle.std.specs.Prelude.{◌≡◌, ◌↔◌, ◌+◌, ◌<◌, ◌≤◌, ℕ, List, length, IfOk, OnOk, OnErr, IsTrue};
ghost use Rattle.std.specs.Arc.{arc_value};
ghost use Rattle.seq_vector.specs.Vectors.{entry};
ghost use Rattle.vb_store.specs.declared.mutation.Mutation.{Mutation};
ghost use Rattle.key_eval.specs.Stands.{ProjectedStands};
ghost use Rattle.index_state.specs.RowsById.{all_rows, with_changes};
ghost use Rattle.index_snapshot.specs.Workers.{first_worker, changes_above, outcome_of, offered, delivered};
ghost use Rattle.index_snapshot.specs.Stands.{WorkerStands, SnapshotStands};

use crate::applied::Applied;
use crate::changes::changes_of;
use crate::laws::{a_delivery_keeps, rows_are_the_index};
use crate::snapshot::Snapshot;
use index_def::IndexDef;
use index_state::IndexState;
use key_eval::{KeyVersion, Projected};
use n1ql_value::Memory;
use seq_vector::{Vector, zero};
use stability::laws::three_answers;
use stability::{Offer, Tracker};
use std::alloc::Global;
use std::marker::Model;
use std::sync::Arc;

/// The worker of an index. Contracts see its number and definition, how far it has come, the vector of its last snapshot, and
/// the rows of each id.
#[derive(Drop)]
pub struct IndexWorker {
    alloc: Global,
    index: u32,
    def: Arc<IndexDef>,
    tracker: Tracker,
    state: IndexState,
    /// The vector of the last snapshot.
    shown: Arc<Vector>,
}

impl Model for IndexWorker {
    ghost use Rattle.std.specs.Prelude.{◌≡◌, length};
    ghost use Rattle.std.specs.Arc.{arc_value};
    ghost use Rattle.std.specs.Coded.{codes, coded_list, coded_ℕ};
    ghost use Rattle.std.specs.Cmp.Lexicographic.{slice_cmp};
    ghost use Rattle.std.specs.Ordering.{nat_cmp};
    ghost use Rattle.std.specs.FinMap as map;
    ghost use Rattle.n1ql_value.specs.contracts.row.Row as row;
    ghost use Rattle.index_def.specs.contracts.definition.IndexDef as definition;
    ghost use Rattle.index_snapshot.specs.Workers.{Worker};

    ghost Value = { Worker };

    ghost coded = { Prim.hlevel (codes, (definition.the_row).coded, map.code {R = slice_cmp nat_cmp} (coded_list coded_ℕ) (coded_list (row.the_row).coded)) };

    ghost view = { λ w. record { index = w.index; def = arc_value w.def; taken = w.tracker; shown = arc_value w.shown; held = w.state } };

    ghost invariant = { λ w. length (arc_value w.shown) ≡ length w.tracker.at };
}

impl IndexWorker {
    /// A worker of `n` vBuckets to which nothing was delivered.
    ///
    /// # Errors
    ///
    /// `Memory` where memory ran out.
    pub fn new(alloc: Global, index: u32, def: Arc<IndexDef>, n: u32) -> Result<IndexWorker, Memory>
        requires { (0 < n) × (n ≤ 1024) }
        ensures { IfOk result (λ w. w ≡ first_worker index (arc_value def) n) }
    {
        let tracker = Tracker::new(alloc, n)?;
        let shown = Arc::new(alloc, zero(alloc, n)?)?;
        Ok(IndexWorker {
            alloc,
            index,
            def,
            tracker,
            state: IndexState::new(alloc),
            shown,
        })
    }

    /// How far the worker has come.
    pub fn vector(&self) -> &Vector
        ensures { result.now ≡ self.now.taken.at }
    {
        self.tracker.vector()
    }

    /// Whether the worker stands at another vector than its last snapshot, which is at first zero.
    pub fn ready(&self) -> bool
        ensures { IsTrue result ↔ ¬ (self.now.taken.at ≡ self.now.shown) }
    {
        let at = self.tracker.vector();
        !(at.covers(&self.shown) && self.shown.covers(at))
    }

    /// Applies what becomes of a piece: its numbers that are new, unless it is a repeat or leaves a gap. A repeat and a gap take
    /// no memory.
    ///
    /// # Errors
    ///
    /// `Memory` where memory ran out; the worker is then as before, also in the middle of the piece.
    pub fn deliver(&mut self, p: &Projected) -> Result<Applied, Memory>
        requires vbucket { p.now.vb < length self.old.taken.at }
        requires some { p.now.from ≤ p.now.to }
        requires marker { p.now.to ≤ p.now.end }
        ensures answer { IfOk result (λ a. a ≡ outcome_of (offered p.now self.old)) }
        ensures moved { OnOk result (self.new ≡ delivered p.now self.old) }
        ensures stands { OnOk result ((n : ℕ) (log : List Mutation)
            → WorkerStands n log self.old → ProjectedStands n self.old.def log p.now → WorkerStands n log self.new) }
        ensures memory { OnErr result ((entry self.old.taken.at p.now.vb < p.now.to) × (p.now.from ≤ entry self.old.taken.at p.now.vb + 1)) }
        ensures err { OnErr result (self.new ≡ self.old) }
    {
        a_delivery_keeps();
        three_answers();
        match self.tracker.judge(p.vb, p.from, p.to) {
            Offer::Repeat => Ok(Applied::Repeat),
            Offer::Gap { have, from } => Ok(Applied::Gap { have, from }),
            Offer::Next { after } => {
                self.put_above(after, p.versions.as_slice())?;
                self.tracker.offer(p.vb, p.from, p.to, p.end);
                Ok(Applied::Applied)
            }
        }
    }

    /// Puts the rows of the versions whose numbers are above `after`.
    fn put_above(&mut self, after: u64, versions: &[KeyVersion]) -> Result<(), Memory>
        ensures ok { OnOk result (self.new ≡ record self.old { held = with_changes (changes_above after versions.now) self.old.held }) }
        ensures err { OnErr result (self.new ≡ self.old) }
    {
        let changes = changes_of(self.alloc, after, versions)?;
        self.state.put_all(changes)
    }

    /// The rows at the worker's vector.
    ///
    /// # Errors
    ///
    /// `Memory` where memory ran out; the worker is then as before.
    pub fn snapshot(&mut self) -> Result<Arc<Snapshot>, Memory>
        ensures index { IfOk result (λ s. (arc_value s).index ≡ self.old.index) }
        ensures def { IfOk result (λ s. arc_value ((arc_value s).def) ≡ self.old.def) }
        ensures vector { IfOk result (λ s. arc_value ((arc_value s).vector) ≡ self.old.taken.at) }
        ensures rows { IfOk result (λ s. (arc_value s).rows ≡ all_rows self.old.held) }
        ensures stands { IfOk result (λ s. (n : ℕ) (log : List Mutation) → WorkerStands n log self.old → SnapshotStands n log (arc_value s)) }
        ensures shown { OnOk result (self.new ≡ record self.old { shown = self.old.taken.at }) }
        ensures err { OnErr result (self.new ≡ self.old) }
    {
        rows_are_the_index();
        let vector = Arc::new(self.alloc, self.tracker.vector().copy(self.alloc)?)?;
        let shown = Arc::try_clone(&vector)?;
        let snapshot = Snapshot {
            index: self.index,
            def: Arc::try_clone(&self.def)?,
            vector,
            rows: self.state.freeze(self.alloc)?,
        };
        let snapshot = Arc::new(self.alloc, snapshot)?;
        self.shown = shown;
        Ok(snapshot)
    }
}
