ghost use Rattle.std.specs.Prelude.{◌≡◌, ◌≢◌, ◌<◌, length, None, IfSome};
ghost use Rattle.std.specs.Arc.{arc_value};
ghost use Rattle.n1ql_value.specs.declared.state.State.TheVariants.{Deferred};
ghost use Rattle.index_def.specs.LiveIndexes.{numbered};
ghost use Rattle.index_snapshot.specs.Stands.{SnapshotStands};
ghost use Rattle.scan_history.specs.Events.{publish};
ghost use Rattle.scan_history.specs.Legal.{IfLive, GoesOn};
ghost use Rattle.gsi_hub.specs.Past.{state_of, high_in, Adds};
ghost use Rattle.gsi_hub.specs.Outcomes.{IsPublished};
ghost use Rattle.gsi_hub.specs.inner.Steps.{IsProgress, IsProgressOf};

use crate::hub::Hub;
use crate::known::known;
use crate::newest::put_newest;
use crate::published::Published;
use index_snapshot::Snapshot;
use scan_history::{Event, Happened};
use seq_vector::Vector;
use seq_vector::laws::cover_is_order;
use std::sync::Arc;

impl Hub {
    /// Publishes a snapshot, which stands for the mutations and has the definition of its index; `at` is its vector. It is stale where the newest
    /// one isn't covered by it, or is at the same vector. It takes no memory.
    pub fn publish(&mut self, s: Arc<Snapshot>, at: Arc<Vector>) -> Published
        requires spare { 0 < self.old.spare }
        requires stands { SnapshotStands self.old.script.vbuckets (state_of self.old).log (arc_value s) }
        requires served { IfSome (numbered (arc_value s).index (state_of self.old).live) (λ index. (index.def ≡ arc_value (arc_value s).def) × (index.state ≢ Deferred)) }
        requires vector { arc_value at ≡ arc_value (arc_value s).vector }
        ensures { IsPublished (arc_value s).index (arc_value at) self.old result self.new }
    {
        known();
        match self.progress(&s) {
            Published::Published => {
                self.put(s, at);
                Published::Published
            }
            other => other,
        }
    }

    /// What becomes of a snapshot.
    fn progress(&self, s: &Snapshot) -> Published
        requires { length (arc_value s.now.vector) ≡ self.now.script.vbuckets }
        ensures { IsProgressOf self.now s.now.index (arc_value s.now.vector) result }
    {
        known();
        match self.newest(s.index) {
            None => Published::Dropped,
            Some(newest) => progress_from(&newest.vector, &s.vector),
        }
    }

    /// Publishes a snapshot that goes on.
    fn put(&mut self, s: Arc<Snapshot>, at: Arc<Vector>)
        requires spare { 0 < self.old.spare }
        requires stands { SnapshotStands self.old.script.vbuckets (state_of self.old).log (arc_value s) }
        requires may { IfLive (arc_value s).index (state_of self.old) (λ index. (index.def ≡ arc_value (arc_value s).def)
            × GoesOn (high_in self.old) ((state_of self.old).published (arc_value s).index) (arc_value at) index) }
        requires vector { arc_value at ≡ arc_value (arc_value s).vector }
        ensures { Adds (publish (arc_value s).index (arc_value at)) self.old self.new }
    {
        known();
        let i = s.index;
        put_newest(&mut self.newest, i as usize, s);
        self.events
            .push_reserved(Happened::new(Event::Publish { i, at }));
    }
}

/// Whether one vector goes on from another.
fn progress_from(from: &Vector, to: &Vector) -> Published
    requires { length from.now ≡ length to.now }
    ensures { IsProgress from.now to.now result }
{
    cover_is_order();
    if !to.covers(from) {
        return Published::Stale;
    }
    if from.covers(to) {
        return Published::Stale;
    }
    Published::Published
}
