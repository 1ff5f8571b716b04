ghost use Rattle.std.specs.Prelude.{◌≡◌, ℕ, Some, IfOk, map};
ghost use Rattle.scan_history.specs.Answers as history;
ghost use Rattle.index_def.specs.LiveIndexes.{numbered};
ghost use Rattle.scan_history.specs.Fold.{State};
ghost use Rattle.scan_history.specs.Legal.{IsLegal};
ghost use Rattle.gsi_hub.specs.Past.{state_of};
ghost use Rattle.gsi_hub.specs.Snapshots.{IsNewest};
ghost use Rattle.gsi_sched.specs.inner.Following.{IsFollowing};

use crate::machine::RunningMachine;
use crate::machine::known::known;
use gsi_hub::Hub;
use index_ddl::LiveIndex;
use index_snapshot::Snapshot;
use n1ql_value::Memory;
use scan_history::{Done, End, EndList};
use std::alloc::Global;

impl RunningMachine {
    /// The history, its answers, and how its indexes ended.
    pub(super) fn into_done(self) -> Result<Done, Memory>
        requires following { IsFollowing self }
        ensures events { IfOk result (λ done. done.events ≡ self.hub.events) }
        ensures answers { IfOk result (λ done. done.answers ≡ history.answers_of self.hub.script self.hub.events) }
        ensures ends { IfOk result (λ done. done.ends ≡ history.ends_of self.hub.script self.hub.events) }
    {
        let ends = ends_of(self.alloc, &self.hub)?;
        let RunningMachine { hub, answers, .. } = self;
        Ok(Done {
            events: hub.into_events(),
            answers,
            ends,
        })
    }
}

/// How the live indexes ended, in order of creation.
fn ends_of(alloc: Global, hub: &Hub) -> Result<EndList, Memory>
    requires { IsLegal hub.now.script hub.now.events }
    ensures { IfOk result (λ ends. ends ≡ map (history.end_of (state_of hub.now)) (state_of hub.now).live) }
{
    known();
    let catalog = hub.catalog();
    let mut ends = EndList::new(alloc);
    for at in 0..catalog.len() {
        if let Some(index) = catalog.get(at) {
            ends.push(end_in(alloc, hub, index)?)?;
        }
    }
    Ok(ends)
}

/// How a live index ended.
fn end_in(alloc: Global, hub: &Hub, index: &LiveIndex) -> Result<End, Memory>
    requires live { numbered index.now.number (state_of hub.now).live ≡ Some index.now }
    ensures { IfOk result (λ end. end ≡ history.end_of (state_of hub.now) index.now) }
{
    match hub.newest(index.number()) {
        Some(newest) => end_at(alloc, index, newest),
        None => unreachable!(),
    }
}

/// The same by its newest snapshot.
fn end_at(alloc: Global, index: &LiveIndex, newest: &Snapshot) -> Result<End, Memory>
    ensures { IfOk result (λ end. (n : ℕ) (s : State) → IsNewest n s index.now newest.now → end ≡ history.end_of s index.now) }
{
    Ok(End {
        i: index.number(),
        name: index.def().name.copy(alloc)?,
        state: index.state(),
        vector: newest.vector.copy(alloc)?,
        rows: newest.rows.len(),
    })
}
