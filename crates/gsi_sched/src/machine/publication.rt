ghost use Rattle.std.specs.Prelude.{◌≡◌, ◌↔◌, length, IsTrue, OnOk};
ghost use Rattle.gsi_hub.specs.Past.{state_of};
ghost use Rattle.gsi_sched.specs.ScheduleLines as line;
ghost use Rattle.gsi_sched.specs.inner.Following.{IsFollowing, Goes, IsAt, IsWorkingIn};

use crate::machine::RunningMachine;
use crate::machine::known::known;
use crate::machine::slots::{slot_at, snapshot_at};
use n1ql_value::Memory;
use seq_vector::Vector;
use seq_vector::laws::cover_is_order;
use std::sync::Arc;

impl RunningMachine {
    /// The vector of an index's worker is published, where it isn't that of the newest publication.
    pub(super) fn publish(&mut self, i: u32) -> Result<(), Memory>
        requires following { IsFollowing self.old }
        requires working { IsWorkingIn self.old i }
        ensures { OnOk result (Goes (line.publish_now self.old.hub.script.vbuckets i) self.old self.new) }
    {
        known();
        if self.is_published(i) {
            return Ok(());
        }
        self.hub.reserve(1)?;
        let snapshot = snapshot_at(&mut self.slots, i)?;
        let at = Arc::try_clone(&snapshot.vector)?;
        self.hub.publish(snapshot, at);
        Ok(())
    }

    /// Whether the vector of an index's worker is that of the newest publication.
    fn is_published(&self, i: u32) -> bool
        requires following { IsFollowing self.now }
        requires working { IsWorkingIn self.now i }
        ensures { IsTrue result ↔ IsAt self.now i ((state_of self.now.hub).published i) }
    {
        known();
        match self.hub.newest(i) {
            Some(newest) => is_same(slot_at(&self.slots, i).vector(), &newest.vector),
            None => unreachable!(),
        }
    }
}

/// Whether two vectors are the same.
fn is_same(a: &Vector, b: &Vector) -> bool
    requires { length a.now ≡ length b.now }
    ensures { IsTrue result ↔ (a.now ≡ b.now) }
{
    cover_is_order();
    a.covers(b) && b.covers(a)
}
