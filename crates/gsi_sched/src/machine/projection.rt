ghost use Rattle.std.specs.Prelude.{◌≡◌, ◌<◌, length, OnOk};
ghost use Rattle.gsi_sched.specs.ScheduleLines as line;
ghost use Rattle.gsi_sched.specs.inner.Following.{IsFollowing, Goes, IsBuildingIn};

use crate::heart::stood;
use crate::laws::below;
use crate::machine::RunningMachine;
use crate::machine::sending::{send_online, send_to};
use crate::machine::streams::{next_initial, next_maint, rewind, rewind_initial};
use n1ql_value::Memory;
use seq_vector::Vector;

impl RunningMachine {
    /// The maintenance stream gives its next piece of a vBucket, which is sent to each online index.
    pub(super) fn project(&mut self, vb: u32) -> Result<(), Memory>
        requires following { IsFollowing self.old }
        requires vbucket { vb < self.old.hub.script.vbuckets }
        ensures { OnOk result (Goes (line.project self.old.hub.script.vbuckets self.old.hub.script.batch vb) self.old self.new) }
    {
        below();
        stood();
        let most = self.script.batch;
        match next_maint(&mut self.streams, self.hub.store(), vb, most)? {
            Some(piece) => send_online(self.alloc, &self.hub, &mut self.slots, &piece),
            None => Ok(()),
        }
    }

    /// The initial stream of an index gives its next piece of a vBucket, which is sent to that index.
    pub(super) fn project_to(&mut self, vb: u32, i: u32) -> Result<(), Memory>
        requires following { IsFollowing self.old }
        requires vbucket { vb < self.old.hub.script.vbuckets }
        requires building { IsBuildingIn self.old i }
        ensures { OnOk result (Goes (line.project_to self.old.hub.script.vbuckets self.old.hub.script.batch vb i) self.old self.new) }
    {
        below();
        stood();
        let most = self.script.batch;
        match next_initial(&mut self.streams, i, self.hub.store(), vb, most)? {
            Some(piece) => send_to(self.alloc, &self.hub, &mut self.slots, i, &piece),
            None => Ok(()),
        }
    }

    /// The maintenance stream goes back to a vector.
    pub(super) fn rewind(&mut self, to: &Vector)
        requires following { IsFollowing self.old }
        requires size { length to.now ≡ self.old.hub.script.vbuckets }
        ensures { Goes (line.rewind to.now) self.old self.new }
    {
        below();
        rewind(&mut self.streams, to);
    }

    /// The initial stream of an index goes back to a vector.
    pub(super) fn rewind_to(&mut self, i: u32, to: &Vector)
        requires following { IsFollowing self.old }
        requires size { length to.now ≡ self.old.hub.script.vbuckets }
        requires building { IsBuildingIn self.old i }
        ensures { Goes (line.rewind_to to.now i) self.old self.new }
    {
        below();
        rewind_initial(&mut self.streams, i, to);
    }
}
