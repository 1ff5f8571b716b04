ghost use Rattle.std.specs.Prelude.{OnOk};
ghost use Rattle.gsi_sched.specs.ScheduleLines as line;
ghost use Rattle.gsi_sched.specs.inner.Following.{IsFollowing, Goes, IsWorkingIn};

use crate::heart::stood;
use crate::laws::below;
use crate::machine::RunningMachine;
use crate::machine::slots::{deliver_at, lose_at};
use n1ql_value::Memory;

impl RunningMachine {
    /// The piece at a place of an index's inbox is taken out and given to its worker.
    pub(super) fn deliver(&mut self, i: u32, place: u64) -> Result<(), Memory>
        requires following { IsFollowing self.old }
        requires working { IsWorkingIn self.old i }
        ensures { OnOk result (Goes (line.deliver self.old.hub.script.vbuckets place i) self.old self.new) }
    {
        below();
        stood();
        deliver_at(&mut self.slots, i, place)
    }

    /// Or taken out and forgotten.
    pub(super) fn lose(&mut self, i: u32, place: u64)
        requires following { IsFollowing self.old }
        requires working { IsWorkingIn self.old i }
        ensures { Goes (line.lose self.old.hub.script.vbuckets place i) self.old self.new }
    {
        below();
        stood();
        lose_at(&mut self.slots, i, place);
    }
}
