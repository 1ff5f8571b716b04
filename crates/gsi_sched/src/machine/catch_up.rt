ghost use Rattle.std.specs.Prelude.{OnOk};
ghost use Rattle.gsi_hub.specs.Past.{high_in};
ghost use Rattle.gsi_sched.specs.ClientActions as action;
ghost use Rattle.gsi_sched.specs.inner.Following.{IsFollowing, Goes, with_worker_at, IsWorkingIn};

use crate::machine::RunningMachine;
use crate::machine::known::known;
use crate::machine::sending::give_all;
use crate::machine::slots::slot_at;
use n1ql_value::Memory;

impl RunningMachine {
    /// An index is caught up: its worker comes to the newest numbers, and they are published where they aren't yet. Its inbox stays.
    pub(super) fn catch_up(&mut self, i: u32) -> Result<(), Memory>
        requires following { IsFollowing self.old }
        requires working { IsWorkingIn self.old i }
        ensures { OnOk result (Goes (λ m. action.catch_up self.old.hub.script.vbuckets m i) self.old self.new) }
    {
        known();
        self.bring_up(i)?;
        self.publish(i)
    }

    /// The worker of an index comes to the newest numbers.
    fn bring_up(&mut self, i: u32) -> Result<(), Memory>
        requires following { IsFollowing self.old }
        requires working { IsWorkingIn self.old i }
        ensures { OnOk result (Goes (with_worker_at (high_in self.old.hub) i) self.old self.new) }
    {
        known();
        let after = slot_at(&self.slots, i).vector();
        let pieces = self.hub.take_pieces(self.alloc, after)?;
        give_all(self.alloc, &self.hub, &mut self.slots, i, pieces.as_slice())
    }
}
