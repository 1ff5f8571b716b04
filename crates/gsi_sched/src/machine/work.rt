ghost use Rattle.std.specs.Prelude.{◌<◌, IfOk, IfNone, IfSome, OnOk};
ghost use Rattle.gsi_sched.specs.ClientActions as action;
ghost use Rattle.gsi_sched.specs.inner.Following.{IsFollowing, GoesReading};
ghost use Rattle.gsi_sched.specs.inner.ClientTurns.{IsBuildingFor, HasComeNext, IsStill, IsFirstAwaited, AwaitsNone};

use crate::machine::RunningMachine;
use crate::machine::known::known;
use gsi_hub::WentOnline;
use n1ql_value::Memory;

impl RunningMachine {
    /// The indexes that a client's command builds are caught up, the least number first, and then go online; or the command is refused, as all of
    /// them were dropped.
    pub(super) fn finish_work(&mut self, c: u32) -> Result<(), Memory>
        requires following { IsFollowing self.old }
        requires client { c < self.old.hub.script.clients }
        requires work { IsBuildingFor self.old.hub c }
        ensures { OnOk result (GoesReading (λ read. action.act read self.old.hub.script c) self.old self.new) }
    {
        known();
        while let Some(i) = self.go_online(c)? {
            self.catch_up(i)?;
        }
        self.follow()
    }

    /// The event that ends the building, unless an index lags: then the least of those that lag, and nothing happens.
    fn go_online(&mut self, c: u32) -> Result<Option<u32>, Memory>
        requires following { IsFollowing self.old }
        requires client { c < self.old.hub.script.clients }
        requires work { IsBuildingFor self.old.hub c }
        ensures ended { IfOk result (λ lags. IfNone lags (HasComeNext c self.old self.new)) }
        ensures none { IfOk result (λ lags. IfNone lags (AwaitsNone c self.old)) }
        ensures lags { IfOk result (λ lags. IfSome lags (λ i. IsFirstAwaited c i self.old × IsStill self.old self.new)) }
    {
        known();
        self.hub.reserve(1)?;
        match self.hub.online(c) {
            WentOnline::NotCovered { i } => Ok(Some(i)),
            _ => Ok(None),
        }
    }
}
