ghost use Rattle.std.specs.Prelude.{◌≡◌, ◌<◌};
ghost use Rattle.gsi_hub.specs.Stages.{stage_in, stage_of};
ghost use Rattle.gsi_hub.specs.inner.Parts.{opened_of};

use crate::hub::Hub;
use crate::part::Open;
use crate::stage::Stage;

impl Hub {
    /// What a client is at.
    pub fn stage(&self, c: u32) -> Stage
        requires { c < self.now.script.clients }
        ensures { result ≡ stage_in self.now c }
    {
        stage_with(&self.part(c).opened, self.command(c).is_some())
    }
}

/// The same by what is open, and by whether there is one more command.
fn stage_with(opened: &Open, more: bool) -> Stage
    ensures { result ≡ stage_of (opened_of opened.now) more }
{
    match opened {
        Open::Nothing => { if more { Stage::Idle } else { Stage::Ended } }
        Open::Work(_) => Stage::Work,
        Open::Started { i, .. } => Stage::Started { i: *i },
    }
}
