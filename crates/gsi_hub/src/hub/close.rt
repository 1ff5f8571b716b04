ghost use Rattle.std.specs.Prelude.{◌<◌};
ghost use Rattle.scan_history.specs.Happened.{event_of};
ghost use Rattle.gsi_hub.specs.Past.{MayCome, Adds};
ghost use Rattle.gsi_hub.specs.inner.Steps.{IsClosing};

use crate::hub::Hub;
use crate::known::known;
use crate::parts::close_at;
use scan_history::{Event, Happened};

impl Hub {
    /// Adds an event that closes a client's command and does nothing else.
    pub(super) fn close(&mut self, c: u32, event: Event)
        requires client { c < self.old.script.clients }
        requires spare { 0 < self.old.spare }
        requires closes { IsClosing c (event_of event) }
        requires may { MayCome self.old (event_of event) }
        ensures { Adds (event_of event) self.old self.new }
    {
        known();
        close_at(&mut self.parts, c as usize);
        self.events.push_reserved(Happened::new(event));
    }
}
