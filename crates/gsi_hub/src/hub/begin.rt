ghost use Rattle.std.specs.Prelude.{◌≡◌, ◌<◌};
ghost use Rattle.scan_history.specs.Events.{start};
ghost use Rattle.gsi_hub.specs.Past.{part_in, high_in, Acted};
ghost use Rattle.gsi_hub.specs.inner.Steps.{IsFirstEvent};

use crate::hub::Hub;
use crate::known::known;
use crate::part::Open;
use crate::parts::begin_at;
use scan_history::{Event, Happened};
use seq_vector::Vector;

impl Hub {
    /// Begins a request on an index, with what its answer has to cover, twice, and the newest numbers.
    pub(super) fn begin(&mut self, c: u32, i: u32, demand: Vector, again: Vector, since: Vector)
        requires client { c < self.old.script.clients }
        requires spare { 0 < self.old.spare }
        requires first { IsFirstEvent self.old c (start c (part_in self.old c).next i demand) }
        requires again { again ≡ demand }
        requires since { since ≡ high_in self.old }
        ensures { Acted c self.old self.new (λ e. e ≡ start c (part_in self.old c).next i demand) }
    {
        known();
        let k = self.next_of(c);
        let opened = Open::Started {
            i,
            demand: again,
            high: since,
        };
        begin_at(&mut self.parts, c as usize, opened);
        self.events
            .push_reserved(Happened::new(Event::Start { c, k, i, demand }));
    }
}
