ghost use Rattle.std.specs.Prelude.{◌≡◌, ◌<◌};
ghost use Rattle.std.specs.Arc.{arc_value};
ghost use Rattle.scan_history.specs.Events.{not_yet};
ghost use Rattle.scan_history.specs.Legal.{MayNotYet, waits};
ghost use Rattle.gsi_hub.specs.Past.{state_of, part_in, next_command, Acted};

use crate::hub::Hub;
use crate::known::known;
use scan_history::Event;
use seq_vector::Vector;
use std::sync::Arc;

impl Hub {
    /// Says that a client's request isn't answered yet. `at` is the vector of its index's newest snapshot, which doesn't cover its demand; the
    /// request doesn't wait, or its demand wasn't reached when it began.
    pub fn not_yet(&mut self, c: u32, at: Arc<Vector>)
        requires client { c < self.old.script.clients }
        requires spare { 0 < self.old.spare }
        requires may { MayNotYet (state_of self.old) (waits (next_command self.old c)) (arc_value at) (part_in self.old c).opened }
        ensures { Acted c self.old self.new (λ e. e ≡ not_yet c (part_in self.old c).next (arc_value at)) }
    {
        known();
        let k = self.next_of(c);
        self.close(c, Event::NotYet { c, k, have: at });
    }
}
