ghost use Rattle.std.specs.Prelude.{◌≡◌, ◌<◌, ℕ, List, ⊤};
ghost use Rattle.std.specs.List.{filter};
ghost use Rattle.std.specs.Option.{is_some};
ghost use Rattle.index_def.specs.LiveIndexes.{numbered, all_in_state};
ghost use Rattle.n1ql_value.specs.declared.state.State.TheVariants.{Online};
ghost use Rattle.scan_history.specs.Events.{online};
ghost use Rattle.scan_history.specs.Legal.{MayGoOnline, live_among};
ghost use Rattle.gsi_hub.specs.Past.{state_of, part_in, Acted};
ghost use Rattle.gsi_hub.specs.Outcomes.{IsOnline};
ghost use Rattle.gsi_hub.specs.Stages.{OnWork};
ghost use Rattle.gsi_hub.specs.inner.Endings.{IsEnding};

use crate::ending::Ending;
use crate::hub::Hub;
use crate::known::known;
use crate::live_indexes::{go_online, keep_live};
use crate::parts::built_at;
use crate::went_online::WentOnline;
use scan_history::{Event, Happened};

impl Hub {
    /// Puts the indexes online that a client builds, those of them that are live, unless one of them isn't covered yet. Where none is live the
    /// command is refused. It takes no memory.
    pub fn online(&mut self, c: u32) -> WentOnline
        requires client { c < self.old.script.clients }
        requires spare { 0 < self.old.spare }
        requires work { OnWork (part_in self.old c).opened (λ indexes high. ⊤) }
        ensures { OnWork (part_in self.old c).opened (λ indexes high. IsOnline c indexes high self.old result self.new) }
    {
        match self.ending(c) {
            Ending::Dropped => {
                self.refuse_dropped(c);
                WentOnline::Dropped
            }
            Ending::Lags { i } => WentOnline::NotCovered { i },
            Ending::Covered => {
                self.put_online(c);
                WentOnline::Online
            }
        }
    }

    /// Puts the live ones of the indexes that a client builds online.
    fn put_online(&mut self, c: u32)
        requires client { c < self.old.script.clients }
        requires spare { 0 < self.old.spare }
        requires may { OnWork (part_in self.old c).opened (λ indexes high. MayGoOnline (state_of self.old) (live_among indexes (state_of self.old)) (part_in self.old c).opened) }
        ensures { OnWork (part_in self.old c).opened (λ indexes high. Acted c self.old self.new (λ e. e ≡ online c (part_in self.old c).next (live_among indexes (state_of self.old)))) }
    {
        known();
        let k = self.next_of(c);
        let built = built_at(&mut self.parts, c as usize);
        let indexes = keep_live(&self.catalog, built);
        go_online(&mut self.catalog, indexes.as_slice());
        self.events
            .push_reserved(Happened::new(Event::Online { c, k, indexes }));
    }
}
