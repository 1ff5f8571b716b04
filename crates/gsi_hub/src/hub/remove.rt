ghost use Rattle.std.specs.Prelude.{◌≡◌, ◌<◌, IfOk, OnErr};
ghost use Rattle.scan_history.specs.First.{first_of_drop, in_keyspace};
ghost use Rattle.gsi_hub.specs.Past.{state_of, part_in, IsAsBefore, Acted};
ghost use Rattle.gsi_hub.specs.Outcomes.{IsDefined};
ghost use Rattle.gsi_hub.specs.inner.Steps.{IsFirstEvent};

use crate::defined::Defined;
use crate::hub::Hub;
use crate::known::known;
use crate::newest::drop_newest;
use crate::parts::close_at;
use n1ql_value::{Memory, Text};
use scan_history::refusals::KEYSPACE;
use scan_history::{Event, Happened, Why};

impl Hub {
    /// Drops the index of a name as a client's next command.
    pub(super) fn remove(&mut self, c: u32, keyspace: &Text, name: &Text) -> Result<Defined, Memory>
        requires client { c < self.old.script.clients }
        requires spare { 0 < self.old.spare }
        requires first { IsFirstEvent self.old c
            (in_keyspace self.old.script keyspace.now c (part_in self.old c).next (first_of_drop (state_of self.old) c (part_in self.old c).next name.now)) }
        ensures ok { IfOk result (λ defined. Acted c self.old self.new (IsDefined defined)) }
        ensures err { OnErr result (IsAsBefore self.old self.new) }
    {
        if !self.is_in_keyspace(keyspace) {
            return Ok(self.refuse_statement(c, KEYSPACE, Why::Plain));
        }
        self.remove_named(c, name)
    }

    /// Drops it, unless no live index has the name.
    fn remove_named(&mut self, c: u32, name: &Text) -> Result<Defined, Memory>
        requires client { c < self.old.script.clients }
        requires spare { 0 < self.old.spare }
        requires first { IsFirstEvent self.old c (first_of_drop (state_of self.old) c (part_in self.old c).next name.now) }
        ensures ok { IfOk result (λ defined. Acted c self.old self.new (IsDefined defined)) }
        ensures err { OnErr result (IsAsBefore self.old self.new) }
    {
        known();
        let k = self.next_of(c);
        match self.catalog.remove(name.as_str()) {
            Ok(i) => {
                drop_newest(&mut self.newest, i as usize);
                close_at(&mut self.parts, c as usize);
                self.events
                    .push_reserved(Happened::new(Event::Removed { c, k, i }));
                Ok(Defined::Closed)
            }
            Err(fault) => self.refuse_for(c, fault),
        }
    }
}
