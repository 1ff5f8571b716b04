ghost use Rattle.std.specs.Prelude.{◌≡◌, ◌<◌, ◌≤◌, [], length, vec_capacity, IfOk, OnErr};
ghost use Rattle.scan_history.specs.First.{first_of_build, in_keyspace};
ghost use Rattle.gsi_hub.specs.Past.{state_of, part_in, IsAsBefore, Acted};
ghost use Rattle.gsi_hub.specs.Outcomes.{IsDefined};
ghost use Rattle.gsi_hub.specs.inner.Steps.{IsFirstEvent};

use crate::defined::Defined;
use crate::hub::Hub;
use crate::known::known;
use crate::part::{Open, Work};
use crate::parts::begin_at;
use n1ql_ast::Names;
use n1ql_value::{Memory, Text};
use scan_history::refusals::KEYSPACE;
use scan_history::{Event, Happened, Numbers, Why};

impl Hub {
    /// Begins to build the indexes of these names as a client's next command.
    pub(super) fn build(
        &mut self,
        c: u32,
        keyspace: &Text,
        names: &Names,
    ) -> Result<Defined, Memory>
        requires client { c < self.old.script.clients }
        requires spare { 0 < self.old.spare }
        requires first { IsFirstEvent self.old c
            (in_keyspace self.old.script keyspace.now c (part_in self.old c).next (first_of_build (state_of self.old) c (part_in self.old c).next names.now)) }
        ensures ok { IfOk result (λ defined. Acted c self.old self.new (IsDefined defined)) }
        ensures err { OnErr result (IsAsBefore self.old self.new) }
    {
        if !self.is_in_keyspace(keyspace) {
            return Ok(self.refuse_statement(c, KEYSPACE, Why::Plain));
        }
        self.build_named(c, names)
    }

    /// Builds them, unless a name is of no live index, or of one that isn't deferred.
    fn build_named(&mut self, c: u32, names: &Names) -> Result<Defined, Memory>
        requires client { c < self.old.script.clients }
        requires spare { 0 < self.old.spare }
        requires first { IsFirstEvent self.old c (first_of_build (state_of self.old) c (part_in self.old c).next names.now) }
        ensures ok { IfOk result (λ defined. Acted c self.old self.new (IsDefined defined)) }
        ensures err { OnErr result (IsAsBefore self.old self.new) }
    {
        known();
        let k = self.next_of(c);
        let high = self.high().copy(self.alloc)?;
        let in_part = Vec::with_capacity(self.alloc, names.len())?;
        let in_event = Vec::with_capacity(self.alloc, names.len())?;
        match self.catalog.build(names.as_slice()) {
            Ok(numbers) => {
                let indexes = filled(in_part, numbers.as_slice());
                let opened = Open::Work(Work { indexes, high });
                begin_at(&mut self.parts, c as usize, opened);
                let indexes = filled(in_event, numbers.as_slice());
                self.events
                    .push_reserved(Happened::new(Event::Build { c, k, indexes }));
                Ok(Defined::Building(numbers))
            }
            Err(fault) => self.refuse_for(c, fault),
        }
    }
}

/// Numbers in a list that has room for them.
fn filled(mut list: Vec<u32>, numbers: &[u32]) -> Numbers
    requires empty { list.items ≡ [] }
    requires room { length numbers.now ≤ vec_capacity list }
    ensures { result ≡ numbers.now }
{
    for number in numbers {
        list.push_reserved(*number);
    }
    Numbers::from_vec(list)
}
