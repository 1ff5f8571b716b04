ghost use Rattle.std.specs.Prelude.{◌≡◌, ◌<◌, length, IfOk, OnErr};
ghost use Rattle.std.specs.Option.{option_copied};
ghost use Rattle.index_def.specs.LiveIndexes.{Live};
ghost use Rattle.scan_coord.specs.Demands.{IsSized};
ghost use Rattle.scan_history.specs.First.{first_on, first_of_scan};
ghost use Rattle.scan_history.specs.Fold.{nothing};
ghost use Rattle.gsi_hub.specs.Past.{state_of, part_in, next_command, high_in, IsAsBefore, Acted};
ghost use Rattle.gsi_hub.specs.Commands.{IsRequest};
ghost use Rattle.gsi_hub.specs.Outcomes.{IsStarted};
ghost use Rattle.gsi_hub.specs.inner.Steps.{IsFirstEvent, IsKeptOf, IsRequestOf, beginning_of};

use crate::beginning::Beginning;
use crate::hub::Hub;
use crate::known::known;
use crate::started::Started;
use index_ddl::LiveIndex;
use n1ql_value::{Memory, State, Text};
use scan_coord::wanted;
use scan_history::refusals::{NOT_ONLINE, UNKNOWN_INDEX};
use scan_history::{Ask, Command, Why};

impl Hub {
    /// Begins a client's next command, which is a request, on its index: what its answer has to cover is told from now on. It is refused where
    /// no live index has the name, or that isn't online.
    ///
    /// # Errors
    ///
    /// `Memory` where memory ran out; nothing happened then.
    pub fn start(&mut self, c: u32) -> Result<Started, Memory>
        requires client { c < self.old.script.clients }
        requires idle { (part_in self.old c).opened ≡ nothing }
        requires request { IsRequest (next_command self.old c) }
        ensures ok { IfOk result (λ started. Acted c self.old self.new (IsStarted started)) }
        ensures err { OnErr result (IsAsBefore self.old self.new) }
    {
        self.reserve(1)?;
        self.start_as(c)
    }

    /// The same where there is room for an event.
    fn start_as(&mut self, c: u32) -> Result<Started, Memory>
        requires client { c < self.old.script.clients }
        requires spare { 0 < self.old.spare }
        requires idle { (part_in self.old c).opened ≡ nothing }
        requires request { IsRequest (next_command self.old c) }
        ensures ok { IfOk result (λ started. Acted c self.old self.new (IsStarted started)) }
        ensures err { OnErr result (self.new ≡ self.old) }
    {
        let beginning = self.beginning(c)?;
        Ok(self.begin_with(c, beginning))
    }

    /// What a client's next command begins with.
    fn beginning(&self, c: u32) -> Result<Beginning, Memory>
        requires client { c < self.now.script.clients }
        requires idle { (part_in self.now c).opened ≡ nothing }
        requires request { IsRequest (next_command self.now c) }
        ensures first { IfOk result (λ b. IsFirstEvent self.now c (beginning_of c (part_in self.now c).next b)) }
        ensures kept { IfOk result (IsKeptOf (high_in self.now)) }
    {
        known();
        self.told();
        let (index, ask) = request_in(self.command(c));
        self.beginning_on(c, index, ask)
    }

    /// What a request begins with on the index of a name.
    fn beginning_on(&self, c: u32, index: &Text, ask: &Ask) -> Result<Beginning, Memory>
        requires client { c < self.now.script.clients }
        requires size { IsSized self.now.script.vbuckets ask.now.demand }
        ensures event { IfOk result (λ b. beginning_of c (part_in self.now c).next b
            ≡ first_of_scan self.now.script.vbuckets (state_of self.now) c (part_in self.now c).next index.now ask.now) }
        ensures kept { IfOk result (IsKeptOf (high_in self.now)) }
    {
        match self.catalog.named(index.as_str()) {
            Some(live) => self.beginning_at(c, live, ask),
            None => Ok(Beginning::Refused {
                code: UNKNOWN_INDEX,
            }),
        }
    }

    /// What a request begins with on a live index.
    fn beginning_at(&self, c: u32, live: &LiveIndex, ask: &Ask) -> Result<Beginning, Memory>
        requires client { c < self.now.script.clients }
        requires size { IsSized self.now.script.vbuckets ask.now.demand }
        ensures event { IfOk result (λ b. beginning_of c (part_in self.now c).next b
            ≡ first_on self.now.script.vbuckets (state_of self.now) c (part_in self.now c).next ask.now live.now) }
        ensures kept { IfOk result (IsKeptOf (high_in self.now)) }
    {
        if !matches!(live.state(), State::Online) {
            return Ok(Beginning::Refused { code: NOT_ONLINE });
        }
        known();
        let high = self.store.high();
        let demand = wanted(self.alloc, &ask.demand, &self.part(c).session, high)?;
        let again = demand.copy(self.alloc)?;
        let since = high.copy(self.alloc)?;
        Ok(Beginning::On {
            i: live.number(),
            demand,
            again,
            since,
        })
    }

    /// Adds the event of what a request begins with.
    fn begin_with(&mut self, c: u32, beginning: Beginning) -> Started
        requires client { c < self.old.script.clients }
        requires spare { 0 < self.old.spare }
        requires first { IsFirstEvent self.old c (beginning_of c (part_in self.old c).next beginning) }
        requires kept { IsKeptOf (high_in self.old) beginning }
        ensures { Acted c self.old self.new (IsStarted result) }
    {
        match beginning {
            Beginning::Refused { code } => {
                self.refuse(c, code, Why::Plain);
                Started::Refused(code)
            }
            Beginning::On {
                i,
                demand,
                again,
                since,
            } => {
                self.begin(c, i, demand, again, since);
                Started::Started { index: i }
            }
        }
    }
}

/// The index and what is asked for of a request.
fn request_in(command: Option<&Command>) -> (&Text, &Ask)
    requires { IsRequest (option_copied command) }
    ensures { IsRequestOf (option_copied command.entry) result.0.now result.1.now }
{
    match command {
        Some(Command::Scan { index, ask, .. }) => (index, ask),
        _ => unreachable!(),
    }
}
