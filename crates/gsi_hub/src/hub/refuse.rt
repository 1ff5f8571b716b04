ghost use Rattle.std.specs.Prelude.{◌≡◌, ◌<◌, IfOk, IfSome, OnErr};
ghost use Rattle.scan_history.specs.declared.why.Why.TheVariants.{At, Plain};
ghost use Rattle.scan_history.specs.Events.{refuse};
ghost use Rattle.scan_history.specs.Fold.{nothing};
ghost use Rattle.scan_history.specs.Legal.{IsDropped};
ghost use Rattle.scan_history.specs.Readings.{IsRead, faults};
ghost use Rattle.scan_history.specs.Refusals as code;
ghost use Rattle.gsi_hub.specs.Past.{state_of, part_in, next_command, Acted};
ghost use Rattle.gsi_hub.specs.Commands.{OnText};
ghost use Rattle.gsi_hub.specs.Outcomes.{IsDefined, DropsCommand};
ghost use Rattle.gsi_hub.specs.inner.Definitions.{code_of};
ghost use Rattle.gsi_hub.specs.inner.Steps.{IsFirstEvent};

use crate::defined::Defined;
use crate::hub::Hub;
use crate::known::known;
use index_ddl::DdlFault;
use n1ql_value::Memory;
use scan_history::refusals::{
    DROPPED, EXISTS, NOT_DEFERRED, PARSE, TOO_MANY_INDEXES, UNKNOWN_INDEX,
};
use scan_history::{Event, Why};

impl Hub {
    /// Refuses a client's next command, whose text is no statement: its fault is at the byte `at`.
    pub fn refuse_parse(&mut self, c: u32, at: usize)
        requires client { c < self.old.script.clients }
        requires spare { 0 < self.old.spare }
        requires idle { (part_in self.old c).opened ≡ nothing }
        requires text { OnText (next_command self.old c) (λ text. IsRead text (faults at)) }
        ensures { Acted c self.old self.new (λ e. e ≡ refuse c (part_in self.old c).next code.parse (At at)) }
    {
        known();
        self.refuse(c, PARSE, Why::At(at));
    }

    /// Refuses a client's next command at its first action.
    pub(super) fn refuse(&mut self, c: u32, number: u8, why: Why)
        requires client { c < self.old.script.clients }
        requires spare { 0 < self.old.spare }
        requires first { IsFirstEvent self.old c (refuse c (part_in self.old c).next number why) }
        ensures { Acted c self.old self.new (λ e. e ≡ refuse c (part_in self.old c).next number why) }
    {
        known();
        let k = self.next_of(c);
        self.close(
            c,
            Event::Refuse {
                c,
                k,
                code: number,
                why,
            },
        );
    }

    /// Refuses a client's next command, which is a statement on indexes.
    pub(super) fn refuse_statement(&mut self, c: u32, number: u8, why: Why) -> Defined
        requires client { c < self.old.script.clients }
        requires spare { 0 < self.old.spare }
        requires first { IsFirstEvent self.old c (refuse c (part_in self.old c).next number why) }
        ensures { Acted c self.old self.new (IsDefined result) }
    {
        self.refuse(c, number, why);
        Defined::Refused(number)
    }

    /// Refuses it for what the catalog says.
    pub(super) fn refuse_for(&mut self, c: u32, fault: DdlFault) -> Result<Defined, Memory>
        requires client { c < self.old.script.clients }
        requires spare { 0 < self.old.spare }
        requires first { IfSome (code_of fault) (λ number. IsFirstEvent self.old c (refuse c (part_in self.old c).next number Plain)) }
        ensures ok { IfOk result (λ defined. Acted c self.old self.new (IsDefined defined)) }
        ensures err { OnErr result (self.new ≡ self.old) }
    {
        let number = match fault {
            DdlFault::Exists => EXISTS,
            DdlFault::Unknown => UNKNOWN_INDEX,
            DdlFault::NotDeferred => NOT_DEFERRED,
            DdlFault::TooMany => TOO_MANY_INDEXES,
            DdlFault::Memory => return Err(Memory),
        };
        Ok(self.refuse_statement(c, number, Why::Plain))
    }

    /// Refuses a client's command whose indexes were dropped.
    pub(super) fn refuse_dropped(&mut self, c: u32)
        requires client { c < self.old.script.clients }
        requires spare { 0 < self.old.spare }
        requires dropped { IsDropped (state_of self.old) (part_in self.old c).opened }
        ensures { DropsCommand c self.old self.new }
    {
        known();
        let k = self.next_of(c);
        self.close(
            c,
            Event::Refuse {
                c,
                k,
                code: DROPPED,
                why: Why::Plain,
            },
        );
    }
}
