ghost use Rattle.std.specs.Prelude.{◌≡◌, ◌<◌, IfOk, OnErr};
ghost use Rattle.std.specs.Option.{option_copied};
ghost use Rattle.scan_history.specs.Fold.{nothing};
ghost use Rattle.gsi_hub.specs.Past.{part_in, next_command, IsAsBefore, Acted};
ghost use Rattle.gsi_hub.specs.Commands.{IsChange};
ghost use Rattle.gsi_hub.specs.Outcomes.{IsMutation};
ghost use Rattle.gsi_hub.specs.inner.Steps.{IsChangeOf};

use crate::hub::Hub;
use crate::known::known;
use crate::parts::wrote_at;
use n1ql_value::{Memory, Text, Value};
use scan_history::{Command, Event, Happened};
use std::alloc::Global;

impl Hub {
    /// Accepts a client's next command, which puts or deletes a document, and answers its number in its vBucket.
    ///
    /// # Errors
    ///
    /// `Memory` where memory ran out; nothing happened then.
    pub fn mutate(&mut self, c: u32) -> Result<u64, Memory>
        requires client { c < self.old.script.clients }
        requires idle { (part_in self.old c).opened ≡ nothing }
        requires change { IsChange (next_command self.old c) }
        ensures ok { IfOk result (λ seqno. Acted c self.old self.new (IsMutation seqno)) }
        ensures err { OnErr result (IsAsBefore self.old self.new) }
    {
        known();
        let k = self.next_of(c);
        let (id, body) = self.change(c)?;
        self.events.reserve(1)?;
        let what = self.store.append(id, body)?;
        let (vb, seqno) = (what.vb, what.seqno);
        self.events
            .push_reserved(Happened::new(Event::Mutate { c, k, what }));
        wrote_at(&mut self.parts, c as usize, vb, seqno);
        Ok(seqno)
    }

    /// The id and the body of a client's next command.
    fn change(&self, c: u32) -> Result<(Text, Option<Value>), Memory>
        requires client { c < self.now.script.clients }
        requires change { IsChange (next_command self.now c) }
        ensures { IfOk result (λ change. IsChangeOf (next_command self.now c) change.0 change.1) }
    {
        change_of(self.alloc, self.command(c))
    }
}

/// The id and the body of a command that changes a document.
fn change_of(alloc: Global, command: Option<&Command>) -> Result<(Text, Option<Value>), Memory>
    requires { IsChange (option_copied command) }
    ensures { IfOk result (λ change. IsChangeOf (option_copied command.entry) change.0 change.1) }
{
    match command {
        Some(Command::Upsert { id, doc }) => Ok((id.copy(alloc)?, Some(doc.copy(alloc)?))),
        Some(Command::Delete { id }) => Ok((id.copy(alloc)?, None)),
        _ => unreachable!(),
    }
}
