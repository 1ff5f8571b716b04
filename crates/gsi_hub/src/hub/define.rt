ghost use Rattle.std.specs.Prelude.{◌≡◌, ◌<◌, IfOk, OnErr, bytes_eq};
ghost use Rattle.n1ql_ast.specs.FormedStatements.{IsFormedDdl};
ghost use Rattle.scan_history.specs.First.{first_of_statement};
ghost use Rattle.scan_history.specs.Fold.{nothing};
ghost use Rattle.scan_history.specs.Readings.{IsRead, reads};
ghost use Rattle.gsi_hub.specs.Past.{state_of, part_in, next_command, IsAsBefore, Acted};
ghost use Rattle.gsi_hub.specs.Commands.{OnText};
ghost use Rattle.gsi_hub.specs.Outcomes.{IsDefined};
ghost use Rattle.gsi_hub.specs.inner.Steps.{IsFirstEvent};

use crate::defined::Defined;
use crate::hub::Hub;
use crate::known::known;
use n1ql_ast::Ddl;
use n1ql_value::{Memory, Text, same_text};

impl Hub {
    /// Takes a client's next command, which is a statement on indexes; `read` is what its text reads as. It is refused on another keyspace,
    /// where there is a reason against a definition, for a name that is taken or that is of no live index, for an index that is to be built and isn't
    /// deferred, and where as many indexes were created as there may be.
    ///
    /// # Errors
    ///
    /// `Memory` where memory ran out; nothing happened then.
    pub fn define(&mut self, c: u32, read: &Ddl) -> Result<Defined, Memory>
        requires client { c < self.old.script.clients }
        requires idle { (part_in self.old c).opened ≡ nothing }
        requires text { OnText (next_command self.old c) (λ text. IsRead text (reads read.now)) }
        requires formed { IsFormedDdl read.now }
        ensures ok { IfOk result (λ defined. Acted c self.old self.new (IsDefined defined)) }
        ensures err { OnErr result (IsAsBefore self.old self.new) }
    {
        known();
        self.reserve(1)?;
        self.define_as(c, read)
    }

    /// The same where there is room for an event.
    fn define_as(&mut self, c: u32, read: &Ddl) -> Result<Defined, Memory>
        requires client { c < self.old.script.clients }
        requires spare { 0 < self.old.spare }
        requires first { IsFirstEvent self.old c (first_of_statement self.old.script (state_of self.old) c (part_in self.old c).next read.now) }
        requires formed { IsFormedDdl read.now }
        ensures ok { IfOk result (λ defined. Acted c self.old self.new (IsDefined defined)) }
        ensures err { OnErr result (IsAsBefore self.old self.new) }
    {
        match read {
            Ddl::Create(create) => self.create(c, create),
            Ddl::Build { keyspace, names } => self.build(c, keyspace, names),
            Ddl::Remove { keyspace, name } => self.remove(c, keyspace, name),
        }
    }

    /// Whether this is the script's keyspace.
    pub(super) fn is_in_keyspace(&self, keyspace: &Text) -> bool
        ensures { result ≡ bytes_eq keyspace.now self.now.script.keyspace }
    {
        same_text(keyspace.as_str(), self.script.keyspace.as_str())
    }
}
