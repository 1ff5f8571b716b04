ghost use Rattle.std.specs.Prelude.{IsSome, IfOk};
ghost use Rattle.std.specs.Option.{option_copied};
ghost use Rattle.gsi_sched.specs.inner.ClientTurns.{IsReadText, IsReadingOf};

use n1ql_ast::Ddl;
use n1ql_parse::{ParseFault, ddl};
use n1ql_value::{Memory, Text};
use scan_history::Command;
use std::alloc::Global;

/// What a command is, once its text is read.
#[derive(Drop)]
pub(super) enum Reading {
    /// It puts or deletes a document.
    Change,
    /// A statement on indexes.
    Statement(Ddl),
    /// A text that is no statement, with the byte of its fault.
    Fault { at: usize },
    /// It asks for the rows of an index.
    Request,
}

/// What a client's next command is.
pub(super) fn read_command(alloc: Global, command: Option<&Command>) -> Result<Reading, Memory>
    requires { IsSome command }
    ensures { IfOk result (IsReadingOf (option_copied command.entry)) }
{
    match command {
        Some(Command::Ddl { text }) => read_text(alloc, text),
        Some(Command::Scan { .. }) => Ok(Reading::Request),
        Some(_) => Ok(Reading::Change),
        None => unreachable!(),
    }
}

/// What a text is.
fn read_text(alloc: Global, text: &Text) -> Result<Reading, Memory>
    ensures { IfOk result (IsReadText text.now) }
{
    match ddl(alloc, text.as_str()) {
        Ok(statement) => Ok(Reading::Statement(statement)),
        Err(ParseFault::Fault { at }) => Ok(Reading::Fault { at }),
        Err(ParseFault::Memory) => Err(Memory),
    }
}
