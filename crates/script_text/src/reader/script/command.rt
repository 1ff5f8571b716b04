ghost use Rattle.std.specs.Prelude.{◌≡◌, [], codes, IfOk, unwrap_or};
ghost use Rattle.n1ql_value.specs.declared.value.Value.TheVariants as value;
ghost use Rattle.script_text.specs.Commands.{spans_at, command_of};
ghost use Rattle.script_text.specs.Members.{value_at, text_at};
ghost use Rattle.script_text.specs.inner.Lines.{IsVBucketCount};
ghost use Rattle.script_text.specs.Rows.{spelling};

use crate::reader::format::form::Form;
use crate::reader::format::name::Name;
use crate::reader::values::members::{text_at, value_at};
use crate::reader::values::request::ask_of;
use crate::reader::values::spans::{spans_of_value, whole_spans};
use n1ql_value::{Memory, Pairs, Spans, Text, Value};
use scan_history::Command;
use std::alloc::Global;

/// The command that a line of a form gives among so many vBuckets, None where it gives none.
#[tactic(auto, unfolding(crate::specs::Commands::command_of))]
pub(crate) fn command_of(
    alloc: Global,
    vbuckets: u32,
    form: Form,
    members: Pairs,
) -> Result<Option<Command>, Memory>
    requires { IsVBucketCount vbuckets }
    ensures { IfOk result (λ command. command ≡ command_of vbuckets form members) }
{
    match form {
        Form::Upsert => Ok(Some(Command::Upsert {
            id: copy_at(alloc, &members, Name::Id)?,
            doc: document_in(members),
        })),
        Form::Delete => Ok(Some(Command::Delete {
            id: copy_at(alloc, &members, Name::Id)?,
        })),
        Form::Ddl => Ok(Some(Command::Ddl {
            text: copy_at(alloc, &members, Name::Q)?,
        })),
        Form::Scan => Ok(Some(Command::Scan {
            index: copy_at(alloc, &members, Name::Index)?,
            spans: spans_at(alloc, &members)?,
            ask: ask_of(alloc, vbuckets, &members)?,
        })),
        Form::Query => Ok(None),
        Form::Client => Ok(None),
        Form::Project => Ok(None),
        Form::Deliver => Ok(None),
        Form::Lose => Ok(None),
        Form::Publish => Ok(None),
        Form::Rewind => Ok(None),
    }
}

/// The text of the member with a name.
pub(crate) fn copy_at(alloc: Global, members: &Pairs, name: Name) -> Result<Text, Memory>
    ensures { IfOk result (λ text. text ≡ text_at (spelling name) [] members.now) }
{
    Text::of(alloc, text_at(members, name, ""))
}

/// The document of an upsert.
fn document_in(members: Pairs) -> Value
    ensures { result ≡ unwrap_or (value_at (codes "doc") members) value.Missing }
{
    members.take("doc").unwrap_or(Value::Missing)
}

/// The spans of a scan: one without ranges, where nothing is said.
fn spans_at(alloc: Global, members: &Pairs) -> Result<Spans, Memory>
    ensures { IfOk result (λ spans. spans ≡ spans_at members.now) }
{
    match value_at(members, Name::Spans) {
        Some(spans) => spans_of_value(alloc, spans),
        None => whole_spans(alloc),
    }
}
