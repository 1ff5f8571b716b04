ghost use Rattle.std.specs.Prelude.{◌≡◌};
ghost use Rattle.script_text.specs.Items.{members_of};
ghost use Rattle.n1ql_value.specs.Kinds.{object_in};
ghost use Rattle.script_text.specs.inner.Lines.{LineReadsAs};

use crate::reader::script::line_fault::LineFault;
use n1ql_json::{JsonFault, JsonReader};
use n1ql_value::{Pairs, Value};
use scan_history::Kind;

/// The members of the object that a line is.
pub(crate) fn members_of(reader: &mut JsonReader, line: &[u8]) -> Result<Pairs, LineFault>
    ensures { LineReadsAs (members_of line.now) result }
{
    match reader.read(line) {
        Ok(value) => match object_in(value) {
            Some(members) => Ok(members),
            None => Err(LineFault::Bad(Kind::Shape)),
        },
        Err(JsonFault::Syntax) => Err(LineFault::Bad(Kind::Syntax)),
        Err(JsonFault::Number) => Err(LineFault::Bad(Kind::Number)),
        Err(JsonFault::Memory) => Err(LineFault::Memory),
    }
}

fn object_in(value: Value) -> Option<Pairs>
    ensures { result ≡ object_in value }
{
    match value {
        Value::Object(members) => Some(members),
        _ => None,
    }
}
