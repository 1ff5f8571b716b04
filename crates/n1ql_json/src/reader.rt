ghost use Rattle.std.specs.Prelude.{◌≡◌, Ok, Some, IfOk, option_and_then};
ghost use Rattle.json.specs.Json.{if_last, value};
ghost use Rattle.json.specs.Lex.{tokens};
ghost use Rattle.json.specs.Value.{value_view};
ghost use Rattle.n1ql_value.specs.Datum.{datum_of};
ghost use Rattle.n1ql_json.specs.Reads.{read_of, Gives};
ghost use Rattle.serde_json.specs.Read.{max_depth};

use crate::fault::JsonFault;
use crate::reading::read;
use crate::tree::value_of;
use json::{Error, Reader, Scratch, Value as Tree};
use n1ql_value::Value;
use std::alloc::Global;

/// How deep arrays and objects may nest.
const MAX_DEPTH: usize = 127;

/// A reader of many texts: it keeps the room that a read needs, where `read` clears such room for each text.
#[derive(Drop)]
pub struct JsonReader {
    alloc: Global,
    scratch: Scratch,
}

impl JsonReader {
    /// A reader that has read nothing.
    pub fn new(alloc: Global) -> JsonReader {
        JsonReader {
            alloc,
            scratch: Scratch::new(alloc),
        }
    }

    /// Reads a value from the bytes of its JSON text (RFC 8259), as `read` does.
    ///
    /// # Errors
    ///
    /// `Syntax` and `Number` exactly where `read` has them. `Memory` where it ran out.
    pub fn read(&mut self, bytes: &[u8]) -> Result<Value, JsonFault>
        ensures { Gives (read_of bytes.now) result }
    {
        let alloc = self.alloc;
        match whole_value(alloc, bytes, &mut self.scratch) {
            Ok(value) => Ok(value),
            Err(JsonFault::Memory) => Err(JsonFault::Memory),
            // a text that isn't JSON, or has another number, is rare: `read` says what it is
            Err(_) => read(alloc, bytes),
        }
    }
}

/// The value of the bytes, where they are JSON and each number in it is an integer of 64 bits.
fn whole_value(alloc: Global, bytes: &[u8], scratch: &mut Scratch) -> Result<Value, JsonFault>
    ensures { IfOk result (λ v. read_of bytes.now ≡ Ok (datum_of v)) }
{
    match str::from_utf8(bytes) {
        Ok(text) => {
            let tree = tree_of(alloc, text, scratch)?;
            value_of(alloc, tree)
        }
        Err(_) => Err(JsonFault::Syntax),
    }
}

/// The tree of a text, over the text itself and the room of the scratch.
fn tree_of<'a>(
    alloc: Global,
    text: &'a str,
    scratch: &'a mut Scratch,
) -> Result<Tree<'a>, JsonFault>
    ensures { IfOk result (λ tree. option_and_then (λ p. if_last p.0 p.1) (value max_depth (tokens text.now))
        ≡ Some (value_view tree)) }
{
    let Ok(mut reader) = Reader::new(text, scratch) else {
        return Err(JsonFault::Memory);
    };
    let tree = match Tree::read(alloc, &mut reader, MAX_DEPTH) {
        Ok(tree) => tree,
        Err(Error::OutOfMemory) => return Err(JsonFault::Memory),
        Err(_) => return Err(JsonFault::Syntax),
    };
    if reader.next().is_some() {
        return Err(JsonFault::Syntax);
    }
    Ok(tree)
}
