ghost use Rattle.std.specs.Prelude.{◌≡◌, drop, map, string_bytes, IfOk};
ghost use Rattle.std.specs.Vec.Iter.{into_iter_items};
ghost use Rattle.gsi.specs.Words.{AreWords, is_out_of_memory};

use gsi_main::Status;
use n1ql_value::{Memory, Text};
use std::alloc::Global;
use std::env::Args;
use std::io;

/// The arguments behind the program's name, of what `env::args` gave.
///
/// # Errors
///
/// `Memory` where memory ran out, there or here; `Words` where `env::args` gave any other error, which it does where an argument is not
/// UTF-8.
pub fn words(alloc: Global, given: io::Result<Args>) -> Result<Vec<Text>, Status>
    ensures { AreWords given result }
{
    match given {
        Ok(arguments) => match texts(alloc, arguments) {
            Ok(words) => Ok(words),
            Err(_) => Err(Status::Memory),
        },
        Err(error) if is_out_of_memory(&error) => Err(Status::Memory),
        Err(_) => Err(Status::Words),
    }
}

fn is_out_of_memory(error: &io::Error) -> bool
    ensures { result ≡ is_out_of_memory error.now }
{
    matches!(error.kind(), io::ErrorKind::OutOfMemory)
}

/// The arguments behind the first, as texts.
fn texts(alloc: Global, arguments: Args) -> Result<Vec<Text>, Memory>
    ensures { IfOk result (λ words.
        words.items ≡ map string_bytes (drop 1 (into_iter_items arguments))) }
{
    let mut words = Vec::new(alloc);
    for argument in arguments.skip(1) {
        words.push(Text::of(alloc, argument.as_str())?)?;
    }
    Ok(words)
}
