ghost use Rattle.std.specs.Prelude.{◌≡◌, ◌<◌};
ghost use Rattle.std.specs.Process.{exit_status};
ghost use Rattle.gsi_main.specs.Replay.{Replayed, PartlyReplayed};

use crate::words::words;
use gsi_main::{Sink, Source, Status, gsi_replay};
use std::alloc::Global;
use std::env::Args;
use std::io;
use std::process::ExitCode;

/// The top call over what `env::args` gave, and the exit code of its status.
pub fn run<S: Source, K: Sink>(
    alloc: Global,
    given: io::Result<Args>,
    source: &mut S,
    sink: &mut K,
) -> ExitCode
    ensures done { exit_status result ≡ 0 →
        Replayed (S.left source.old) (S.left source.new) (K.held sink.old) (K.held sink.new) }
    ensures part { exit_status result ≡ 5 →
        PartlyReplayed (S.left source.old) (S.left source.new) (K.held sink.old) (K.held sink.new) }
    ensures read_grew { S.faults source.old < S.faults source.new → exit_status result ≡ 4 }
    ensures write_grew { K.faults sink.old < K.faults sink.new → exit_status result ≡ 5 }
{
    let status = ending(alloc, given, source, sink);
    ExitCode::from(status.code())
}

/// How the top call ends, or why there are no words for it.
fn ending<S: Source, K: Sink>(
    alloc: Global,
    given: io::Result<Args>,
    source: &mut S,
    sink: &mut K,
) -> Status
    ensures done { result ≡ Status.Done →
        Replayed (S.left source.old) (S.left source.new) (K.held sink.old) (K.held sink.new) }
    ensures part { result ≡ Status.WriteFault →
        PartlyReplayed (S.left source.old) (S.left source.new) (K.held sink.old) (K.held sink.new) }
    ensures read_grew { S.faults source.old < S.faults source.new → result ≡ Status.ReadFault }
    ensures write_grew { K.faults sink.old < K.faults sink.new → result ≡ Status.WriteFault }
{
    match words(alloc, given) {
        Ok(words) => gsi_replay(alloc, words.as_slice(), source, sink),
        Err(status) => status,
    }
}
