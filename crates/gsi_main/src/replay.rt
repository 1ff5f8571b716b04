ghost use Rattle.std.specs.Prelude.{◌≡◌, ◌<◌, ◌↔◌, ℕ, IfSome, IsTrue};
ghost use Rattle.n1ql_value.specs.Limits.{max_input_bytes};
ghost use Rattle.scan_history.specs.declared.kind.Kind.{Kind};
ghost use Rattle.scan_history.specs.declared.what.What.{What};
ghost use Rattle.script_text.specs.Scripts.{bad, too_large};
ghost use Rattle.gsi_main.specs.Answer.{outcome_for};
ghost use Rattle.gsi_main.specs.Faults.{Rose};
ghost use Rattle.gsi_main.specs.Reading.{TookPast};
ghost use Rattle.gsi_main.specs.Replay.{IsReplay, IsFor, Replayed, PartlyReplayed, TookWhole};

use crate::answer::answer_for;
use crate::reading::{Unread, read_input};
use crate::sink::Sink;
use crate::source::Source;
use crate::status::Status;
use crate::writing::write_report;
use n1ql_value::limits::MAX_INPUT_BYTES;
use n1ql_value::{Failed, Text};
use scan_history::What;
use script_text::ScriptFault;
use std::alloc::Global;

/// Reads a script from the source to its end, replays it, and writes the report of that to the sink. The words are
/// right where they are the one word `replay`. The report is made before the first write.
pub fn gsi_replay<S: Source, K: Sink>(
    alloc: Global,
    words: &[Text],
    source: &mut S,
    sink: &mut K,
) -> Status
    ensures done { result ≡ Status.Done →
        Replayed (S.left source.old) (S.left source.new) (K.held sink.old) (K.held sink.new) }
    ensures exact { IsReplay words.now → IfSome (S.left source.old) (λ input. IsFor result (outcome_for input)) }
    ensures words { (result ≡ Status.Words) ↔ ¬ IsReplay words.now }
    ensures bad_line { (line : ℕ) (kind : Kind) → result ≡ Status.Script line kind →
        TookWhole (S.left source.old) (S.left source.new) (bad line kind) }
    ensures limit { (what : What) (limit : ℕ) → result ≡ Status.TooLarge what limit → ¬ (what ≡ What.Input) →
        TookWhole (S.left source.old) (S.left source.new) (too_large what limit) }
    ensures input_limit { result ≡ Status.TooLarge What.Input max_input_bytes →
        TookPast max_input_bytes (S.left source.old) (S.left source.new) }
    ensures read_fault { result ≡ Status.ReadFault → Rose (S.faults source.old) (S.faults source.new) }
    ensures read_grew { S.faults source.old < S.faults source.new → result ≡ Status.ReadFault }
    ensures write_fault { result ≡ Status.WriteFault → Rose (K.faults sink.old) (K.faults sink.new) }
    ensures write_grew { K.faults sink.old < K.faults sink.new → result ≡ Status.WriteFault }

    // After a failed write a prefix of the report stands in the sink; after all but that and Done, nothing was written.
    ensures part { result ≡ Status.WriteFault →
        PartlyReplayed (S.left source.old) (S.left source.new) (K.held sink.old) (K.held sink.new) }
    ensures untouched { result ≡ Status.Words → source.new ≡ source.old }
    ensures unwritten { ¬ (result ≡ Status.Done) → ¬ (result ≡ Status.WriteFault) → sink.new ≡ sink.old }
{
    if !is_replay(words) {
        return Status::Words;
    }
    let input = match read_input(alloc, source) {
        Ok(input) => input,
        Err(Unread::Fault) => return Status::ReadFault,
        Err(Unread::Memory) => return Status::Memory,
        Err(Unread::TooLarge) => {
            return Status::TooLarge {
                what: What::Input,
                limit: MAX_INPUT_BYTES as u64,
            };
        }
    };
    let report = match answer_for(alloc, input.as_slice()) {
        Ok(report) => report,
        Err(ScriptFault::Line { line, kind }) => return Status::Script { line, kind },
        Err(ScriptFault::TooLarge { what, limit }) => return Status::TooLarge { what, limit },
        Err(ScriptFault::Memory) => return Status::Memory,
    };
    match write_report(report.as_slice(), sink) {
        Ok(()) => Status::Done,
        Err(Failed) => Status::WriteFault,
    }
}

fn is_replay(words: &[Text]) -> bool
    ensures { IsTrue result ↔ IsReplay words.now }
{
    match words {
        [word] => word.as_str() == "replay",
        _ => false,
    }
}
