//! The texts of answers.

ghost use Rattle.std.specs.Prelude.{◌≡◌, ℕ, IfOk};
ghost use Rattle.index_tree.specs.Range.{rows_within};
ghost use Rattle.scan_history.specs.Answers.{spans_of};
ghost use Rattle.scan_history.specs.First.{command_at};
ghost use Rattle.scan_history.specs.RowTexts.{rows_text as rows_as_text};
ghost use Rattle.gsi_sched.specs.inner.ClientTurns.{EndsInAnswer, IsScanAt};

use crate::rows_text::rows_text;
use index_snapshot::Snapshot;
use n1ql_value::{ListOf, Memory, Spans};
use scan_history::{Command, Event, Happened, Script};
use std::alloc::Global;

/// The client and the place of the command that the newest event answers.
pub(super) fn answered(events: &[Happened]) -> (u32, u32)
    requires { (c : ℕ) × (k : ℕ) × EndsInAnswer c k events.now }
    ensures { EndsInAnswer result.0 result.1 events.now }
{
    match events.last() {
        Some(newest) => match newest.event() {
            Event::Answer { c, k, .. } => (*c, *k),
            _ => unreachable!(),
        },
        None => unreachable!(),
    }
}

/// The rows of a snapshot that the spans of a client's command hold, as text.
pub(super) fn text_of(
    alloc: Global,
    script: &Script,
    c: u32,
    k: u32,
    snapshot: &Snapshot,
) -> Result<ListOf<u8>, Memory>
    requires scan { IsScanAt script.now c k }
    ensures { IfOk result (λ text. text ≡ rows_as_text (rows_within (spans_of (command_at script.now c k)) snapshot.now.rows)) }
{
    let rows = snapshot.scan(alloc, spans_at(script, c, k))?;
    rows_text(alloc, &rows)
}

/// The spans of a client's command, which is a scan.
fn spans_at(script: &Script, c: u32, k: u32) -> &Spans
    requires scan { IsScanAt script.now c k }
    ensures { result.now ≡ spans_of (command_at script.now c k) }
{
    match script.commands.get(c as usize) {
        Some(commands) => match commands.get(k as usize) {
            Some(Command::Scan { spans, .. }) => spans,
            _ => unreachable!(),
        },
        None => unreachable!(),
    }
}
