ghost use Rattle.std.specs.Prelude.{◌<◌, ◌≤◌, ◌≡◌, IfOk};
ghost use Rattle.script_text.specs.Reports.{report_text};

use crate::reporting::ends::end_line;
use crate::reporting::events::event_lines;
use crate::reporting::high::high_of;
use n1ql_value::Memory;
use scan_history::{Done, Script};
use std::alloc::Global;

/// The report of a script's outcome: one line of compact JSON (RFC 8259) for each event, names in byte order, and a line
/// that ends it with the count of events, the newest numbers and the ends. Each line ends with a line feed.
///
/// # Errors
///
/// `Memory` where memory ran out.
pub fn report(alloc: Global, script: &Script, done: &Done) -> Result<Vec<u8>, Memory>
    requires { (0 < script.now.vbuckets) × (script.now.vbuckets ≤ 1024) }
    ensures { IfOk result (λ text. text.items ≡ report_text script.now.vbuckets done.now.events done.now.answers done.now.ends) }
{
    let high = high_of(alloc, script.vbuckets, done.events.as_slice())?;
    let mut text = Vec::new(alloc);
    event_lines(&mut text, done.events.as_slice(), &done.answers)?;
    end_line(&mut text, done.events.len(), &high, &done.ends)?;
    Ok(text)
}
