ghost use Rattle.std.specs.Prelude.{◌≡◌, ℕ, IfOk, Err, count_by};
ghost use Rattle.scan_history.specs.Sound.{is_scan, IsSound};
ghost use Rattle.script_text.specs.Items.{header_of_line};
ghost use Rattle.script_text.specs.inner.Limits.{limit_passed, outcome_within_scans};
ghost use Rattle.script_text.specs.inner.Lines.{IsVBucketCount};
ghost use Rattle.script_text.specs.Reading.{ReadsAs};
ghost use Rattle.script_text.specs.Scripts.{script_of, outcome_of, outcome_with_header, outcome_with_commands, items_from, script_with, is_scan_item};

use crate::reader::script::header::{Header, read_header};
use crate::reader::script::input::{Line, Lines};
use crate::reader::script::item::Item;
use crate::reader::script::items::{check_lines, items_from};
use crate::reader::script::lists::lists_of;
use crate::reader::script::script_fault::ScriptFault;
use n1ql_json::JsonReader;
use n1ql_value::limits::{MAX_LINES, MAX_PRODUCT, MAX_SCANS};
use n1ql_value::{ListOf, Memory};
use scan_history::{Command, Kind, Script, What};
use std::alloc::Global;

/// The script that an input is: a JSON object (RFC 8259) a line, the header first. Blank lines are numbered and skipped.
///
/// # Errors
///
/// `Line` with the first bad line and the first kind of what is wrong with it, in the order of `Kind`; line 1 with `Shape`
/// where there is no header. `TooLarge` where no line is bad, with the first of the limits on lines, on their product with
/// the vBuckets and on scans that is passed, never with the input's. `Memory` where memory ran out.
#[tactic(auto, unfolding(crate::specs::Scripts::script_of))]
pub fn read_script(alloc: Global, input: &[u8]) -> Result<Script, ScriptFault>
    ensures gives { ReadsAs (script_of input.now) result }
    ensures sound { IfOk result (λ script. IsSound script) }
    ensures limits { (limit : ℕ) → ¬ (result ≡ Err (ScriptFault.TooLarge What.Input limit)) }
{
    // one for all lines, since it keeps its room from line to line
    let mut reader = JsonReader::new(alloc);
    read_lines(alloc, &mut reader, Lines::new(input))
}

fn read_lines(
    alloc: Global,
    reader: &mut JsonReader,
    mut lines: Lines<'_>,
) -> Result<Script, ScriptFault>
    ensures { ReadsAs (outcome_of lines.entry) result }
{
    match lines.next() {
        Some(line) => read_header_line(alloc, reader, line, lines),
        None => Err(ScriptFault::Line {
            line: 1,
            kind: Kind::Shape,
        }),
    }
}

/// The script with this line for its header.
fn read_header_line(
    alloc: Global,
    reader: &mut JsonReader,
    line: Line<'_>,
    lines: Lines<'_>,
) -> Result<Script, ScriptFault>
    ensures { ReadsAs (outcome_with_header line.entry.number lines.entry (header_of_line line.entry.bytes.now)) result }
{
    match read_header(alloc, reader, line.bytes) {
        Ok(header) => read_item_lines(alloc, reader, header, lines),
        Err(fault) => Err(fault.at(line.number)),
    }
}

fn read_item_lines(
    alloc: Global,
    reader: &mut JsonReader,
    header: Header,
    lines: Lines<'_>,
) -> Result<Script, ScriptFault>
    requires { IsVBucketCount header.sizes.vbuckets }
    ensures { ReadsAs (outcome_with_commands header (items_from header.sizes lines.entry)) result }
{
    match limit_passed(header.sizes.vbuckets, lines.len() as u64) {
        // a bad line goes before a limit, so each is read, but what so many say is not kept
        Some(passed) => {
            check_lines(alloc, reader, header.sizes, lines)?;
            Err(passed)
        }
        None => {
            let items = items_from(alloc, reader, header.sizes, lines)?;
            within_scans(alloc, header, items)
        }
    }
}

/// The first limit that so many lines pass, where they pass one.
fn limit_passed(vbuckets: u32, lines: u64) -> Option<ScriptFault>
    ensures { result ≡ limit_passed vbuckets lines }
{
    if lines > MAX_LINES as u64 {
        return Some(ScriptFault::TooLarge {
            what: What::Lines,
            limit: MAX_LINES as u64,
        });
    }
    if u64::from(vbuckets) * lines > MAX_PRODUCT as u64 {
        return Some(ScriptFault::TooLarge {
            what: What::Product,
            limit: MAX_PRODUCT as u64,
        });
    }
    None
}

/// The script of these, where they aren't too many lines.
fn within_scans(alloc: Global, header: Header, items: ListOf<Item>) -> Result<Script, ScriptFault>
    ensures { ReadsAs (outcome_within_scans header items) result }
{
    if scans_in(items.as_slice()) > MAX_SCANS as u64 {
        return Err(ScriptFault::TooLarge {
            what: What::Scans,
            limit: MAX_SCANS as u64,
        });
    }
    Ok(assemble(alloc, header, items)?)
}

fn scans_in(items: &[Item]) -> u64
    ensures { result ≡ count_by is_scan_item items.now }
{
    let mut scans = 0;
    for item in items {
        if is_scan_item(item) {
            scans += 1;
        }
    }
    scans
}

#[tactic(auto, unfolding(crate::specs::Scripts::is_scan_item))]
fn is_scan_item(item: &Item) -> bool
    ensures { result ≡ is_scan_item item.now }
{
    match item {
        Item::Command { command, .. } => is_scan(command),
        Item::Turn { .. } => false,
    }
}

fn is_scan(command: &Command) -> bool
    ensures { result ≡ is_scan command.now }
{
    matches!(command, Command::Scan { .. })
}

fn assemble(alloc: Global, header: Header, items: ListOf<Item>) -> Result<Script, Memory>
    ensures { IfOk result (λ script. script ≡ script_with header items) }
{
    let Header {
        sizes,
        workers,
        batch,
        keyspace,
    } = header;
    let (commands, schedule) = lists_of(alloc, sizes.clients, items)?;
    Ok(Script {
        vbuckets: sizes.vbuckets,
        clients: sizes.clients,
        workers,
        batch,
        keyspace,
        commands,
        schedule,
    })
}
