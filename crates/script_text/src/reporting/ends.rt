ghost use Rattle.std.specs.Prelude.{◌≡◌, ◌++◌, map, OnOk, IfOk};
ghost use Rattle.script_text.specs.Lines.{joined, array_of, line_of};
ghost use Rattle.script_text.specs.Reports.{end_text, totals, end_line};

use crate::reporting::line::{put_line, put_object};
use crate::reporting::member::ReportValue::{Entries, Json, Number, Quoted, Word};
use crate::reporting::names::state_name;
use crate::reporting::text::{put, separate};
use n1ql_value::Memory;
use scan_history::{End, EndList};
use seq_vector::Vector;
use std::alloc::Global;

/// Appends the line that ends a report of `count` events.
pub(crate) fn end_line(
    out: &mut Vec<u8>,
    count: usize,
    high: &Vector,
    ends: &EndList,
) -> Result<(), Memory>
    ensures { OnOk result (out.new.items ≡ out.old.items ++ end_line count high.now ends.now) }
{
    let indexes = array_of_ends(*out.allocator(), ends.as_slice())?;
    put_totals(out, count, high, &indexes)
}

/// Appends the line of the totals, with the text of how the indexes ended.
fn put_totals<'a>(
    out: &mut Vec<u8>,
    count: usize,
    high: &'a Vector,
    indexes: &'a [u8],
) -> Result<(), Memory>
    ensures { OnOk result (out.new.items ≡ out.old.items ++ line_of (totals count high.now indexes.now)) }
{
    put_line(
        out,
        &[
            ("e", Word("end")),
            ("events", Number(count as u64)),
            ("high", Entries(high)),
            ("indexes", Json(indexes)),
        ],
    )
}

/// How each index ended, as an array.
fn array_of_ends(alloc: Global, ends: &[End]) -> Result<Vec<u8>, Memory>
    ensures { IfOk result (λ text. text.items ≡ array_of (map end_text ends.now)) }
{
    let mut text = Vec::new(alloc);
    put(&mut text, b"[")?;
    put_ends(&mut text, ends)?;
    put(&mut text, b"]")?;
    Ok(text)
}

fn put_ends(out: &mut Vec<u8>, ends: &[End]) -> Result<(), Memory>
    ensures { OnOk result (out.new.items ≡ out.old.items ++ joined (map end_text ends.now)) }
{
    for (at, end) in ends.iter().enumerate() {
        separate(out, at)?;
        put_end(out, end)?;
    }
    Ok(())
}

fn put_end(out: &mut Vec<u8>, end: &End) -> Result<(), Memory>
    ensures { OnOk result (out.new.items ≡ out.old.items ++ end_text end.now) }
{
    put_object(
        out,
        &[
            ("i", Number(end.i as u64)),
            ("name", Quoted(&end.name)),
            ("rows", Number(end.rows)),
            ("state", Word(state_name(end.state))),
            ("v", Entries(&end.vector)),
        ],
    )
}
