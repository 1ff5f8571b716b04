ghost use Rattle.std.specs.Result.{result_err};
ghost use Rattle.script_text.specs.inner.Lines.{LinesReadAs, ChecksAs, IsVBucketCount};
ghost use Rattle.script_text.specs.Scripts.{items_from};

use crate::reader::format::sizes::Sizes;
use crate::reader::script::input::Lines;
use crate::reader::script::item::Item;
use crate::reader::script::item_line::read_item_line;
use crate::reader::script::script_fault::ScriptFault;
use n1ql_json::JsonReader;
use n1ql_value::ListOf;
use std::alloc::Global;

/// What the lines after the header say, in order.
pub(crate) fn items_from(
    alloc: Global,
    reader: &mut JsonReader,
    sizes: Sizes,
    lines: Lines<'_>,
) -> Result<ListOf<Item>, ScriptFault>
    requires { IsVBucketCount sizes.vbuckets }
    ensures { LinesReadAs (items_from sizes lines.entry) result }
{
    let mut items = ListOf::new(alloc);
    'lines: for line in lines {
        match read_item_line(alloc, reader, sizes, line.bytes) {
            Ok(item) => items.push(item)?,
            Err(fault) => return Err(fault.at(line.number)),
        }
    }
    Ok(items)
}

/// That no line after the header is bad. What they say is not kept.
pub(crate) fn check_lines(
    alloc: Global,
    reader: &mut JsonReader,
    sizes: Sizes,
    lines: Lines<'_>,
) -> Result<(), ScriptFault>
    requires { IsVBucketCount sizes.vbuckets }
    ensures { ChecksAs (result_err (items_from sizes lines.entry)) result }
{
    'lines: for line in lines {
        if let Err(fault) = read_item_line(alloc, reader, sizes, line.bytes) {
            return Err(fault.at(line.number));
        }
    }
    Ok(())
}
