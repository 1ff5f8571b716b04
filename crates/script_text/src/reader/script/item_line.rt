ghost use Rattle.std.specs.Prelude.{◌≡◌, true, IfOk};
ghost use Rattle.script_text.specs.Items.{item_of, item_checked, item_by_form, item_of_line};
ghost use Rattle.script_text.specs.inner.Lines.{LineReadsAs, IsVBucketCount};
ghost use Rattle.script_text.specs.Rows.{row_of, is_within};

use crate::reader::format::form::Form;
use crate::reader::format::name::Name;
use crate::reader::format::shape::{has_shape, is_within};
use crate::reader::format::sizes::Sizes;
use crate::reader::script::command::command_of;
use crate::reader::script::item::Item;
use crate::reader::script::line::members_of;
use crate::reader::script::line_fault::LineFault;
use crate::reader::script::turn::turn_of;
use crate::reader::values::members::count_at;
use n1ql_json::JsonReader;
use n1ql_value::{Memory, Pairs};
use scan_history::Kind;
use std::alloc::Global;

/// What a line after the header says.
#[tactic(auto, unfolding(crate::specs::Items::item_of_line))]
pub(crate) fn read_item_line(
    alloc: Global,
    reader: &mut JsonReader,
    sizes: Sizes,
    line: &[u8],
) -> Result<Item, LineFault>
    requires { IsVBucketCount sizes.vbuckets }
    ensures { LineReadsAs (item_of_line sizes line.now) result }
{
    let members = members_of(reader, line)?;
    by_form(alloc, sizes, members)
}

fn by_form(alloc: Global, sizes: Sizes, members: Pairs) -> Result<Item, LineFault>
    requires { IsVBucketCount sizes.vbuckets }
    ensures { LineReadsAs (item_by_form sizes members) result }
{
    match Form::of(&members) {
        Some(form) => checked(alloc, sizes, form, members),
        None => Err(LineFault::Bad(Kind::Shape)),
    }
}

#[tactic(auto, unfolding(crate::specs::Items::item_checked))]
fn checked(alloc: Global, sizes: Sizes, form: Form, members: Pairs) -> Result<Item, LineFault>
    requires { IsVBucketCount sizes.vbuckets }
    ensures { LineReadsAs (item_checked sizes form members) result }
{
    if !has_shape(form.row(), &members) {
        return Err(LineFault::Bad(Kind::Shape));
    }
    if !is_within(sizes, form.row(), &members) {
        return Err(LineFault::Bad(Kind::Range));
    }
    match item_of(alloc, sizes, form, members)? {
        Some(item) => Ok(item),
        None => Err(LineFault::Bad(Kind::Unbuilt)),
    }
}

/// The turn, or else the command, that a line of a form gives. None where it gives neither.
#[tactic(auto, unfolding(crate::specs::Items::item_of))]
fn item_of(alloc: Global, sizes: Sizes, form: Form, members: Pairs) -> Result<Option<Item>, Memory>
    requires vbuckets { IsVBucketCount sizes.vbuckets }
    requires within { is_within sizes (row_of form) members ≡ true }
    ensures { IfOk result (λ item. item ≡ item_of sizes.vbuckets form members) }
{
    if let Some(turn) = turn_of(alloc, sizes, form, &members)? {
        return Ok(Some(Item::Turn { turn }));
    }
    let client = count_at(&members, Name::C, 0);
    match command_of(alloc, sizes.vbuckets, form, members)? {
        Some(command) => Ok(Some(Item::Command { client, command })),
        None => Ok(None),
    }
}
