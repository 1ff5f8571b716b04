ghost use Rattle.std.specs.Prelude.{◌≡◌, IfOk, true};
ghost use Rattle.script_text.specs.Items.{no_sizes, is_other_version, header_with, header_checked, header_of_line};
ghost use Rattle.script_text.specs.inner.Lines.{LineReadsAs};
ghost use Rattle.script_text.specs.Rows.{header_row, is_within};

use crate::reader::format::name::Name;
use crate::reader::format::row::HEADER;
use crate::reader::format::shape::{has_shape, is_within};
use crate::reader::format::sizes::Sizes;
use crate::reader::script::line::members_of;
use crate::reader::script::line_fault::LineFault;
use crate::reader::values::members::{count_at, number_at, text_at};
use n1ql_json::JsonReader;
use n1ql_value::{Memory, Pairs, Text};
use scan_history::Kind;
use std::alloc::Global;

/// What the header says.
#[derive(Drop)]
pub(crate) struct Header {
    pub(crate) sizes: Sizes,
    /// How many indexing threads there are.
    pub(crate) workers: u32,
    /// How many mutations a piece of a stream has at most.
    pub(crate) batch: u64,
    pub(crate) keyspace: Text,
}

/// The header that a line is.
#[tactic(auto, unfolding(crate::specs::Items::header_of_line))]
pub(crate) fn read_header(
    alloc: Global,
    reader: &mut JsonReader,
    line: &[u8],
) -> Result<Header, LineFault>
    ensures { LineReadsAs (header_of_line line.now) result }
{
    let members = members_of(reader, line)?;
    checked_header(alloc, &members)
}

#[tactic(auto, unfolding(crate::specs::Items::header_checked))]
fn checked_header(alloc: Global, members: &Pairs) -> Result<Header, LineFault>
    ensures { LineReadsAs (header_checked members.now) result }
{
    if is_other_version(members) {
        return Err(LineFault::Bad(Kind::Version));
    }
    if !has_shape(&HEADER, members) {
        return Err(LineFault::Bad(Kind::Shape));
    }
    if !is_within(NO_SIZES, &HEADER, members) {
        return Err(LineFault::Bad(Kind::Range));
    }
    Ok(header_with(alloc, members)?)
}

/// The header's own numbers depend on no sizes.
const NO_SIZES: Sizes = Sizes {
    vbuckets: 0,
    clients: 0,
};

/// Whether it is the header of another version.
fn is_other_version(members: &Pairs) -> bool
    ensures { result ≡ is_other_version members.now }
{
    number_at(members, Name::Gsi, 1) != 1
}

fn header_with(alloc: Global, members: &Pairs) -> Result<Header, Memory>
    requires { is_within no_sizes header_row members.now ≡ true }
    ensures { IfOk result (λ header. header ≡ header_with members.now) }
{
    Ok(Header {
        sizes: Sizes {
            vbuckets: count_at(members, Name::Vbuckets, 0) as u32,
            clients: count_at(members, Name::Clients, 0) as u32,
        },
        workers: count_at(members, Name::Workers, 2) as u32,
        batch: count_at(members, Name::Batch, 64),
        keyspace: Text::of(alloc, text_at(members, Name::Keyspace, "ks"))?,
    })
}
