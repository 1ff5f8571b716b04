ghost use Rattle.std.specs.Prelude.{◌≡◌, true, codes, IfOk};
ghost use Rattle.std.specs.Option.{option_map_or};
ghost use Rattle.script_text.specs.Members.{value_at, optional_text, count_at};
ghost use Rattle.script_text.specs.inner.Lines.{IsVBucketCount};
ghost use Rattle.script_text.specs.Rows.{spelling, is_number_below, row_of, is_within};
ghost use Rattle.script_text.specs.Turns.{named_index, place, rewound_to, turn_of};

use crate::reader::format::form::Form;
use crate::reader::format::name::Name;
use crate::reader::format::sizes::Sizes;
use crate::reader::script::command::copy_at;
use crate::reader::values::full_vector::{vector_of, vector_of_value};
use crate::reader::values::members::{count_at, value_at};
use n1ql_value::{Memory, Pairs, Text, Value};
use scan_history::Turn;
use seq_vector::Vector;
use std::alloc::Global;

/// The turn that a line of a form gives, None where it gives none.
#[tactic(auto, unfolding(crate::specs::Turns::turn_of))]
pub(crate) fn turn_of(
    alloc: Global,
    sizes: Sizes,
    form: Form,
    members: &Pairs,
) -> Result<Option<Turn>, Memory>
    requires vbuckets { IsVBucketCount sizes.vbuckets }
    requires within { is_within sizes (row_of form) members.now ≡ true }
    ensures { IfOk result (λ turn. turn ≡ turn_of sizes.vbuckets form members.now) }
{
    match form {
        Form::Upsert => Ok(None),
        Form::Delete => Ok(None),
        Form::Ddl => Ok(None),
        Form::Scan => Ok(None),
        Form::Query => Ok(None),
        Form::Client => Ok(Some(Turn::Client {
            c: number_below(sizes.clients, members, Name::C),
        })),
        Form::Project => Ok(Some(Turn::Project {
            vb: number_below(sizes.vbuckets, members, Name::Vb),
            index: optional_index(alloc, members)?,
        })),
        Form::Deliver => Ok(Some(Turn::Deliver {
            index: named_index(alloc, members)?,
            place: place(members),
        })),
        Form::Lose => Ok(Some(Turn::Lose {
            index: named_index(alloc, members)?,
            place: place(members),
        })),
        Form::Publish => Ok(Some(Turn::Publish {
            index: named_index(alloc, members)?,
        })),
        Form::Rewind => Ok(Some(Turn::Rewind {
            to: rewound_to(alloc, sizes.vbuckets, members)?,
            index: optional_index(alloc, members)?,
        })),
    }
}

/// The number of a client or of a vBucket, of which there are `end`.
fn number_below(end: u32, members: &Pairs, name: Name) -> u32
    requires { option_map_or (is_number_below end) (value_at (spelling name) members.now) true ≡ true }
    ensures { result ≡ count_at (spelling name) 0 members.now }
{
    count_at(members, name, 0) as u32
}

/// The name of the index of a turn.
fn named_index(alloc: Global, members: &Pairs) -> Result<Text, Memory>
    ensures { IfOk result (λ index. index ≡ named_index members.now) }
{
    copy_at(alloc, members, Name::Index)
}

/// That name, where one stands.
fn optional_index(alloc: Global, members: &Pairs) -> Result<Option<Text>, Memory>
    ensures { IfOk result (λ index. index ≡ optional_text (codes "index") members.now) }
{
    match value_at(members, Name::Index) {
        Some(Value::Text(index)) => Ok(Some(index.copy(alloc)?)),
        _ => Ok(None),
    }
}

/// The place in the inbox of a turn's index.
fn place(members: &Pairs) -> u64
    ensures { result ≡ place members.now }
{
    count_at(members, Name::Place, 0)
}

/// The vector that a stream goes back to.
fn rewound_to(alloc: Global, vbuckets: u32, members: &Pairs) -> Result<Vector, Memory>
    requires { IsVBucketCount vbuckets }
    ensures { IfOk result (λ to. to ≡ rewound_to vbuckets members.now) }
{
    match value_at(members, Name::To) {
        Some(entries) => vector_of_value(alloc, vbuckets, entries),
        None => vector_of(alloc, vbuckets, &Pairs::new(alloc)),
    }
}
