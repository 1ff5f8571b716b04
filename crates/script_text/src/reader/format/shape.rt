ghost use Rattle.std.specs.Prelude.{◌≡◌, ◌||◌, not, true};
ghost use Rattle.std.specs.List.{list_all};
ghost use Rattle.std.specs.Option.{is_some, option_map_or};
ghost use Rattle.script_text.specs.Members.{value_at, each_member};
ghost use Rattle.script_text.specs.Rows.{spelling, in_range, stands_in, has_needed, has_at_for_at_plus, has_shape, is_within};

use crate::reader::format::member::Member;
use crate::reader::format::name::Name;
use crate::reader::format::sizes::Sizes;
use crate::reader::values::members::{text_at, value_at};
use n1ql_value::{Pairs, Text, Value};

/// Whether the members are those of the row, each with a value of its kind.
#[tactic(auto, unfolding(crate::specs::Rows::has_shape))]
pub(crate) fn has_shape(row: &[Member], members: &Pairs) -> bool
    ensures { result ≡ has_shape row.now members.now }
{
    all_stand_in(row, members) && has_needed(row, members) && has_at_for_at_plus(members)
}

fn all_stand_in(row: &[Member], members: &Pairs) -> bool
    ensures { result ≡ each_member (stands_in row.now) members.now }
{
    each_stands_in(row, members.as_slice())
}

fn each_stands_in(row: &[Member], entries: &[(Text, Value)]) -> bool
    ensures { result ≡ list_all (λ entry. stands_in row.now entry.0 entry.1) entries.now }
{
    entries
        .iter()
        .all(|(name, value)| stands_in(row, name.as_str(), value))
}

/// Whether a member stands in the row, with a value of its kind.
fn stands_in(row: &[Member], name: &str, value: &Value) -> bool
    ensures { result ≡ stands_in row.now name.now value.now }
{
    for member in row {
        if name == member.name.as_str() {
            return member.kind.has(value);
        }
    }
    false
}

/// Whether each member of the row that has to stand does.
fn has_needed(row: &[Member], members: &Pairs) -> bool
    ensures { result ≡ has_needed row.now members.now }
{
    row.iter().all(|member| !member.needed || has_member(members, member.name))
}

fn has_member(members: &Pairs, name: Name) -> bool
    ensures { result ≡ is_some (value_at (spelling name) members.now) }
{
    match value_at(members, name) {
        Some(_) => true,
        None => false,
    }
}

/// Whether `at` stands exactly where the consistency is at_plus.
fn has_at_for_at_plus(members: &Pairs) -> bool
    ensures { result ≡ has_at_for_at_plus members.now }
{
    let at_plus = text_at(members, Name::Consistency, "") == "at_plus";
    if has_member(members, Name::At) {
        at_plus
    } else {
        !at_plus
    }
}

/// Whether the values of the row's members are in their ranges.
#[tactic(auto, unfolding(crate::specs::Rows::is_within))]
pub(crate) fn is_within(sizes: Sizes, row: &[Member], members: &Pairs) -> bool
    ensures { result ≡ is_within sizes row.now members.now }
{
    row.iter()
        .all(|member| member_is_within(sizes, member, members))
}

fn member_is_within(sizes: Sizes, member: &Member, members: &Pairs) -> bool
    ensures { result ≡ option_map_or (in_range sizes member.now.kind) (value_at (spelling member.now.name) members.now) true }
{
    match value_at(members, member.name) {
        Some(value) => member.kind.admits(sizes, value),
        None => true,
    }
}
