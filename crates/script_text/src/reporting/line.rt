ghost use Rattle.std.specs.Prelude.{◌≡◌, ◌++◌, map, OnOk};
ghost use Rattle.script_text.specs.Lines.{joined, object_of, line_of};
ghost use Rattle.script_text.specs.inner.ReportMembers.{value_text, written, named_texts};

use crate::reporting::member::{ReportMember, ReportValue};
use crate::reporting::text::{
    put, put_decimal, put_name, put_numbers, put_string, put_vector, put_word, separate,
};
use n1ql_value::Memory;

/// Appends the line of an object with these members.
pub(crate) fn put_line(out: &mut Vec<u8>, members: &[ReportMember<'_>]) -> Result<(), Memory>
    ensures { OnOk result (out.new.items ≡ out.old.items ++ line_of (named_texts members.now)) }
{
    put(out, b"{")?;
    put_members(out, members)?;
    put(out, b"}\n")?;
    Ok(())
}

/// Appends an object with these members.
pub(crate) fn put_object(out: &mut Vec<u8>, members: &[ReportMember<'_>]) -> Result<(), Memory>
    ensures { OnOk result (out.new.items ≡ out.old.items ++ object_of (named_texts members.now)) }
{
    put(out, b"{")?;
    put_members(out, members)?;
    put(out, b"}")?;
    Ok(())
}

/// Appends members with a comma between each two.
fn put_members(out: &mut Vec<u8>, members: &[ReportMember<'_>]) -> Result<(), Memory>
    ensures { OnOk result (out.new.items ≡ out.old.items ++ joined (map written members.now)) }
{
    for (at, member) in members.iter().enumerate() {
        separate(out, at)?;
        put_member(out, member)?;
    }
    Ok(())
}

fn put_member(out: &mut Vec<u8>, member: &ReportMember<'_>) -> Result<(), Memory>
    ensures { OnOk result (out.new.items ≡ out.old.items ++ written member.now) }
{
    let (name, value) = member;
    put_name(out, name)?;
    put_value(out, value)
}

fn put_value(out: &mut Vec<u8>, value: &ReportValue<'_>) -> Result<(), Memory>
    ensures { OnOk result (out.new.items ≡ out.old.items ++ value_text value.now) }
{
    match value {
        ReportValue::Number(n) => put_decimal(out, *n),
        ReportValue::Word(text) => put_word(out, text),
        ReportValue::Quoted(text) => put_string(out, text),
        ReportValue::Entries(vector) => put_vector(out, vector),
        ReportValue::Numbers(numbers) => put_numbers(out, numbers.as_slice()),
        ReportValue::Json(text) => put(out, text),
    }
}
