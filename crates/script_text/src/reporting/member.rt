use n1ql_value::{ListOf, Text};
use seq_vector::Vector;

/// What stands under a name in a line of the report.
#[derive(Clone, Copy)]
pub(crate) enum ReportValue<'a> {
    Number(u64),
    /// A string that needs no escape.
    Word(&'a str),
    /// Any string.
    Quoted(&'a Text),
    /// A vector: its entries that aren't 0.
    Entries(&'a Vector),
    Numbers(&'a ListOf<u32>),
    /// Another value, by its text.
    Json(&'a [u8]),
}

/// A member of a line of the report. Its name needs no escape.
pub(crate) type ReportMember<'a> = (&'a str, ReportValue<'a>);
