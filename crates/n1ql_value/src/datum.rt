use crate::text::Text;
use sqlite_items::Items;

/// What contracts see of a value inside another. No code makes one.
#[derive(Drop)]
pub enum Datum {
    Missing,
    Null,
    Bool(bool),
    Int(i64),
    Text(Text),
    Array(Items<Datum>),
    Object(Items<(Text, Datum)>),
}
