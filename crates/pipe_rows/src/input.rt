use n1ql_value::{ListOf, Text, Vals, Value};

/// What a row begins with: a document, or a row of an index.
#[derive(Drop)]
pub struct Input {
    /// The id of the document.
    pub id: Text,
    /// The document, MISSING where a row of an index stands for it.
    pub doc: Value,
    /// The values of the keys of a row of an index.
    pub keys: Vals,
}

/// Inputs, by their ids.
pub type Inputs = ListOf<Input>;
