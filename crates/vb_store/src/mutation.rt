use n1ql_value::{Text, Value};

/// A change of one document that was accepted.
#[derive(Drop)]
pub struct Mutation {
    /// The vBucket of the id.
    pub vb: u32,
    /// Its number in the vBucket, from 1.
    pub seqno: u64,
    /// The id of the document.
    pub id: Text,
    /// The document from then on. `None` for a deletion.
    pub body: Option<Value>,
}
