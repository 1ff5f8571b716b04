use n1ql_value::Spans;

/// How a statement is answered.
#[derive(Drop)]
pub struct Plan {
    /// The number of the index that answers it.
    pub index: u32,
    /// What is read of the index, in order.
    pub spans: Spans,
    /// Whether the rows of the index tell all that the statement reads, so that no document is fetched.
    pub covered: bool,
    /// Whether the rows come in the order that the statement asks for. No plan promises this yet.
    pub ordered: bool,
}
