use crate::ask::Ask;
use n1ql_value::{Spans, Text, Value};

/// What a client asks for in one line of a script.
#[derive(Drop)]
pub enum Command {
    /// Puts a document under an id.
    Upsert { id: Text, doc: Value },
    /// Deletes the document of an id, also where there is none.
    Delete { id: Text },
    /// Creates, builds or drops indexes, by a statement.
    Ddl { text: Text },
    /// Asks for the rows of an index that some span holds.
    Scan { index: Text, spans: Spans, ask: Ask },
}
