use n1ql_value::{Rows, Text};

/// The rows that an id holds from now on, in place of those that it held.
#[derive(Drop)]
pub struct Change {
    pub id: Text,
    /// None of them take the id out.
    pub rows: Rows,
}
