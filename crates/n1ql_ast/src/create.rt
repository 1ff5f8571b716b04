use crate::expr::Expr;
use crate::key::Keys;
use n1ql_value::Text;

/// CREATE INDEX, or CREATE PRIMARY INDEX.
#[derive(Drop)]
pub struct Create {
    /// The name of the index.
    pub name: Text,
    pub keyspace: Text,
    /// In order. A primary index has the one key `META().id`.
    pub keys: Keys,
    /// WHERE.
    pub filter: Option<Expr>,
    /// WITH, an object.
    pub options: Option<Expr>,
    /// Whether the index is a primary one.
    pub primary: bool,
}
