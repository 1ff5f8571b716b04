use n1ql_ast::Keys;
use n1ql_expr::Conjuncts;
use n1ql_value::Text;

/// The definition of an index.
#[derive(Drop)]
pub struct IndexDef {
    pub name: Text,
    /// In order. The leading one decides whether a document has rows.
    pub keys: Keys,
    /// The operands of WHERE's ANDs: a document has rows where each is TRUE.
    pub filter: Conjuncts,
    /// Whether the index is a primary one.
    pub primary: bool,
}
