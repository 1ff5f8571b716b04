use n1ql_ast::UnresolvedExpr;
use n1ql_value::Text;
use sqlite_items::Boxed;

/// What comes after ARRAY and FIRST: the variable, the item, the collection and WHEN.
#[derive(Drop)]
pub struct Each {
    pub variable: Text,
    pub item: Boxed<UnresolvedExpr>,
    pub over: Boxed<UnresolvedExpr>,
    pub when: Option<Boxed<UnresolvedExpr>>,
}
