use n1ql_ast::UnresolvedExpr;
use n1ql_value::Text;
use sqlite_items::Boxed;

/// What comes after ANY and EVERY: the variable, the collection and the condition.
#[derive(Drop)]
pub struct Quantified {
    pub variable: Text,
    pub over: Boxed<UnresolvedExpr>,
    pub test: Boxed<UnresolvedExpr>,
}
