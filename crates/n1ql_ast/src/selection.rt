use crate::expr::Expr;
use crate::order::Order;
use crate::term::Term;
use crate::unnest::Unnest;
use crate::unresolved_expr::UnresolvedExpr;
use n1ql_value::{ListOf, Text};
use sqlite_items::Items;

/// SELECT, over what stands for an expression.
#[derive(Drop)]
pub struct Selection<E> {
    pub distinct: bool,
    /// The value of RAW. Where it is absent, the terms make the result.
    pub raw: Option<E>,
    pub terms: ListOf<Term<E>>,
    pub keyspace: Text,
    /// The name of the document.
    pub alias: Text,
    /// The index of USE INDEX.
    pub hint: Option<Text>,
    pub unnests: ListOf<Unnest<E>>,
    /// WHERE.
    pub filter: Option<E>,
    /// GROUP BY.
    pub groups: Items<E>,
    pub having: Option<E>,
    /// ORDER BY.
    pub orders: ListOf<Order<E>>,
    pub limit: Option<u64>,
    pub offset: u64,
}

/// SELECT, with its names resolved.
pub type Select = Selection<Expr>;

/// SELECT as it is written: what its names mean is open.
pub type UnresolvedSelect = Selection<UnresolvedExpr>;
