use crate::expr::Expr;
use n1ql_value::{ListOf, Text};

/// A key of ORDER BY, over what stands for an expression.
#[derive(Drop)]
pub struct Order<E> {
    pub key: E,
    pub desc: bool,
    /// The name, where the key is written as a single name and nothing else.
    pub alone: Option<Text>,
}

/// Keys of ORDER BY, in order.
pub type Orders = ListOf<Order<Expr>>;
