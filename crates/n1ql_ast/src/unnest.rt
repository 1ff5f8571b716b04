use crate::expr::Expr;
use n1ql_value::{ListOf, Text};

/// UNNEST, over what stands for an expression.
#[derive(Drop)]
pub struct Unnest<E> {
    /// Whether a row without elements stays.
    pub left: bool,
    /// The array.
    pub over: E,
    /// What the statement calls an element.
    pub name: Text,
}

/// UNNESTs, in order.
pub type Unnests = ListOf<Unnest<Expr>>;
