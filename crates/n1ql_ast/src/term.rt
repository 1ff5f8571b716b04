use crate::expr::Expr;
use n1ql_value::{ListOf, Text};

/// A term of the result of SELECT, over what stands for an expression.
#[derive(Drop)]
pub enum Term<E> {
    /// `*`.
    All,
    /// `name.*`.
    Spread(Text),
    One {
        value: E,
        /// What the result calls the value; where it is absent, the place of the term does.
        name: Option<Text>,
        /// Whether the name is written in the statement.
        given: bool,
    },
}

/// Terms, in order.
pub type Terms = ListOf<Term<Expr>>;
