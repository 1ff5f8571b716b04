use crate::expr::Expr;
use n1ql_value::{ListOf, Text};

/// A key of an index.
#[derive(Drop)]
pub enum Key {
    /// One value of each document.
    Plain(Expr),
    /// An array key: the values of an item for the elements of an array.
    Each {
        /// Each value once, or as often as it comes.
        distinct: bool,
        item: Expr,
        /// What the item and WHEN call the element.
        var: Text,
        over: Expr,
        /// Which elements count, all of them where it is absent.
        when: Option<Expr>,
    },
}

/// Keys, in order.
pub type Keys = ListOf<Key>;
