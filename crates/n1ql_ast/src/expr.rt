use crate::agg::Agg;
use crate::names::Names;
use crate::test::Test;
use n1ql_value::{Fun, Op, Text, Value};
use sqlite_items::{Boxed, Items};

/// An expression, with its names resolved.
#[derive(Drop)]
pub enum Expr {
    Const(Value),
    /// The document.
    Doc,
    /// META of the document, or MISSING, as META of another name is.
    MetaOf(bool),
    /// A name that something in the statement binds.
    Var(Text),
    /// The key at this place of a row of an index, from 0.
    Key(u32),
    Field(Boxed<Expr>, Text),
    /// The element of an array at a place.
    Place(Boxed<Expr>, Boxed<Expr>),
    Not(Boxed<Expr>),
    Neg(Boxed<Expr>),
    Two(Op, Boxed<Expr>, Boxed<Expr>),
    Is(Test, Boxed<Expr>),
    /// `a IN b`.
    Among(Boxed<Expr>, Boxed<Expr>),
    /// The value, the lower and the upper bound.
    Between(Boxed<Expr>, Boxed<Expr>, Boxed<Expr>),
    Call(Fun, Exprs),
    /// The elements of an array.
    List(Exprs),
    /// The names and the values of an object, equally many.
    Build(Names, Exprs),
    /// The conditions, as many results, and ELSE.
    Case(Exprs, Exprs, Option<Boxed<Expr>>),
    /// The variable, the collection and the condition.
    Any(Text, Boxed<Expr>, Boxed<Expr>),
    Every(Text, Boxed<Expr>, Boxed<Expr>),
    /// ARRAY: the variable, the item, the collection and WHEN.
    Each(Text, Boxed<Expr>, Boxed<Expr>, Option<Boxed<Expr>>),
    First(Text, Boxed<Expr>, Boxed<Expr>, Option<Boxed<Expr>>),
    /// An aggregate of an expression, of none for all rows.
    Agg(Agg, Option<Boxed<Expr>>),
}

/// Expressions, in order.
pub type Exprs = Items<Expr>;
