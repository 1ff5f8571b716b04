use crate::agg::Agg;
use crate::names::Names;
use crate::test::Test;
use n1ql_value::{Fun, Op, Text, Value};
use sqlite_items::{Boxed, Items};

/// An expression as it is written: what its names mean is open.
#[derive(Drop)]
pub enum UnresolvedExpr {
    Const(Value),
    Name(Text),
    /// META of a name, or of none.
    Meta(Option<Text>),
    Field(Boxed<UnresolvedExpr>, Text),
    Place(Boxed<UnresolvedExpr>, Boxed<UnresolvedExpr>),
    Not(Boxed<UnresolvedExpr>),
    Neg(Boxed<UnresolvedExpr>),
    Two(Op, Boxed<UnresolvedExpr>, Boxed<UnresolvedExpr>),
    Is(Test, Boxed<UnresolvedExpr>),
    Among(Boxed<UnresolvedExpr>, Boxed<UnresolvedExpr>),
    Between(Boxed<UnresolvedExpr>, Boxed<UnresolvedExpr>, Boxed<UnresolvedExpr>),
    Call(Fun, UnresolvedExprs),
    List(UnresolvedExprs),
    Build(Names, UnresolvedExprs),
    Case(UnresolvedExprs, UnresolvedExprs, Option<Boxed<UnresolvedExpr>>),
    Any(Text, Boxed<UnresolvedExpr>, Boxed<UnresolvedExpr>),
    Every(Text, Boxed<UnresolvedExpr>, Boxed<UnresolvedExpr>),
    /// ARRAY: the variable, the item, the collection and WHEN.
    Each(Text, Boxed<UnresolvedExpr>, Boxed<UnresolvedExpr>, Option<Boxed<UnresolvedExpr>>),
    First(Text, Boxed<UnresolvedExpr>, Boxed<UnresolvedExpr>, Option<Boxed<UnresolvedExpr>>),
    Agg(Agg, Option<Boxed<UnresolvedExpr>>),
}

/// UnresolvedExprs, in order.
pub type UnresolvedExprs = Items<UnresolvedExpr>;
