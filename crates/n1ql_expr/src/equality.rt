//! Equality of trees.

ghost use Rattle.std.specs.Prelude.{◌≡◌, ◌↔◌, IsTrue};
ghost use Rattle.n1ql_ast.specs.Equality.{same_tree};

use n1ql_ast::{Expr, Exprs, Names};
use n1ql_value::{Text, Value, collate};
use sqlite_items::Boxed;

/// Whether two expressions are the same tree.
pub fn same(a: &Expr, b: &Expr) -> bool
    ensures { result ≡ same_tree a.now b.now }
{
    n1ql_ast::laws::same_trees_are_equal();
    equal(a, b)
}

/// Whether two expressions are equal.
#[cycle(equality)]
fn equal(a: &Expr, b: &Expr) -> bool
    ensures { IsTrue result ↔ (a.now ≡ b.now) }
{
    match a {
        Expr::Const(v) => matches!(b, Expr::Const(w) if same_value(v, w)),
        Expr::Doc => matches!(b, Expr::Doc),
        Expr::MetaOf(own) => matches!(b, Expr::MetaOf(other) if own == other),
        Expr::Var(name) => matches!(b, Expr::Var(other) if name == other),
        Expr::Key(at) => matches!(b, Expr::Key(other) if at == other),
        Expr::Field(x, name) =>
            matches!(b, Expr::Field(y, other) if name == other && same_part(x, y)),
        Expr::Place(x, at) =>
            matches!(b, Expr::Place(y, other) if same_part(x, y) && same_part(at, other)),
        Expr::Not(x) => matches!(b, Expr::Not(y) if same_part(x, y)),
        Expr::Neg(x) => matches!(b, Expr::Neg(y) if same_part(x, y)),
        Expr::Two(op, x, v) =>
            matches!(b, Expr::Two(other, y, w) if op == other && same_part(x, y) && same_part(v, w)),
        Expr::Is(test, x) => matches!(b, Expr::Is(other, y) if test == other && same_part(x, y)),
        Expr::Among(x, v) => matches!(b, Expr::Among(y, w) if same_part(x, y) && same_part(v, w)),
        Expr::Between(x, low, high) =>
            matches!(b, Expr::Between(y, least, most) if same_part(x, y) && same_part(low, least) && same_part(high, most)),
        Expr::Call(fun, xs) =>
            matches!(b, Expr::Call(other, ys) if fun == other && same_all(xs, ys)),
        Expr::List(xs) => matches!(b, Expr::List(ys) if same_all(xs, ys)),
        Expr::Build(names, xs) =>
            matches!(b, Expr::Build(others, ys) if same_names(names, others) && same_all(xs, ys)),
        Expr::Case(xs, vs, x) =>
            matches!(b, Expr::Case(ys, ws, y) if same_all(xs, ys) && same_all(vs, ws) && same_if_any(x, y)),
        Expr::Any(name, x, v) =>
            matches!(b, Expr::Any(other, y, w) if name == other && same_part(x, y) && same_part(v, w)),
        Expr::Every(name, x, v) =>
            matches!(b, Expr::Every(other, y, w) if name == other && same_part(x, y) && same_part(v, w)),
        Expr::Each(name, x, v, when) =>
            matches!(b, Expr::Each(other, y, w, whether) if name == other && same_part(x, y) && same_part(v, w) && same_if_any(when, whether)),
        Expr::First(name, x, v, when) =>
            matches!(b, Expr::First(other, y, w, whether) if name == other && same_part(x, y) && same_part(v, w) && same_if_any(when, whether)),
        Expr::Agg(agg, x) => matches!(b, Expr::Agg(other, y) if agg == other && same_if_any(x, y)),
    }
}

/// Whether two parts are the same.
#[cycle(equality)]
fn same_part(a: &Boxed<Expr>, b: &Boxed<Expr>) -> bool
    ensures { IsTrue result ↔ (a.now ≡ b.now) }
{
    equal(a.get(), b.get())
}

/// Whether two parts, which there may be, are the same.
#[cycle(equality)]
fn same_if_any(a: &Option<Boxed<Expr>>, b: &Option<Boxed<Expr>>) -> bool
    ensures { IsTrue result ↔ (a.now ≡ b.now) }
{
    match a {
        Some(x) => matches!(b, Some(y) if equal(x.get(), y.get())),
        None => b.is_none(),
    }
}

/// Whether two lists of expressions are the same.
#[cycle(equality)]
fn same_all(a: &Exprs, b: &Exprs) -> bool
    ensures { IsTrue result ↔ (a.now ≡ b.now) }
{
    let (a, b) = (a.as_slice(), b.as_slice());
    if a.len() != b.len() {
        return false;
    }
    for at in 0..a.len() {
        if !equal(&a[at], &b[at]) {
            return false;
        }
    }
    true
}

/// Whether two lists of names are the same.
fn same_names(a: &Names, b: &Names) -> bool
    ensures { IsTrue result ↔ (a.now ≡ b.now) }
{
    let (a, b) = (a.as_slice(), b.as_slice());
    if a.len() != b.len() {
        return false;
    }
    for at in 0..a.len() {
        if !same_text(&a[at], &b[at]) {
            return false;
        }
    }
    true
}

/// Whether two texts are the same.
fn same_text(a: &Text, b: &Text) -> bool
    ensures { IsTrue result ↔ (a.now ≡ b.now) }
{
    a == b
}

/// Whether two values are the same.
#[tactic(auto, using(crate::proofs::Alike::tied_is_same, crate::proofs::Alike::same_is_tied))]
fn same_value(a: &Value, b: &Value) -> bool
    ensures { IsTrue result ↔ (a.now ≡ b.now) }
{
    collate(a, b).is_eq()
}
