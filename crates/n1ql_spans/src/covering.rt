//! Whether an expression can be read from the rows of an index.

ghost use Rattle.std.specs.Prelude.{◌≡◌, map};
ghost use Rattle.std.specs.List.{list_any};
ghost use Rattle.std.specs.Option.{option_map};
ghost use Rattle.n1ql_ast.specs.declared.expr.Expr.{out-Expr};
ghost use Rattle.n1ql_ast.specs.Equality.{same_tree};
ghost use Rattle.n1ql_ast.specs.Forms.{all_hold, held_if_any};
ghost use Rattle.n1ql_spans.specs.Covering as spec;
ghost use Rattle.n1ql_spans.specs.inner.ReadWhole as whole;

use n1ql_ast::{Expr, Key};
use n1ql_expr::same;
use n1ql_value::same_text;
use sqlite_items::Boxed;

/// Whether an expression reads neither the document nor META of it, where each part that is the same as a key, or is META().id, is read
/// from the row.
#[cycle(covering)]
#[tactic(auto, using(crate::proofs::Covered::covered_whole, crate::proofs::CoveredByCases::covered_by_cases))]
pub fn is_covered(keys: &[Key], e: &Expr) -> bool
    ensures { result ≡ spec.is_covered (spec.plain_keys keys.now) e.now }
{
    if is_read_whole(keys, e) {
        return true;
    }
    match e {
        Expr::Const(_) | Expr::Var(_) => true,
        Expr::Doc | Expr::Key(_) => false,
        Expr::MetaOf(own) => !*own,
        Expr::Field(x, _) => is_covered(keys, x.get()),
        Expr::Not(x) => is_covered(keys, x.get()),
        Expr::Neg(x) => is_covered(keys, x.get()),
        Expr::Is(_, x) => is_covered(keys, x.get()),
        Expr::Place(x, y) => is_covered(keys, x.get()) && is_covered(keys, y.get()),
        Expr::Two(_, x, y) => is_covered(keys, x.get()) && is_covered(keys, y.get()),
        Expr::Among(x, y) => is_covered(keys, x.get()) && is_covered(keys, y.get()),
        Expr::Any(_, x, y) => is_covered(keys, x.get()) && is_covered(keys, y.get()),
        Expr::Every(_, x, y) => is_covered(keys, x.get()) && is_covered(keys, y.get()),
        Expr::Between(x, low, high) => {
            is_covered(keys, x.get())
                && (is_covered(keys, low.get()) && is_covered(keys, high.get()))
        }
        Expr::Call(_, xs) => are_covered(keys, xs.as_slice()),
        Expr::List(xs) => are_covered(keys, xs.as_slice()),
        Expr::Build(_, xs) => are_covered(keys, xs.as_slice()),
        Expr::Case(whens, thens, other) => {
            are_covered(keys, whens.as_slice())
                && (are_covered(keys, thens.as_slice()) && is_part_covered(keys, other))
        }
        Expr::Each(_, item, over, when) => {
            is_covered(keys, item.get())
                && (is_covered(keys, over.get()) && is_part_covered(keys, when))
        }
        Expr::First(_, item, over, when) => {
            is_covered(keys, item.get())
                && (is_covered(keys, over.get()) && is_part_covered(keys, when))
        }
        Expr::Agg(_, x) => is_part_covered(keys, x),
    }
}

/// Whether a part, which there may be, is covered.
#[cycle(covering)]
fn is_part_covered(keys: &[Key], x: &Option<Boxed<Expr>>) -> bool
    ensures { result ≡ held_if_any (option_map (spec.is_covered (spec.plain_keys keys.now)) x.now) }
{
    match x {
        Some(x) => is_covered(keys, x.get()),
        None => true,
    }
}

/// Whether all of several parts are covered.
#[cycle(covering)]
fn are_covered(keys: &[Key], xs: &[Expr]) -> bool
    ensures { result ≡ all_hold (map (spec.is_covered (spec.plain_keys keys.now)) xs.now) }
{
    for x in xs {
        if !is_covered(keys, x) {
            return false;
        }
    }
    true
}

/// Whether an expression is a key or META().id.
#[tactic(auto, using(crate::proofs::Covered::own_id_is))]
fn is_read_whole(keys: &[Key], e: &Expr) -> bool
    ensures { result ≡ whole.is_read_whole keys.now e.now }
{
    is_key(keys, e) || is_own_id(e)
}

/// Whether some key that isn't an array key is the expression.
fn is_key(keys: &[Key], e: &Expr) -> bool
    ensures { result ≡ list_any (whole.is_plain e.now) keys.now }
{
    for key in keys {
        if is_plain(e, key) {
            return true;
        }
    }
    false
}

/// Whether a key that isn't an array key is the expression.
fn is_plain(e: &Expr, key: &Key) -> bool
    ensures { result ≡ whole.is_plain e.now key.now }
{
    match key {
        Key::Plain(k) => same(k, e),
        Key::Each { .. } => false,
    }
}

/// Whether an expression is META().id, which each row of an index tells.
#[tactic(auto, using(crate::proofs::Covered::own_id_is))]
pub fn is_own_id(e: &Expr) -> bool
    ensures { result ≡ same_tree spec.own_id e.now }
{
    match e {
        Expr::Field(x, name) => is_own_meta(x.get()) && same_text("id", name.as_str()),
        _ => false,
    }
}

/// Whether an expression is META of the document.
fn is_own_meta(e: &Expr) -> bool
    ensures { result ≡ whole.is_own_meta (out-Expr e.now) }
{
    match e {
        Expr::MetaOf(own) => *own,
        _ => false,
    }
}
