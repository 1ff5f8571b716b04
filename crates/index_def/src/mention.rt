//! What expressions speak of.

ghost use Rattle.std.specs.Prelude.{◌≡◌, map};
ghost use Rattle.std.specs.Option.{option_map};
ghost use Rattle.n1ql_ast.specs.Forms.{all_hold, held_if_any};
ghost use Rattle.index_def.specs.Mentions as spec;

use crate::subject::Subject;
use n1ql_ast::Expr;
use sqlite_items::Boxed;

/// Whether neither the expression nor any part of it speaks of the subject.
#[cycle(mention)]
pub fn is_silent_on(e: &Expr, subject: Subject) -> bool
    ensures { result ≡ spec.is_silent_on subject e.now }
{
    match e {
        Expr::Const(_) | Expr::Var(_) | Expr::Key(_) => true,
        Expr::Doc => matches!(subject, Subject::OtherName),
        Expr::MetaOf(own) => match subject {
            Subject::Document => !*own,
            Subject::OtherName => *own,
        },
        Expr::Field(x, _) => is_silent_on(x.get(), subject),
        Expr::Not(x) => is_silent_on(x.get(), subject),
        Expr::Neg(x) => is_silent_on(x.get(), subject),
        Expr::Is(_, x) => is_silent_on(x.get(), subject),
        Expr::Place(x, y) => is_silent_on(x.get(), subject) && is_silent_on(y.get(), subject),
        Expr::Two(_, x, y) => is_silent_on(x.get(), subject) && is_silent_on(y.get(), subject),
        Expr::Among(x, y) => is_silent_on(x.get(), subject) && is_silent_on(y.get(), subject),
        Expr::Any(_, x, y) => is_silent_on(x.get(), subject) && is_silent_on(y.get(), subject),
        Expr::Every(_, x, y) => is_silent_on(x.get(), subject) && is_silent_on(y.get(), subject),
        Expr::Between(x, low, high) => {
            is_silent_on(x.get(), subject)
                && (is_silent_on(low.get(), subject) && is_silent_on(high.get(), subject))
        }
        Expr::Call(_, xs) => are_all_silent_on(xs.as_slice(), subject),
        Expr::List(xs) => are_all_silent_on(xs.as_slice(), subject),
        Expr::Build(_, xs) => are_all_silent_on(xs.as_slice(), subject),
        Expr::Case(whens, thens, other) => {
            are_all_silent_on(whens.as_slice(), subject)
                && (are_all_silent_on(thens.as_slice(), subject)
                    && is_part_silent_on(other, subject))
        }
        Expr::Each(_, item, over, when) => {
            is_silent_on(item.get(), subject)
                && (is_silent_on(over.get(), subject) && is_part_silent_on(when, subject))
        }
        Expr::First(_, item, over, when) => {
            is_silent_on(item.get(), subject)
                && (is_silent_on(over.get(), subject) && is_part_silent_on(when, subject))
        }
        Expr::Agg(_, x) => is_part_silent_on(x, subject),
    }
}

/// Whether a part, which there may be, is silent.
#[cycle(mention)]
fn is_part_silent_on(x: &Option<Boxed<Expr>>, subject: Subject) -> bool
    ensures { result ≡ held_if_any (option_map (spec.is_silent_on subject) x.now) }
{
    match x {
        Some(x) => is_silent_on(x.get(), subject),
        None => true,
    }
}

/// Whether all of several parts are silent.
#[cycle(mention)]
fn are_all_silent_on(xs: &[Expr], subject: Subject) -> bool
    ensures { result ≡ all_hold (map (spec.is_silent_on subject) xs.now) }
{
    for x in xs {
        if !is_silent_on(x, subject) {
            return false;
        }
    }
    true
}
