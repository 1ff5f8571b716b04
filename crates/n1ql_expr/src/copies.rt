ghost use Rattle.std.specs.Prelude.{◌≡◌, IfOk};

use n1ql_ast::{Expr, Exprs, copy_names};
use n1ql_value::Memory;
use sqlite_items::Boxed;
use std::alloc::Global;

/// The same expression again.
///
/// # Errors
///
/// `Memory` where memory ran out.
#[cycle(copies)]
pub fn copy(alloc: Global, e: &Expr) -> Result<Expr, Memory>
    ensures { IfOk result (λ x. x ≡ e.now) }
{
    match e {
        Expr::Const(value) => Ok(Expr::Const(value.copy(alloc)?)),
        Expr::Doc => Ok(Expr::Doc),
        Expr::MetaOf(own) => Ok(Expr::MetaOf(*own)),
        Expr::Var(name) => Ok(Expr::Var(name.copy(alloc)?)),
        Expr::Key(at) => Ok(Expr::Key(*at)),
        Expr::Field(x, name) => Ok(Expr::Field(boxed(alloc, x.get())?, name.copy(alloc)?)),
        Expr::Place(x, at) => Ok(Expr::Place(boxed(alloc, x.get())?, boxed(alloc, at.get())?)),
        Expr::Not(x) => Ok(Expr::Not(boxed(alloc, x.get())?)),
        Expr::Neg(x) => Ok(Expr::Neg(boxed(alloc, x.get())?)),
        Expr::Two(op, x, y) => Ok(Expr::Two(*op, boxed(alloc, x.get())?, boxed(alloc, y.get())?)),
        Expr::Is(test, x) => Ok(Expr::Is(*test, boxed(alloc, x.get())?)),
        Expr::Among(x, y) => Ok(Expr::Among(boxed(alloc, x.get())?, boxed(alloc, y.get())?)),
        Expr::Between(x, low, high) => Ok(Expr::Between(
            boxed(alloc, x.get())?,
            boxed(alloc, low.get())?,
            boxed(alloc, high.get())?,
        )),
        Expr::Call(fun, args) => Ok(Expr::Call(*fun, list(alloc, args)?)),
        Expr::List(items) => Ok(Expr::List(list(alloc, items)?)),
        Expr::Build(names, values) => Ok(Expr::Build(
            copy_names(alloc, names)?,
            list(alloc, values)?,
        )),
        Expr::Case(whens, thens, other) => Ok(Expr::Case(
            list(alloc, whens)?,
            list(alloc, thens)?,
            optional(alloc, other)?,
        )),
        Expr::Any(name, over, test) => Ok(Expr::Any(
            name.copy(alloc)?,
            boxed(alloc, over.get())?,
            boxed(alloc, test.get())?,
        )),
        Expr::Every(name, over, test) => Ok(Expr::Every(
            name.copy(alloc)?,
            boxed(alloc, over.get())?,
            boxed(alloc, test.get())?,
        )),
        Expr::Each(name, item, over, when) => Ok(Expr::Each(
            name.copy(alloc)?,
            boxed(alloc, item.get())?,
            boxed(alloc, over.get())?,
            optional(alloc, when)?,
        )),
        Expr::First(name, item, over, when) => Ok(Expr::First(
            name.copy(alloc)?,
            boxed(alloc, item.get())?,
            boxed(alloc, over.get())?,
            optional(alloc, when)?,
        )),
        Expr::Agg(agg, x) => Ok(Expr::Agg(*agg, optional(alloc, x)?)),
    }
}

/// A part of an expression again.
#[cycle(copies)]
fn boxed(alloc: Global, e: &Expr) -> Result<Boxed<Expr>, Memory>
    ensures { IfOk result (λ x. x ≡ e.now) }
{
    Ok(Boxed::new(alloc, copy(alloc, e)?)?)
}

/// A part that there may be, again.
#[cycle(copies)]
fn optional(alloc: Global, e: &Option<Boxed<Expr>>) -> Result<Option<Boxed<Expr>>, Memory>
    ensures { IfOk result (λ x. x ≡ e.now) }
{
    match e {
        Some(e) => Ok(Some(boxed(alloc, e.get())?)),
        None => Ok(None),
    }
}

/// Several parts again.
#[cycle(copies)]
fn list(alloc: Global, es: &Exprs) -> Result<Exprs, Memory>
    ensures { IfOk result (λ xs. xs ≡ es.now) }
{
    let mut made = Exprs::new(alloc);
    for e in es.as_slice() {
        made.push(copy(alloc, e)?)?;
    }
    Ok(made)
}
