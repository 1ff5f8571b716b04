ghost use Rattle.std.specs.Prelude.{◌≡◌, IfOk};
ghost use Rattle.n1ql_ast.specs.declared.key.Key.TheVariants as key;

use crate::copies::copy;
use n1ql_ast::{Expr, Key, Keys};
use n1ql_value::{Memory, Text};
use std::alloc::Global;

/// The same keys again.
///
/// # Errors
///
/// `Memory` where memory ran out.
pub fn copy_keys(alloc: Global, keys: &Keys) -> Result<Keys, Memory>
    ensures { IfOk result (λ ks. ks ≡ keys.now) }
{
    let mut made = Keys::new(alloc);
    for key in keys.as_slice() {
        made.push(copy_key(alloc, key)?)?;
    }
    Ok(made)
}

/// The same key again.
fn copy_key(alloc: Global, given: &Key) -> Result<Key, Memory>
    ensures { IfOk result (λ k. k ≡ given.now) }
{
    match given {
        Key::Plain(e) => plain(alloc, e),
        Key::Each {
            distinct,
            item,
            var,
            over,
            when,
        } => each(alloc, *distinct, item, var, over, when),
    }
}

/// A plain key of the same expression.
fn plain(alloc: Global, e: &Expr) -> Result<Key, Memory>
    ensures { IfOk result (λ k. k ≡ key.Plain e.now) }
{
    Ok(Key::Plain(copy(alloc, e)?))
}

/// An array key of the same parts.
fn each(
    alloc: Global,
    distinct: bool,
    item: &Expr,
    var: &Text,
    over: &Expr,
    when: &Option<Expr>,
) -> Result<Key, Memory>
    ensures { IfOk result (λ k. k ≡ key.Each distinct item.now var.now over.now when.now) }
{
    let var = var.copy(alloc)?;
    let item = copy(alloc, item)?;
    each_over(alloc, distinct, item, var, over, when)
}

/// An array key of an item, and of the same collection and WHEN.
fn each_over(
    alloc: Global,
    distinct: bool,
    item: Expr,
    var: Text,
    over: &Expr,
    when: &Option<Expr>,
) -> Result<Key, Memory>
    ensures { IfOk result (λ k. k ≡ key.Each distinct item var over.now when.now) }
{
    let over = copy(alloc, over)?;
    each_when(alloc, distinct, item, var, over, when)
}

/// An array key of an item and a collection, and of the same WHEN.
fn each_when(
    alloc: Global,
    distinct: bool,
    item: Expr,
    var: Text,
    over: Expr,
    when: &Option<Expr>,
) -> Result<Key, Memory>
    ensures { IfOk result (λ k. k ≡ key.Each distinct item var over when.now) }
{
    let when = copy_part(alloc, when)?;
    Ok(Key::Each {
        distinct,
        item,
        var,
        over,
        when,
    })
}

/// An expression that there may be, again.
fn copy_part(alloc: Global, e: &Option<Expr>) -> Result<Option<Expr>, Memory>
    ensures { IfOk result (λ x. x ≡ e.now) }
{
    match e {
        Some(e) => Ok(Some(copy(alloc, e)?)),
        None => Ok(None),
    }
}
