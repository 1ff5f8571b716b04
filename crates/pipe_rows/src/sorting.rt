//! ORDER BY: by its keys in turn, and then by the bases.

ghost use Rattle.std.specs.Prelude.{◌≡◌, map, IfOk};
ghost use Rattle.n1ql_value.specs.Datum.{datum_of};
ghost use Rattle.n1ql_meaning.specs.Finish as spec;
ghost use Rattle.pipe_rows.specs.Pipes.{placed};

use crate::out::{Out, Outs};
use n1ql_ast::{Expr, Order};
use n1ql_value::{Memory, Vals, Value, collate};
use std::cmp::Ordering;

/// Results by the keys of ORDER BY, and then by their bases.
pub fn in_order(orders: &[Order<Expr>], mut outs: Outs) -> Result<Outs, Memory>
    ensures { IfOk result (λ sorted. map placed sorted.items ≡ spec.in_order orders.now (map placed outs.items)) }
{
    n1ql_meaning::laws::order_of_results_is_total();
    sorted_lists::laws::a_stable_sort_is_the_sort::<Out>();
    outs.sort_by(|a, b| compare(orders, a, b))?;
    Ok(outs)
}

/// The order of two results.
fn compare(orders: &[Order<Expr>], a: &Out, b: &Out) -> Ordering
    ensures { result ≡ spec.placed_cmp orders.now (placed a.now) (placed b.now) }
{
    match compare_orders(orders, &a.order, &b.order) {
        Ordering::Equal => a.base.cmp(&b.base),
        order => order,
    }
}

/// The order of the values of the keys of ORDER BY.
fn compare_orders(orders: &[Order<Expr>], a: &Vals, b: &Vals) -> Ordering
    ensures { result ≡ spec.orders_cmp orders.now a.now b.now }
{
    for at in 0..orders.len() {
        let x = a.get_or(at, &Value::Missing);
        let y = b.get_or(at, &Value::Missing);
        match directed(orders[at].desc, x, y) {
            Ordering::Equal => {}
            order => return order,
        }
    }
    Ordering::Equal
}

/// The order of two values, which DESC turns round.
fn directed(desc: bool, x: &Value, y: &Value) -> Ordering
    ensures { result ≡ spec.directed_cmp desc (datum_of x.now) (datum_of y.now) }
{
    if desc { collate(y, x) } else { collate(x, y) }
}
