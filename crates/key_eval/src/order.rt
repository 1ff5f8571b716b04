//! Rows in their order.

ghost use Rattle.std.specs.Prelude.{◌≡◌, IfOk};
ghost use Rattle.n1ql_value.specs.Collation.{row_cmp};
ghost use Rattle.sorted_lists.specs.SortedLists.{sort_of};
ghost use Rattle.key_eval.specs.Neighbours.{ends_in, neighbours_once};

use n1ql_value::{Memory, Row, collate_rows};
use std::alloc::Global;

/// The rows in order.
pub fn in_order(mut rows: Vec<Row>) -> Result<Vec<Row>, Memory>
    ensures { IfOk result (λ sorted. sorted.items ≡ sort_of row_cmp rows.items) }
{
    rows.sort_by(|a, b| collate_rows(a, b))?;
    Ok(rows)
}

/// The rows without those that are the same as the one before.
pub fn once(alloc: Global, rows: Vec<Row>) -> Result<Vec<Row>, Memory>
    ensures { IfOk result (λ kept. kept.items ≡ neighbours_once row_cmp rows.items) }
{
    let mut kept: Vec<Row> = Vec::new(alloc);
    for row in rows {
        if !is_last(kept.as_slice(), &row) {
            kept.push(row)?;
        }
    }
    Ok(kept)
}

/// Whether the last of some rows is the same as this one.
fn is_last(rows: &[Row], row: &Row) -> bool
    ensures { result ≡ ends_in row_cmp rows.now row.now }
{
    match rows.last() {
        Some(last) => collate_rows(last, row).is_eq(),
        None => false,
    }
}
