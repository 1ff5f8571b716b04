// Where a row stands in a list in order, found by halving. Nothing here is done once for each row but the one shift.
ghost use Rattle.std.specs.Prelude.{◌≡◌, ◌<◌, ◌≤◌, ◌+◌, ◌↔◌, length, vec_len, vec_capacity, IsTrue, IsOk, OnOk, OnErr, Contains};
ghost use Rattle.std.specs.Bool.{OnFalse};
ghost use Rattle.std.specs.List.Sorted.{IsSorted};
ghost use Rattle.n1ql_value.specs.Collation.{row_cmp};
ghost use Rattle.sorted_lists.specs.SortedLists.{insert_sorted, without_one};
ghost use Rattle.index_tree.specs.inner.Shared.{rows_in, IsLowerBound};

use n1ql_value::{Memory, Row, collate_rows};
use std::sync::Arc;

// How many rows are below this one.
fn lower_bound(rows: &[Arc<Row>], row: &Row) -> usize
    requires { IsSorted row_cmp (rows_in rows.now) }
    ensures bound { result ≤ length rows.now }
    ensures point { IsLowerBound rows.now row.now result }
{
    rows.partition_point(|held| collate_rows(held, row).is_lt())
}

// Puts a row in its place.
pub fn put_in(rows: &mut Vec<Arc<Row>>, row: Arc<Row>) -> Result<(), Memory>
    requires { IsSorted row_cmp (rows_in rows.old.items) }
    ensures ok { OnOk result (rows_in rows.new.items ≡ insert_sorted row_cmp row.value (rows_in rows.old.items)) }
    ensures err { OnErr result (rows.new.items ≡ rows.old.items) }
    ensures sorted { IsSorted row_cmp (rows_in rows.new.items) }
    ensures room { vec_len rows.old < vec_capacity rows.old → IsOk result }
    ensures capacity { vec_capacity rows.old ≤ vec_capacity rows.new }
    ensures len { OnOk result (vec_len rows.new ≡ vec_len rows.old + 1) }
{
    let at = lower_bound(rows, &row);
    rows.insert(at, row)?;
    Ok(())
}

// Takes one occurrence of a row out, and says whether there was one.
pub fn take_out(rows: &mut Vec<Arc<Row>>, row: &Row) -> bool
    requires { IsSorted row_cmp (rows_in rows.old.items) }
    ensures rows { rows_in rows.new.items ≡ without_one row_cmp row.now (rows_in rows.old.items) }
    ensures found { IsTrue result ↔ Contains (rows_in rows.old.items) row.now }
    ensures unchanged { OnFalse result (rows.new.items ≡ rows.old.items) }
    ensures sorted { IsSorted row_cmp (rows_in rows.new.items) }
    ensures capacity { vec_capacity rows.new ≡ vec_capacity rows.old }
    ensures len { vec_len rows.new ≤ vec_len rows.old }
{
    let at = lower_bound(rows, row);
    if at < rows.len() && collate_rows(&rows[at], row).is_eq() {
        rows.remove(at);
        return true;
    }
    false
}
