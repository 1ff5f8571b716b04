//! Rows of an index by the ids of their documents.

ghost use Rattle.std.specs.Prelude.{◌≡◌, IfOk};
ghost use Rattle.sorted_lists.specs.SortedLists.{sort_of};
ghost use Rattle.query_run.specs.inner.Runs as spec;

use n1ql_value::{Memory, Row, Rows, collate_rows};
use std::cmp::Ordering;

/// Rows by the ids of their documents, and those of one document in their order.
pub fn by_id(rows: Rows) -> Result<Rows, Memory>
    ensures { IfOk result (λ sorted. sorted ≡ sort_of spec.by_id rows) }
{
    n1ql_value::laws::order_of_rows_is_total();
    sorted_lists::laws::a_stable_sort_is_the_sort::<Row>();
    let mut rows = rows.into_vec();
    rows.sort_by(|a, b| compare(a, b))?;
    Ok(Rows::from_vec(rows))
}

/// The order of two rows: by the ids first.
fn compare(a: &Row, b: &Row) -> Ordering
    ensures { result ≡ spec.by_id a.now b.now }
{
    match a.id.cmp(&b.id) {
        Ordering::Equal => collate_rows(a, b),
        order => order,
    }
}
