ghost use Rattle.std.specs.Prelude.{◌≡◌, ◌+◌, ◌≤◌, [], length, vec_len, vec_capacity, IfOk};
ghost use Rattle.std.specs.List.Sorted.{IsSorted};
ghost use Rattle.n1ql_value.specs.Collation.{row_cmp};
ghost use Rattle.sorted_lists.specs.SortedLists.{with_all, without_all};
ghost use Rattle.index_tree.specs.inner.Shared.{rows_in};

use crate::places::{put_in, take_out};
use n1ql_value::{Memory, Row, Rows};
use std::alloc::Global;
use std::marker::Model;
use std::sync::Arc;

/// Rows that may stand in several places and are held once. Contracts see the list.
#[derive(Drop)]
pub struct SharedRows {
    rows: Vec<Arc<Row>>,
}

impl Model for SharedRows {
    ghost use Rattle.std.specs.Prelude.{List};
    ghost use Rattle.n1ql_value.specs.declared.row.Row.{Row};

    ghost Value = { List Row };

    ghost use Rattle.n1ql_value.specs.contracts.row.Row as contracts;
    ghost use Rattle.std.specs.Coded.{coded_list};

    ghost coded = { coded_list (contracts.the_row).coded };

    ghost use Rattle.index_tree.specs.inner.Shared.{rows_in};

    ghost view = { λ s. rows_in s.rows.items };
}

impl SharedRows {
    /// No rows.
    pub fn new(alloc: Global) -> SharedRows
        ensures { result ≡ [] }
    {
        SharedRows {
            rows: Vec::new(alloc),
        }
    }

    /// These rows, to be shared.
    ///
    /// # Errors
    ///
    /// `Memory` where memory ran out.
    pub fn of(alloc: Global, rows: Rows) -> Result<SharedRows, Memory>
        ensures { IfOk result (λ shared. shared ≡ rows) }
    {
        let rows = shared_of(alloc, rows.into_vec())?;
        Ok(SharedRows { rows })
    }

    /// The same rows once more. No row is copied.
    ///
    /// # Errors
    ///
    /// `Memory` where memory ran out.
    pub fn again(&self, alloc: Global) -> Result<SharedRows, Memory>
        ensures { IfOk result (λ shared. shared ≡ self.now) }
    {
        let rows = share_again(alloc, self.rows.as_slice())?;
        Ok(SharedRows { rows })
    }

    /// How many rows there are.
    pub fn len(&self) -> usize
        ensures { result ≡ length self.now }
    {
        self.rows.len()
    }

    pub(crate) fn as_slice(&self) -> &[Arc<Row>]
        ensures { rows_in result.now ≡ self.now }
    {
        self.rows.as_slice()
    }

    pub(crate) fn into_vec(self) -> Vec<Arc<Row>>
        ensures { rows_in result.items ≡ self }
    {
        let SharedRows { rows } = self;
        rows
    }
}

// Each row with an owner that can be shared.
fn shared_of(alloc: Global, rows: Vec<Row>) -> Result<Vec<Arc<Row>>, Memory>
    ensures { IfOk result (λ shared. rows_in shared.items ≡ rows.items) }
{
    let mut shared = Vec::with_capacity(alloc, rows.len())?;
    for row in rows {
        shared.push(Arc::new(alloc, row)?)?;
    }
    Ok(shared)
}

// The same rows once more.
pub(crate) fn share_again(alloc: Global, rows: &[Arc<Row>]) -> Result<Vec<Arc<Row>>, Memory>
    ensures { IfOk result (λ shared. rows_in shared.items ≡ rows_in rows.now) }
{
    let mut shared = Vec::with_capacity(alloc, rows.len())?;
    for row in rows {
        shared.push(Arc::try_clone(row)?)?;
    }
    Ok(shared)
}

// Takes one occurrence of each of these rows out, where there is one.
pub(crate) fn take_all(rows: &mut Vec<Arc<Row>>, out: &[Arc<Row>])
    requires { IsSorted row_cmp (rows_in rows.old.items) }
    ensures rows { rows_in rows.new.items ≡ without_all row_cmp (rows_in out.now) (rows_in rows.old.items) }
    ensures sorted { IsSorted row_cmp (rows_in rows.new.items) }
    ensures capacity { vec_capacity rows.new ≡ vec_capacity rows.old }
    ensures len { vec_len rows.new ≤ vec_len rows.old }
{
    for row in out {
        take_out(rows, row);
    }
}

// Puts each of these rows in its place, for which there is room.
pub(crate) fn put_all(rows: &mut Vec<Arc<Row>>, mut shared: Vec<Arc<Row>>)
    requires sorted { IsSorted row_cmp (rows_in rows.old.items) }
    requires room { vec_len rows.old + vec_len shared ≤ vec_capacity rows.old }
    ensures rows { rows_in rows.new.items ≡ with_all row_cmp (rows_in shared.items) (rows_in rows.old.items) }
    ensures sorted { IsSorted row_cmp (rows_in rows.new.items) }
    ensures len { vec_len rows.new ≡ vec_len rows.old + vec_len shared }
    ensures capacity { vec_capacity rows.old ≤ vec_capacity rows.new }
{
    while let Some(row) = shared.pop() {
        put_in(rows, row).unwrap();
    }
}
