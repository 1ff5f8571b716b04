ghost use Rattle.std.specs.Prelude.{◌≡◌, ◌↔◌, ◌+◌, ◌≤◌, [], length, IsTrue, IfOk, OnOk, OnErr, Contains};
ghost use Rattle.std.specs.Bool.{OnFalse};
ghost use Rattle.std.specs.List.Sorted.{IsSorted};
ghost use Rattle.n1ql_value.specs.Collation.{row_cmp};
ghost use Rattle.sorted_lists.specs.SortedLists.{insert_sorted, without_one, with_all, without_all};

use crate::frozen::Frozen;
use crate::places::{put_in, take_out};
use crate::shared::{SharedRows, put_all, share_again, take_all};
use n1ql_value::{Memory, Row};
use std::alloc::Global;
use std::marker::Model;
use std::sync::Arc;

/// The rows of an index in their order, each as often as it was put in. Contracts see the list, and how many more rows go in
/// without memory.
#[derive(Drop)]
pub struct Tree {
    rows: Vec<Arc<Row>>,
}

impl Model for Tree {
    ghost use Rattle.std.specs.Prelude.{◌-◌, vec_len, vec_capacity};
    ghost use Rattle.index_tree.specs.Trees.{TreeRows};

    ghost Value = { TreeRows };

    ghost use Rattle.n1ql_value.specs.contracts.row.Row as contracts;
    ghost use Rattle.std.specs.Coded.{codes};

    ghost coded = { Prim.hlevel (codes, (contracts.the_row).coded) };

    ghost use Rattle.std.specs.List.Sorted.{IsSorted};
    ghost use Rattle.n1ql_value.specs.Collation.{row_cmp};
    ghost use Rattle.index_tree.specs.inner.Shared.{rows_in};

    ghost view = { λ t. record { rows = rows_in t.rows.items; room = vec_capacity t.rows - vec_len t.rows } };

    ghost invariant = { λ t. IsSorted row_cmp (rows_in t.rows.items) };
}

impl Tree {
    /// No rows yet.
    pub fn new(alloc: Global) -> Tree
        ensures { result.rows ≡ [] }
    {
        Tree {
            rows: Vec::new(alloc),
        }
    }

    /// How many rows there are.
    pub fn len(&self) -> u64
        ensures { result ≡ length self.now.rows }
    {
        self.rows.len() as u64
    }

    /// Puts a row in its place.
    ///
    /// # Errors
    ///
    /// `Memory` where memory ran out; the rows are then as before.
    pub fn insert(&mut self, row: Row) -> Result<(), Memory>
        ensures ok { OnOk result (self.new.rows ≡ insert_sorted row_cmp row self.old.rows) }
        ensures err { OnErr result (self.new.rows ≡ self.old.rows) }
    {
        let shared = Arc::new(*self.rows.allocator(), row)?;
        put_in(&mut self.rows, shared)
    }

    /// Takes one occurrence of a row out. False where there is none, and then nothing changes.
    ///
    /// # Errors
    ///
    /// None in this form of the tree: the answer leaves room for one whose rows are shared with those that were frozen.
    pub fn remove(&mut self, row: &Row) -> Result<bool, Memory>
        ensures ok { OnOk result (self.new.rows ≡ without_one row_cmp row.now self.old.rows) }
        ensures found { IfOk result (λ found. IsTrue found ↔ Contains self.old.rows row.now) }
        ensures none { IfOk result (λ found. OnFalse found (self.new.rows ≡ self.old.rows)) }
        ensures err { OnErr result (self.new.rows ≡ self.old.rows) }
    {
        Ok(take_out(&mut self.rows, row))
    }

    /// Makes room for so many more rows.
    ///
    /// # Errors
    ///
    /// `Memory` where memory ran out.
    pub fn reserve(&mut self, more: usize) -> Result<(), Memory>
        ensures same { self.new.rows ≡ self.old.rows }
        ensures room { OnOk result (more ≤ self.new.room) }
    {
        self.rows.reserve(more)?;
        Ok(())
    }

    /// Takes one occurrence of each row of `out` out, where there is one, and puts each row of `rows` in, for which there is
    /// room. It takes no memory.
    pub fn replace(&mut self, out: &SharedRows, rows: SharedRows)
        requires { length rows ≤ self.old.room }
        ensures rows { self.new.rows ≡ with_all row_cmp rows (without_all row_cmp out.now self.old.rows) }
        ensures room { self.old.room ≤ self.new.room + length rows }
    {
        take_all(&mut self.rows, out.as_slice());
        put_all(&mut self.rows, rows.into_vec());
    }

    /// The list as it stands.
    ///
    /// # Errors
    ///
    /// `Memory` where memory ran out.
    pub fn freeze(&self, alloc: Global) -> Result<Frozen, Memory>
        ensures same { IfOk result (λ frozen. frozen ≡ self.now.rows) }
        ensures sorted { IsSorted row_cmp self.now.rows }
    {
        let rows = share_again(alloc, self.rows.as_slice())?;
        Ok(Frozen::of(rows))
    }
}
