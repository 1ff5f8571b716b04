ghost use Rattle.std.specs.Prelude.{◌≡◌, length, IfOk, OnOk, OnErr};
ghost use Rattle.std.specs.FinMap as map;
ghost use Rattle.index_state.specs.RowsById.{with_rows, with_changes, all_rows};

use crate::change::Change;
use crate::held::{ById, enter_all, exchange_all, take_out};
use crate::put::{count_of, ready_all};
use index_tree::{Frozen, Tree};
use n1ql_value::{Memory, Rows, Text};
use std::alloc::Global;
use std::collections::BTreeMap;
use std::marker::Model;

/// The rows of an index. Contracts see the map from ids to their rows; an id without rows isn't in it.
#[derive(Drop)]
pub struct IndexState {
    by_id: ById,
    all: Tree,
    alloc: Global,
}

impl Model for IndexState {
    ghost use Rattle.std.specs.Prelude.{◌≡◌};
    ghost use Rattle.std.specs.FinMap as map;
    ghost use Rattle.std.specs.Coded.{coded_list, coded_ℕ};
    ghost use Rattle.n1ql_value.specs.contracts.row.Row as contracts;
    ghost use Rattle.index_state.specs.RowsById.{RowsById, all_rows};
    ghost use Rattle.index_state.specs.inner.Held.{held_by, filled};

    ghost Value = { RowsById };

    ghost coded = { map.code (coded_list coded_ℕ) (coded_list (contracts.the_row).coded) };

    ghost view = { λ s. filled (held_by s.by_id) };

    ghost invariant = { λ s. s.all.rows ≡ all_rows (held_by s.by_id) };
}

impl IndexState {
    /// No rows yet.
    pub fn new(alloc: Global) -> IndexState
        ensures { result ≡ map.empty }
    {
        IndexState {
            by_id: BTreeMap::new(alloc),
            all: Tree::new(alloc),
            alloc,
        }
    }

    /// How many rows there are.
    pub fn len(&self) -> u64
        ensures { result ≡ length (all_rows self.now) }
    {
        self.all.len()
    }

    /// Replaces the rows of the id, and no others. No rows take the id out.
    ///
    /// # Errors
    ///
    /// `Memory` where memory ran out; the state is then as before.
    pub fn put(&mut self, id: &Text, rows: Rows) -> Result<(), Memory>
        ensures ok { OnOk result (self.new ≡ with_rows self.old id.now rows) }
        ensures err { OnErr result (self.new ≡ self.old) }
    {
        let id = id.copy(self.alloc)?;
        let mut changes = Vec::new(self.alloc);
        changes.push(Change { id, rows })?;
        self.put_all(changes)
    }

    /// Replaces the rows of several ids, one behind the other: all of it, or after `Memory` none.
    ///
    /// # Errors
    ///
    /// `Memory` where memory ran out; the state is then as before.
    pub fn put_all(&mut self, changes: Vec<Change>) -> Result<(), Memory>
        ensures ok { OnOk result (self.new ≡ with_changes changes.items self.old) }
        ensures err { OnErr result (self.new ≡ self.old) }
    {
        let puts = ready_all(self.alloc, changes)?;
        let ids = Vec::with_capacity(self.alloc, puts.len())?;
        self.all.reserve(count_of(&puts)?)?;
        enter_all(self.alloc, &mut self.by_id, &puts)?;
        // From here on nothing fails.
        exchange_all(&mut self.by_id, &mut self.all, puts, ids);
        Ok(())
    }

    /// Takes the id and its rows out, and no others.
    ///
    /// # Errors
    ///
    /// None in this form of the state: it takes no memory.
    pub fn drop_id(&mut self, id: &Text) -> Result<(), Memory>
        ensures ok { OnOk result (self.new ≡ map.remove self.old id.now) }
        ensures err { OnErr result (self.new ≡ self.old) }
    {
        take_out(self.alloc, &mut self.by_id, &mut self.all, id);
        Ok(())
    }

    /// The rows of all ids, in order, as they stand.
    ///
    /// # Errors
    ///
    /// `Memory` where memory ran out.
    pub fn freeze(&self, alloc: Global) -> Result<Frozen, Memory>
        ensures { IfOk result (λ frozen. frozen ≡ all_rows self.now) }
    {
        self.all.freeze(alloc)
    }
}
