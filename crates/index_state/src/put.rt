ghost use Rattle.std.specs.Prelude.{◌≡◌, map, IfOk};
ghost use Rattle.std.specs.List.{All};
ghost use Rattle.index_state.specs.inner.Held.{change_of, count_in};

use crate::change::Change;
use index_tree::SharedRows;
use n1ql_value::{Memory, Text};
use std::alloc::Global;

// A change whose rows are ready: once for their id, and once for the rows of all ids.
#[derive(Drop)]
pub struct Put {
    pub id: Text,
    pub rows: SharedRows,
    pub again: SharedRows,
}

// Makes changes ready.
pub fn ready_all(alloc: Global, changes: Vec<Change>) -> Result<Vec<Put>, Memory>
    ensures same { IfOk result (λ puts. map change_of puts.items ≡ changes.items) }
    ensures alike { IfOk result (λ puts. All (λ p. p.again ≡ p.rows) puts.items) }
{
    let mut puts = Vec::with_capacity(alloc, changes.len())?;
    for change in changes {
        puts.push(ready(alloc, change)?)?;
    }
    Ok(puts)
}

// Makes a change ready.
fn ready(alloc: Global, change: Change) -> Result<Put, Memory>
    ensures same { IfOk result (λ p. change_of p ≡ change) }
    ensures alike { IfOk result (λ p. p.again ≡ p.rows) }
{
    let Change { id, rows } = change;
    let rows = SharedRows::of(alloc, rows)?;
    let again = rows.again(alloc)?;
    Ok(Put { id, rows, again })
}

// How many rows these put in. More than can be counted are more than memory holds.
pub fn count_of(puts: &[Put]) -> Result<usize, Memory>
    ensures { IfOk result (λ n. n ≡ count_in puts.now) }
{
    let mut count: usize = 0;
    for put in puts {
        count = count.checked_add(put.again.len()).ok_or(Memory)?;
    }
    Ok(count)
}
