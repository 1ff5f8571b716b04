// The two halves of a state, changed together: the rows of each id, and the rows of all ids in their order.
ghost use Rattle.std.specs.Prelude.{◌≡◌, ◌+◌, ◌≤◌, ℕ, List, length, map as map_list, OnOk};
ghost use Rattle.std.specs.List.{All};
ghost use Rattle.std.specs.FinMap as map;
ghost use Rattle.index_state.specs.RowsById.{with_changes, all_rows};
ghost use Rattle.index_state.specs.inner.Held.{held_by, filled, Has, change_of, count_in};

use crate::put::Put;
use index_tree::{SharedRows, Tree};
use n1ql_value::{Memory, Text};
use std::alloc::Global;
use std::collections::BTreeMap;
use std::mem;

pub type ById = BTreeMap<Text, SharedRows>;

// Makes a place for the rows of an id, where there is none. To hold no rows is the same as not to be there.
fn enter(alloc: Global, by_id: &mut ById, id: &Text) -> Result<(), Memory>
    ensures same { filled (held_by by_id.new) ≡ filled (held_by by_id.old) }
    ensures kept { (q : List ℕ) → Has by_id.old q → Has by_id.new q }
    ensures there { OnOk result (Has by_id.new id.now) }
{
    if !by_id.contains_key(id) {
        by_id.insert(id.copy(alloc)?, SharedRows::new(alloc))?;
    }
    Ok(())
}

// The same for each of the puts. Places that are left where memory runs out count for nothing, and serve the next put.
pub fn enter_all(alloc: Global, by_id: &mut ById, puts: &[Put]) -> Result<(), Memory>
    ensures same { filled (held_by by_id.new) ≡ filled (held_by by_id.old) }
    ensures there { OnOk result (All (λ p. Has by_id.new p.id) puts.now) }
{
    for put in puts {
        enter(alloc, by_id, &put.id)?;
    }
    Ok(())
}

// Takes an id out that holds no rows.
fn leave(by_id: &mut ById, id: &Text)
    ensures { filled (held_by by_id.new) ≡ filled (held_by by_id.old) }
{
    if let Some(rows) = by_id.get(id) {
        if rows.len() == 0 {
            by_id.remove(id);
        }
    }
}

// Takes those of the ids out that hold no rows.
fn leave_all(by_id: &mut ById, ids: &[Text])
    ensures { filled (held_by by_id.new) ≡ filled (held_by by_id.old) }
{
    for id in ids {
        leave(by_id, id);
    }
}

// Puts rows in place of those that the id holds, for which there are a place and room.
fn exchange(by_id: &mut ById, all: &mut Tree, id: &Text, rows: SharedRows, again: SharedRows)
    requires both { all.old.rows ≡ all_rows (held_by by_id.old) }
    requires there { Has by_id.old id.now }
    requires alike { again ≡ rows }
    requires room { length again ≤ all.old.room }
    ensures put { held_by by_id.new ≡ map.insert (held_by by_id.old) id.now rows }
    ensures both { all.new.rows ≡ all_rows (held_by by_id.new) }
    ensures kept { (q : List ℕ) → Has by_id.old q → Has by_id.new q }
    ensures room { all.old.room ≤ all.new.room + length again }
{
    if let Some(held) = by_id.get_mut(id) {
        let old = mem::replace(held, rows);
        all.replace(&old, again);
    }
}

// The same for each of the puts, one behind the other. The ids that end without rows go.
pub fn exchange_all(by_id: &mut ById, all: &mut Tree, puts: Vec<Put>, mut ids: Vec<Text>)
    requires both { all.old.rows ≡ all_rows (held_by by_id.old) }
    requires there { All (λ p. Has by_id.old p.id) puts.items }
    requires alike { All (λ p. p.again ≡ p.rows) puts.items }
    requires room { count_in puts.items ≤ all.old.room }
    ensures put { filled (held_by by_id.new) ≡ with_changes (map_list change_of puts.items) (filled (held_by by_id.old)) }
    ensures both { all.new.rows ≡ all_rows (held_by by_id.new) }
{
    for put in puts {
        let Put { id, rows, again } = put;
        exchange(by_id, all, &id, rows, again);
        keep(&mut ids, id);
    }
    leave_all(by_id, &ids);
}

// One more id, for which there is room. One without rows that stayed in the map would count for nothing.
fn keep(ids: &mut Vec<Text>, id: Text) {
    let _ = ids.push(id);
}

// Takes the id and its rows out.
pub fn take_out(alloc: Global, by_id: &mut ById, all: &mut Tree, id: &Text)
    requires { all.old.rows ≡ all_rows (held_by by_id.old) }
    ensures gone { held_by by_id.new ≡ map.remove (held_by by_id.old) id.now }
    ensures both { all.new.rows ≡ all_rows (held_by by_id.new) }
{
    if let Some(old) = by_id.remove(id) {
        all.replace(&old, SharedRows::new(alloc));
    }
}
