ghost use Rattle.std.specs.Prelude.{◌≡◌, ◌==◌, ◌++◌, ◌∷◌, [], length, slice_get, slice_index_or, map, IfOk, OnOk, OnErr};
ghost use Rattle.std.specs.Option.{option_map, option_copied};

use crate::memory::Memory;
use crate::value::Value;
use std::alloc::Global;
use std::marker::Model;

/// A list of values. Contracts see the list.
#[cycle(value)]
#[derive(Debug, Drop)]
pub struct Vals {
    items: Vec<Value>,
}

impl Model for Vals {
    ghost use Rattle.std.specs.Prelude.{List, map};
    ghost use Rattle.n1ql_value.specs.declared.datum.Datum.{Datum};

    ghost Value = { List Datum };

    ghost use Rattle.n1ql_value.specs.contracts.datum.Datum as contracts;
    ghost use Rattle.std.specs.Coded.{codes};

    ghost coded = { Prim.hlevel (codes, contracts.the_row.coded) };

    ghost use Rattle.n1ql_value.specs.Datum.{datum_of};
    ghost use Rattle.n1ql_value.specs.Depth.{largest, depth};

    ghost view = { λ a. map datum_of a.items.items };

    ghost size = { λ ds. largest (map depth ds) };

    ghost use Rattle.n1ql_value.specs.inner.ValueFalls.{most_le-items};

    ghost size_decreases = { λ a h. most_le-items a.items.items };
}

impl Vals {
    ghost use Rattle.n1ql_value.specs.Datum.{datum_of};

    /// No values yet.
    pub fn new(alloc: Global) -> Vals
        ensures { result ≡ [] }
    {
        Vals {
            items: Vec::new(alloc),
        }
    }

    /// How many values there are.
    pub fn len(&self) -> usize
        ensures { result ≡ length self.now }
    {
        self.items.len()
    }

    /// Whether there are no values.
    pub fn is_empty(&self) -> bool
        ensures { result ≡ (length self.now == 0) }
    {
        self.items.is_empty()
    }

    /// The value at a place from 0, None past the last.
    pub fn get(&self, at: usize) -> Option<&Value>
        ensures { option_map datum_of (option_copied result) ≡ slice_get self.now at }
    {
        self.items.get(at)
    }

    /// The value at a place from 0, and past the last another one.
    pub fn get_or<'a>(&'a self, at: usize, other: &'a Value) -> &'a Value
        ensures { datum_of result.now ≡ slice_index_or self.now at (datum_of other.now) }
    {
        self.items.get(at).unwrap_or(other)
    }

    /// The values, to go over.
    pub fn as_slice(&self) -> &[Value]
        ensures { map datum_of result.now ≡ self.now }
    {
        self.items.as_slice()
    }

    /// Adds a value at the end.
    ///
    /// # Errors
    ///
    /// `Memory` where it ran out; the list is then as before.
    pub fn push(&mut self, value: Value) -> Result<(), Memory>
        ensures ok { OnOk result (self.new ≡ self.old ++ datum_of value ∷ []) }
        ensures err { OnErr result (self.new ≡ self.old) }
    {
        self.items.push(value)?;
        Ok(())
    }

    /// A copy of the values.
    ///
    /// # Errors
    ///
    /// `Memory` where it ran out.
    #[cycle(copies)]
    pub fn copy(&self, alloc: Global) -> Result<Vals, Memory>
        ensures { IfOk result (λ vs. vs ≡ self.now) }
    {
        let mut items = Vec::with_capacity(alloc, self.items.len())?;
        for item in &self.items {
            items.push(item.copy(alloc)?)?;
        }
        Ok(Vals { items })
    }
}
