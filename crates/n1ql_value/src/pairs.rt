ghost use Rattle.std.specs.Prelude.{◌≡◌, ◌==◌, ◌≤◌, false, [], length, map, IfOk, OnOk, OnErr, IsTrue};
ghost use Rattle.std.specs.Option.{option_map, option_copied};
ghost use Rattle.std.specs.List.{AllWithin};
ghost use Rattle.std.specs.Ordering.{nat_cmp, is_lt};
ghost use Rattle.std.specs.declared.cmp.Ordering.TheVariants.{Less};
ghost use Rattle.std.specs.Cmp.Lexicographic.{slice_cmp};
ghost use Rattle.n1ql_value.specs.Names.{NamesGrow, under_name, with_pair};
ghost use Rattle.n1ql_value.specs.inner.Places.{IsPlace, HasName, LacksName};
ghost use Rattle.n1ql_value.specs.Datum.{datum_of, pair_of};

use crate::memory::Memory;
use crate::text::Text;
use crate::value::Value;
use std::alloc::Global;
use std::marker::Model;

/// The pairs of an object, names in byte order and each once. Contracts see the list of pairs.
#[cycle(value)]
#[derive(Debug, Drop)]
pub struct Pairs {
    entries: Vec<(Text, Value)>,
}

impl Model for Pairs {
    ghost use Rattle.std.specs.Prelude.{List, ℕ, map};
    ghost use Rattle.n1ql_value.specs.declared.datum.Datum.{Datum};

    ghost Value = { List (List ℕ × Datum) };

    ghost use Rattle.n1ql_value.specs.contracts.datum.Datum as contracts;
    ghost use Rattle.std.specs.Coded.{codes};

    ghost coded = { Prim.hlevel (codes, contracts.the_row.coded) };

    ghost use Rattle.n1ql_value.specs.Datum.{datum_of, pair_of};
    ghost use Rattle.n1ql_value.specs.Depth.{largest, depth};
    ghost use Rattle.n1ql_value.specs.Names.{NamesGrow};

    ghost view = { λ a. map pair_of a.entries.items };

    ghost invariant = { λ a. NamesGrow (map pair_of a.entries.items) };

    ghost size = { λ ps. largest (map (λ p. depth p.1) ps) };

    ghost use Rattle.n1ql_value.specs.inner.ValueFalls.{most_le-pairs};

    ghost size_decreases = { λ a h. most_le-pairs a.entries.items };
}

impl Pairs {
    /// No pairs yet.
    pub fn new(alloc: Global) -> Pairs
        ensures { result ≡ [] }
    {
        Pairs {
            entries: Vec::new(alloc),
        }
    }

    /// How many pairs there are.
    pub fn len(&self) -> usize
        ensures { result ≡ length self.now }
    {
        self.entries.len()
    }

    /// Whether there are no pairs.
    pub fn is_empty(&self) -> bool
        ensures { result ≡ (length self.now == 0) }
    {
        self.entries.is_empty()
    }

    /// The value under a name, None where no pair has it.
    pub fn get(&self, name: &str) -> Option<&Value>
        ensures { option_map datum_of (option_copied result) ≡ under_name name.now self.now }
    {
        found(&self.entries, name)
    }

    /// The value under a name, taken out of the pairs, None where no pair has it.
    pub fn take(self, name: &str) -> Option<Value>
        ensures { option_map datum_of result ≡ under_name name.now self }
    {
        taken(self.entries, name)
    }

    /// Puts a value under a name: adds the pair, or replaces the value that was there.
    ///
    /// # Errors
    ///
    /// `Memory` where it ran out; the pairs are then as before.
    pub fn put(&mut self, name: Text, value: Value) -> Result<(), Memory>
        ensures ok { OnOk result (self.new ≡ with_pair name (datum_of value) self.old) }
        ensures err { OnErr result (self.new ≡ self.old) }
    {
        put_in(&mut self.entries, name, value)
    }

    /// The pairs, to go over.
    pub fn as_slice(&self) -> &[(Text, Value)]
        ensures pairs { map pair_of result.now ≡ self.now }
        ensures grow { NamesGrow self.now }
    {
        self.entries.as_slice()
    }

    /// A copy of the pairs.
    ///
    /// # Errors
    ///
    /// `Memory` where it ran out.
    #[cycle(copies)]
    pub fn copy(&self, alloc: Global) -> Result<Pairs, Memory>
        ensures { IfOk result (λ ps. ps ≡ self.now) }
    {
        let mut entries = Vec::with_capacity(alloc, self.entries.len())?;
        for (name, value) in &self.entries {
            entries.push((name.copy(alloc)?, value.copy(alloc)?))?;
        }
        Ok(Pairs { entries })
    }
}

/// The value under a name.
fn found<'a>(entries: &'a [(Text, Value)], name: &str) -> Option<&'a Value>
    requires { NamesGrow (map pair_of entries.now) }
    ensures { option_map datum_of (option_copied result) ≡ under_name name.now (map pair_of entries.now) }
{
    let at = place_of(entries, name);
    if has_name(entries, at, name) {
        Some(&entries[at].1)
    } else {
        None
    }
}

/// The value under a name, out of the pairs that hold it.
fn taken(mut entries: Vec<(Text, Value)>, name: &str) -> Option<Value>
    requires { NamesGrow (map pair_of entries.items) }
    ensures { option_map datum_of result ≡ under_name name.now (map pair_of entries.items) }
{
    let at = place_of(&entries, name);
    if has_name(&entries, at, name) {
        Some(entries.swap_remove(at).1)
    } else {
        None
    }
}

/// Puts a pair in its place.
fn put_in(entries: &mut Vec<(Text, Value)>, name: Text, value: Value) -> Result<(), Memory>
    requires { NamesGrow (map pair_of entries.old.items) }
    ensures ok { OnOk result (map pair_of entries.new.items ≡ with_pair name (datum_of value) (map pair_of entries.old.items)) }
    ensures err { OnErr result (entries.new.items ≡ entries.old.items) }
    ensures grow { NamesGrow (map pair_of entries.new.items) }
{
    let at = place_of(entries, name.as_str());
    if has_name(entries, at, name.as_str()) {
        entries[at] = (name, value);
    } else {
        entries.insert(at, (name, value))?;
    }
    Ok(())
}

/// Whether the pair at a place has the name.
fn has_name(entries: &[(Text, Value)], at: usize, name: &str) -> bool
    ensures same { IsTrue result → HasName entries.now at name.now }
    ensures other { result ≡ false → LacksName entries.now at name.now }
{
    at < entries.len() && entries[at].0.as_str() == name
}

/// How many of the pairs have names below this one: the place of the name.
fn place_of(entries: &[(Text, Value)], name: &str) -> usize
    requires { NamesGrow (map pair_of entries.now) }
    ensures { IsPlace entries.now name.now result }
{
    entries.partition_point(|entry| entry.0.as_str() < name)
}
