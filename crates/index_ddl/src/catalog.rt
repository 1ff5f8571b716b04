ghost use Rattle.std.specs.Prelude.{◌≡◌, ◌↔◌, ◌+◌, ◌<◌, Some, Err, IsNone, IfNone, IfSome, IfOk, IfErr, OnOk, OnErr, string_bytes, [], length, option_map, slice_get};
ghost use Rattle.std.specs.Option.{option_copied, option_map_or};
ghost use Rattle.std.specs.Arc.{arc_value};
ghost use Rattle.n1ql_value.specs.Limits.{max_indexes};
ghost use Rattle.index_def.specs.LiveIndexes.{named, numbered, without, in_state};
ghost use Rattle.index_def.specs.LiveIndexes as live;
ghost use Rattle.n1ql_value.specs.declared.state.State.TheVariants.{Building};
ghost use Rattle.index_ddl.specs.Catalogs as spec;
ghost use Rattle.index_ddl.specs.inner.Writes.{in_state_at, added_once};
ghost use Rattle.std.specs.List.{list_all};

use crate::fault::DdlFault;
use crate::live_index::LiveIndex;
use index_def::IndexDef;
use indexmap::IndexMap;
use n1ql_value::limits::MAX_INDEXES;
use n1ql_value::{ListOf, Memory, State, Text};
use std::alloc::Global;
use std::marker::Model;
use std::sync::Arc;

/// The live indexes by name, in order of creation, and the count of all that were created. Contracts see both.
#[derive(Drop)]
pub struct Catalog {
    by_name: IndexMap<String, LiveIndex>,
    made: u32,
}

impl Model for Catalog {
    ghost use Rattle.std.specs.Prelude.{◌≡◌, ◌≤◌, map, string_bytes};
    ghost use Rattle.indexmap.specs.IndexMap.{keys, values};
    ghost use Rattle.n1ql_value.specs.Limits.{max_indexes};
    ghost use Rattle.index_def.specs.LiveIndexes.{AreNumbered};
    ghost use Rattle.index_ddl.specs.Catalogs.{Indexes};

    ghost Value = { Indexes };

    ghost use Rattle.n1ql_value.specs.contracts.datum.Datum as datum;
    ghost use Rattle.n1ql_ast.specs.contracts.expr.Expr as expr;
    ghost use Rattle.std.specs.Coded.{codes};

    ghost coded = { Prim.hlevel (codes, datum.the_row.coded, expr.the_row.coded) };

    ghost view = { λ c. record { live = values c.by_name; made = c.made } };

    ghost invariant = { λ c. (map string_bytes (keys c.by_name) ≡ map (λ index. index.def.name) (values c.by_name)) × (c.made ≤ max_indexes) × AreNumbered 0 c.made (values c.by_name) };
}

impl Catalog {
    /// The catalog in which nothing was created yet.
    pub fn new(alloc: Global) -> Catalog
        ensures live { result.live ≡ [] }
        ensures made { result.made ≡ 0 }
    {
        Catalog {
            by_name: IndexMap::new(alloc),
            made: 0,
        }
    }

    /// How many indexes are live.
    pub fn len(&self) -> usize
        ensures { result ≡ length self.now.live }
    {
        self.by_name.len()
    }

    /// The live index at this place in order of creation.
    pub fn get(&self, at: usize) -> Option<&LiveIndex>
        ensures { option_copied result ≡ slice_get self.now.live at }
    {
        match self.by_name.get_index(at) {
            Some((_, index)) => Some(index),
            None => None,
        }
    }

    /// The live index of this name.
    pub fn named(&self, name: &str) -> Option<&LiveIndex>
        ensures { option_copied result ≡ named name.now self.now.live }
    {
        self.by_name.get(name)
    }

    /// The live index of this number.
    pub fn numbered(&self, number: u32) -> Option<&LiveIndex>
        ensures { option_copied result ≡ numbered number self.now.live }
    {
        for at in 0..self.len() {
            let index = self.get(at)?;
            if index.number() == number {
                return Some(index);
            }
        }
        None
    }

    /// The definition of the live index of this number. `None` exactly where no such index is live.
    pub fn live(&self, number: u32) -> Option<&IndexDef>
        ensures { option_copied result ≡ option_map (λ index. index.def) (numbered number self.now.live) }
    {
        match self.numbered(number) {
            Some(index) => Some(&**index.def()),
            None => None,
        }
    }

    /// The state of the live index of this number. `None` exactly where no such index is live.
    pub fn state(&self, number: u32) -> Option<State>
        ensures { result ≡ option_map (λ index. index.state) (numbered number self.now.live) }
    {
        match self.numbered(number) {
            Some(index) => Some(index.state()),
            None => None,
        }
    }

    /// The number of the live index of this name. `None` exactly where no such index is live.
    pub fn number_of(&self, name: &str) -> Option<u32>
        ensures { result ≡ option_map (λ index. index.number) (named name.now self.now.live) }
    {
        match self.named(name) {
            Some(index) => Some(index.number()),
            None => None,
        }
    }

    /// Puts a new index behind the others and answers its number, the count of creations before it. `deferred` tells whether its
    /// build waits for a BUILD INDEX.
    ///
    /// # Errors
    ///
    /// `Exists` exactly where a live index has its name, else `TooMany` exactly where sixteen were created before, dropped ones
    /// among them. `Memory` where it ran out. The catalog is then as before.
    pub fn create(&mut self, def: Arc<IndexDef>, deferred: bool) -> Result<u32, DdlFault>
        ensures refused { IfSome (spec.creation_fault (arc_value def).name self.old) (λ fault. result ≡ Err fault) }
        ensures accepted { IsNone (spec.creation_fault (arc_value def).name self.old) → IfErr result (λ fault. fault ≡ DdlFault.Memory) }
        ensures number { IfOk result (λ number. number ≡ self.old.made) }
        ensures created { OnOk result (self.new ≡ spec.with_index (arc_value def) (live.state_at_creation deferred) self.old) }
        ensures err { OnErr result (self.new ≡ self.old) }
    {
        if self.named(def.name.as_str()).is_some() {
            return Err(DdlFault::Exists);
        }
        if self.made as usize == MAX_INDEXES {
            return Err(DdlFault::TooMany);
        }
        let number = self.made;
        match self.push(def, state_at_creation(deferred)) {
            Ok(()) => Ok(number),
            Err(Memory) => Err(DdlFault::Memory),
        }
    }

    /// Takes the index of this name out, if there is one.
    fn take(&mut self, name: &str) -> Option<LiveIndex>
        ensures index { result ≡ named name.now self.old.live }
        ensures live { IfSome result (λ index. self.new.live ≡ without index.number self.old.live) }
        ensures made { self.new.made ≡ self.old.made }
        ensures none { IfNone result (self.new ≡ self.old) }
    {
        self.by_name.shift_remove(name)
    }

    /// Puts an index behind the others.
    fn push(&mut self, def: Arc<IndexDef>, state: State) -> Result<(), Memory>
        requires new { IsNone (named (arc_value def).name self.old.live) }
        requires room { self.old.made < max_indexes }
        ensures ok { OnOk result (self.new ≡ spec.with_index (arc_value def) state self.old) }
        ensures err { OnErr result (self.new ≡ self.old) }
    {
        let name = key_of(*self.by_name.allocator(), &def.name)?;
        let index = LiveIndex::new(self.made, def, state);
        self.by_name.insert(name, index)?;
        self.made += 1;
        Ok(())
    }

    /// Takes the index of this name out and answers its number. Those behind it move up, and its number isn't used again.
    ///
    /// # Errors
    ///
    /// `Unknown` exactly where no live index has the name; the catalog is then as before.
    pub fn remove(&mut self, name: &str) -> Result<u32, DdlFault>
        ensures number { IfOk result (λ number. option_map (λ index. index.number) (named name.now self.old.live) ≡ Some number) }
        ensures unknown { IfErr result (λ fault. (fault ≡ DdlFault.Unknown) × IsNone (named name.now self.old.live)) }
        ensures live { IfOk result (λ number. self.new.live ≡ without number self.old.live) }
        ensures made { self.new.made ≡ self.old.made }
        ensures err { OnErr result (self.new ≡ self.old) }
    {
        match self.take(name) {
            Some(index) => Ok(index.number()),
            None => Err(DdlFault::Unknown),
        }
    }

    /// Begins the build of the deferred indexes of these names and answers their numbers, each once, in the order in which they
    /// are first named.
    ///
    /// # Errors
    ///
    /// `Unknown` exactly where a name is that of no live index, else `NotDeferred` exactly where one of them isn't deferred.
    /// `Memory` where it ran out. The catalog is then as before.
    pub fn build(&mut self, names: &[Text]) -> Result<ListOf<u32>, DdlFault>
        ensures refused { IfSome (spec.build_fault names.now self.old.live) (λ fault. result ≡ Err fault) }
        ensures accepted { IsNone (spec.build_fault names.now self.old.live) → IfErr result (λ fault. fault ≡ DdlFault.Memory) }
        ensures numbers { IfOk result (λ numbers. numbers ≡ live.first_of_each (live.numbers_of names.now self.old.live)) }
        ensures live { IfOk result (λ numbers. self.new.live ≡ live.all_in_state numbers Building self.old.live) }
        ensures made { self.new.made ≡ self.old.made }
        ensures err { OnErr result (self.new ≡ self.old) }
    {
        if !self.are_live(names) {
            return Err(DdlFault::Unknown);
        }
        if !self.are_deferred(names) {
            return Err(DdlFault::NotDeferred);
        }
        match self.numbers_of(*self.by_name.allocator(), names) {
            Ok(numbers) => {
                self.begin_builds(numbers.as_slice());
                Ok(numbers)
            }
            Err(Memory) => Err(DdlFault::Memory),
        }
    }

    /// Puts the index of this number online, as its build has come to its end.
    pub fn go_online(&mut self, number: u32)
        requires { option_map (λ index. index.state) (numbered number self.old.live) ≡ Some State.Building }
        ensures live { self.new.live ≡ in_state number State.Online self.old.live }
        ensures made { self.new.made ≡ self.old.made }
    {
        self.set_state(number, State::Online);
    }

    /// Whether each name is that of a live index.
    fn are_live(&self, names: &[Text]) -> bool
        ensures { result ≡ list_all (live.is_live self.now.live) names.now }
    {
        for name in names {
            if self.named(name.as_str()).is_none() {
                return false;
            }
        }
        true
    }

    /// Whether each name is that of a deferred index.
    fn are_deferred(&self, names: &[Text]) -> bool
        ensures { result ≡ list_all (live.is_live_deferred self.now.live) names.now }
    {
        for name in names {
            if !self.is_deferred(name) {
                return false;
            }
        }
        true
    }

    /// Whether this is the name of a deferred index.
    fn is_deferred(&self, name: &Text) -> bool
        ensures { result ≡ live.is_live_deferred self.now.live name.now }
    {
        match self.named(name.as_str()) {
            Some(index) => matches!(index.state(), State::Deferred),
            None => false,
        }
    }

    /// The numbers of the indexes of these names, each once.
    fn numbers_of(&self, alloc: Global, names: &[Text]) -> Result<ListOf<u32>, Memory>
        ensures { IfOk result (λ numbers. numbers ≡ live.first_of_each (live.numbers_of names.now self.now.live)) }
    {
        let mut numbers = ListOf::new(alloc);
        for name in names {
            add_once(&mut numbers, self.number_of(name.as_str()))?;
        }
        Ok(numbers)
    }

    /// Puts the indexes of these numbers into the state of being built.
    fn begin_builds(&mut self, numbers: &[u32])
        ensures live { self.new.live ≡ live.all_in_state numbers.now Building self.old.live }
        ensures made { self.new.made ≡ self.old.made }
    {
        for number in numbers {
            self.set_state(*number, State::Building);
        }
    }

    /// Puts the index of this number into a state.
    fn set_state(&mut self, number: u32, state: State)
        ensures live { self.new.live ≡ in_state number state self.old.live }
        ensures made { self.new.made ≡ self.old.made }
    {
        if let Some(at) = self.place_of(number) {
            self.set_state_at(at, state);
        }
    }

    /// Puts the index at a place into a state.
    fn set_state_at(&mut self, at: usize, state: State)
        ensures live { self.new.live ≡ in_state_at at state self.old.live }
        ensures made { self.new.made ≡ self.old.made }
    {
        if let Some(index) = self.by_name.get_index_mut(at) {
            index.set_state(state);
        }
    }

    /// The place of the live index of this number.
    fn place_of(&self, number: u32) -> Option<usize>
        ensures found { IfSome result (λ at. (state : State) → in_state number state self.now.live ≡ in_state_at at state self.now.live) }
        ensures none { IfNone result ((state : State) → in_state number state self.now.live ≡ self.now.live) }
    {
        for at in 0..self.len() {
            let index = self.get(at)?;
            if index.number() == number {
                return Some(at);
            }
        }
        None
    }
}

/// Adds a number, if there is one and it isn't among those before.
fn add_once(numbers: &mut ListOf<u32>, number: Option<u32>) -> Result<(), Memory>
    ensures { OnOk result (numbers.new ≡ option_map_or (added_once numbers.old) number numbers.old) }
{
    match number {
        Some(number) => push_once(numbers, number),
        None => Ok(()),
    }
}

/// Adds a number that isn't among those before.
fn push_once(numbers: &mut ListOf<u32>, number: u32) -> Result<(), Memory>
    ensures { OnOk result (numbers.new ≡ added_once numbers.old number) }
{
    if numbers.as_slice().contains(&number) {
        return Ok(());
    }
    numbers.push(number)
}

/// The state of a new index.
fn state_at_creation(deferred: bool) -> State
    ensures { result ≡ live.state_at_creation deferred }
{
    if deferred {
        State::Deferred
    } else {
        State::Building
    }
}

/// The name of an index as the map keeps it.
fn key_of(alloc: Global, name: &Text) -> Result<String, Memory>
    ensures { IfOk result (λ key. string_bytes key ≡ name.now) }
{
    Ok(String::from_str(alloc, name.as_str())?)
}
