ghost use Rattle.std.specs.Prelude.{◌≡◌, ℕ, ◌<◌, ◌≤◌, length, OnOk, Some, option_map};
ghost use Rattle.std.specs.Option.{option_copied};
ghost use Rattle.std.specs.Arc.{arc_value};
ghost use Rattle.std.specs.List.{AllByRecursion};
ghost use Rattle.index_def.specs.Forms.{IsFormed};
ghost use Rattle.scan_history.specs.Legal.{IsLegal};
ghost use Rattle.scan_history.specs.Sound.{IsSound};
ghost use Rattle.gsi_hub.specs.Past.{state_of, part_in, next_command, high_in, IsAsBefore};
ghost use Rattle.gsi_hub.specs.Snapshots.{IsNewestOf};
ghost use Rattle.gsi_hub.specs.inner.Parts.{part_of};

use crate::newest::newest_in;
use crate::part::Part;
use index_ddl::Catalog;
use index_snapshot::Snapshot;
use n1ql_value::Memory;
use scan_history::{Command, Events, Happened, Script};
use seq_vector::Vector;
use std::alloc::Global;
use std::marker::Model;
use std::sync::Arc;
use vb_store::VbStore;
use vb_store::laws::high_counts;

mod begin;
mod build;
mod close;
mod create;
mod define;
mod ending;
mod held;
mod mutate;
mod new;
mod not_yet;
mod online;
mod pick;
mod publish;
mod refuse;
mod remove;
mod stage;
mod start;
mod take_pieces;

/// The locked state of a script's run. Contracts see the script, the events so far, and for how many more there is room.
#[derive(Drop)]
pub struct Hub {
    alloc: Global,
    script: Arc<Script>,
    store: VbStore,
    catalog: Catalog,
    newest: Vec<Option<Arc<Snapshot>>>,
    parts: Vec<Part>,
    events: Vec<Happened>,
}

impl Model for Hub {
    ghost use Rattle.std.specs.Prelude.{◌-◌, vec_len, vec_capacity};
    ghost use Rattle.std.specs.Arc.{arc_value};
    ghost use Rattle.gsi_hub.specs.Past.{Past};

    ghost Value = { Past };

    ghost use Rattle.n1ql_value.specs.contracts.datum.Datum as datum;
    ghost use Rattle.n1ql_ast.specs.contracts.expr.Expr as expr;
    ghost use Rattle.std.specs.Coded.{codes};

    ghost coded = { Prim.hlevel (codes, datum.the_row.coded, expr.the_row.coded) };

    ghost use Rattle.gsi_hub.specs.inner.Parts.{parts_of};
    ghost use Rattle.gsi_hub.specs.inner.Newest.{newest_of};
    ghost use Rattle.gsi_hub.specs.inner.Kept.{IsHub};

    ghost view = { λ h. record { script = arc_value h.script; events = h.events.items; spare = vec_capacity h.events - vec_len h.events } };

    ghost invariant = { λ h. IsHub (arc_value h.script) h.store h.catalog (newest_of h.newest.items) (parts_of h.parts.items) h.events.items };
}

impl Hub {
    /// Makes room for `n` more events.
    ///
    /// # Errors
    ///
    /// `Memory` where memory ran out; what happened is as before.
    pub fn reserve(&mut self, n: u64) -> Result<(), Memory>
        ensures room { OnOk result (n ≤ self.new.spare) }
        ensures same { IsAsBefore self.old self.new }
    {
        self.events.reserve(n as usize)?;
        Ok(())
    }

    /// The mutations of the events.
    pub fn store(&self) -> &VbStore
        ensures log { result.now.log ≡ (state_of self.now).log }
        ensures vbuckets { result.now.vbuckets ≡ self.now.script.vbuckets }
        ensures legal { IsLegal self.now.script self.now.events }
    {
        &self.store
    }

    /// The newest number of each vBucket.
    pub fn high(&self) -> &Vector
        ensures newest { result.now ≡ high_in self.now }
        ensures size { length result.now ≡ self.now.script.vbuckets }
    {
        high_counts();
        self.store.high()
    }

    /// The live indexes, with their names and states.
    pub fn catalog(&self) -> &Catalog
        ensures live { result.now.live ≡ (state_of self.now).live }
        ensures made { result.now.made ≡ length (state_of self.now).defs }
        ensures formed { AllByRecursion (λ index. IsFormed index.def) result.now.live }
    {
        &self.catalog
    }

    /// The newest snapshot of an index. `None` exactly where the index isn't live.
    pub fn newest(&self, i: u32) -> Option<&Arc<Snapshot>>
        ensures { IsNewestOf self.now i (option_map arc_value (option_copied result)) }
    {
        newest_in(&self.newest, i)
    }

    /// A client's next command. `None` where it has none left.
    pub fn command(&self, c: u32) -> Option<&Command>
        requires { c < self.now.script.clients }
        ensures { option_copied result ≡ next_command self.now c }
    {
        let commands = self.script.commands.get(c as usize)?;
        commands.get(self.next_of(c) as usize)
    }

    /// The events so far.
    pub fn events(&self) -> &[Happened]
        ensures { result.now ≡ self.now.events }
    {
        self.events.as_slice()
    }

    /// The history.
    pub fn into_events(self) -> Events
        ensures events { result ≡ self.events }
        ensures legal { IsLegal self.script self.events }
    {
        let Hub { events, .. } = self;
        Events::from_vec(events)
    }

    /// The script is sound, and the events are legal for it.
    fn told(&self)
        ensures sound { IsSound self.now.script }
        ensures legal { IsLegal self.now.script self.now.events }
    {
        let _script = &self.script;
    }

    /// A client's part.
    fn part(&self, c: u32) -> &Part
        requires { c < self.now.script.clients }
        ensures { part_of result.now ≡ part_in self.now c }
    {
        &self.parts[c as usize]
    }

    /// The place of a client's next command.
    fn next_of(&self, c: u32) -> u32
        requires { c < self.now.script.clients }
        ensures { result ≡ (part_in self.now c).next }
    {
        self.part(c).next
    }
}
