ghost use Rattle.std.specs.Prelude.{◌≡◌, ◌<◌, Bool, [], ◌∷◌, length, IfOk, OnErr};
ghost use Rattle.std.specs.Arc.{arc_value};
ghost use Rattle.index_def.specs.Forms.{IsFormed};
ghost use Rattle.n1ql_ast.specs.FormedStatements.{IsFormedCreate};
ghost use Rattle.scan_history.specs.First.{first_of_create, in_keyspace};
ghost use Rattle.gsi_hub.specs.Past.{state_of, part_in, high_in, IsAsBefore, Acted};
ghost use Rattle.gsi_hub.specs.Outcomes.{IsDefined};
ghost use Rattle.gsi_hub.specs.Snapshots.{IsNewest};
ghost use Rattle.gsi_hub.specs.inner.Definitions.{IsCreationOf, creation_of, answer_to, IsWorkOf};
ghost use Rattle.gsi_hub.specs.inner.Steps.{IsFirstEvent};
ghost use Rattle.index_def.specs.LiveIndexes.{Live};

use crate::creation::Creation;
use crate::defined::Defined;
use crate::hub::Hub;
use crate::known::known;
use crate::part::Work;
use crate::parts::define_at;
use index_def::{DefFault, IndexDef, check, is_build_deferred};
use index_snapshot::{IndexWorker, Snapshot};
use n1ql_ast::Create;
use n1ql_value::Memory;
use scan_history::refusals::{BAD_DEFINITION, KEYSPACE};
use scan_history::{Event, Happened, Numbers, Why};
use seq_vector::Vector;
use std::alloc::Global;
use std::sync::Arc;

impl Hub {
    /// Creates an index as a client's next command.
    pub(super) fn create(&mut self, c: u32, create: &Create) -> Result<Defined, Memory>
        requires client { c < self.old.script.clients }
        requires spare { 0 < self.old.spare }
        requires first { IsFirstEvent self.old c
            (in_keyspace self.old.script create.now.keyspace c (part_in self.old c).next (first_of_create (state_of self.old) c (part_in self.old c).next create.now)) }
        requires formed { IsFormedCreate create.now }
        ensures ok { IfOk result (λ defined. Acted c self.old self.new (IsDefined defined)) }
        ensures err { OnErr result (IsAsBefore self.old self.new) }
    {
        if !self.is_in_keyspace(&create.keyspace) {
            return Ok(self.refuse_statement(c, KEYSPACE, Why::Plain));
        }
        self.create_checked(c, create)
    }

    /// Creates it, unless there is a reason against it.
    fn create_checked(&mut self, c: u32, create: &Create) -> Result<Defined, Memory>
        requires client { c < self.old.script.clients }
        requires spare { 0 < self.old.spare }
        requires first { IsFirstEvent self.old c (first_of_create (state_of self.old) c (part_in self.old c).next create.now) }
        requires formed { IsFormedCreate create.now }
        ensures ok { IfOk result (λ defined. Acted c self.old self.new (IsDefined defined)) }
        ensures err { OnErr result (IsAsBefore self.old self.new) }
    {
        match check(self.alloc, create) {
            Ok(def) => self.create_index(c, def, is_build_deferred(create)),
            Err(DefFault::Bad(reason)) => {
                Ok(self.refuse_statement(c, BAD_DEFINITION, Why::Because(reason)))
            }
            Err(DefFault::Memory) => Err(Memory),
        }
    }

    /// Creates the index of a definition, unless its name is taken or as many were created as there may be.
    fn create_index(&mut self, c: u32, def: IndexDef, deferred: bool) -> Result<Defined, Memory>
        requires client { c < self.old.script.clients }
        requires spare { 0 < self.old.spare }
        requires first { IsFirstEvent self.old c (creation_of (state_of self.old) c (part_in self.old c).next def deferred) }
        requires formed { IsFormed def }
        ensures ok { IfOk result (λ defined. Acted c self.old self.new (IsDefined defined)) }
        ensures err { OnErr result (IsAsBefore self.old self.new) }
    {
        let creation = self.creation(def, deferred)?;
        self.create_prepared(c, creation, deferred)
    }

    /// The same with all that needs memory at hand.
    fn create_prepared(
        &mut self,
        c: u32,
        creation: Creation,
        deferred: bool,
    ) -> Result<Defined, Memory>
        requires client { c < self.old.script.clients }
        requires spare { 0 < self.old.spare }
        requires prepared { IsCreationOf self.old (arc_value creation.def) deferred creation }
        requires first { IsFirstEvent self.old c (creation_of (state_of self.old) c (part_in self.old c).next (arc_value creation.def) deferred) }
        requires formed { IsFormed (arc_value creation.def) }
        ensures ok { IfOk result (λ defined. Acted c self.old self.new (IsDefined defined)) }
        ensures err { OnErr result (IsAsBefore self.old self.new) }
    {
        known();
        let k = self.next_of(c);
        let Creation {
            def,
            shared,
            snapshot,
            work,
            answer,
        } = creation;
        self.newest.reserve(1)?;
        match self.catalog.create(shared, deferred) {
            Ok(i) => {
                self.newest.push_reserved(Some(snapshot));
                define_at(&mut self.parts, c as usize, work);
                self.events.push_reserved(Happened::new(Event::Define {
                    c,
                    k,
                    i,
                    deferred,
                    def,
                }));
                Ok(answer)
            }
            Err(fault) => self.refuse_for(c, fault),
        }
    }

    /// All that the creation of an index needs of memory.
    fn creation(&self, def: IndexDef, deferred: bool) -> Result<Creation, Memory>
        ensures { IfOk result (IsCreationOf self.now def deferred) }
    {
        known();
        let i = self.newest.len() as u32;
        let def = Arc::new(self.alloc, def)?;
        let snapshot = self.first_snapshot(i, &def)?;
        let work = self.first_work(i, deferred)?;
        let answer = answer_of(self.alloc, i, deferred)?;
        Ok(Creation {
            shared: Arc::try_clone(&def)?,
            def,
            snapshot,
            work,
            answer,
        })
    }

    /// The snapshot of a new index: the zero vector, and no rows.
    fn first_snapshot(&self, i: u32, def: &Arc<IndexDef>) -> Result<Arc<Snapshot>, Memory>
        requires { i ≡ length (state_of self.now).defs }
        ensures { IfOk result (λ s. (live : Live) → live.number ≡ i → live.def ≡ arc_value def.now → IsNewest self.now.script.vbuckets (state_of self.now) live (arc_value s)) }
    {
        known();
        vb_store::laws::start();
        let def = Arc::try_clone(def)?;
        let mut worker = IndexWorker::new(self.alloc, i, def, self.script.vbuckets)?;
        let snapshot = worker.snapshot()?;
        Ok(snapshot)
    }

    /// What is open for a client whose index is built; nothing where it is deferred.
    fn first_work(&self, i: u32, deferred: bool) -> Result<Option<Work>, Memory>
        ensures { IfOk result (IsWorkOf i (high_in self.now) deferred) }
    {
        if deferred {
            return Ok(None);
        }
        let indexes = one(self.alloc, i)?;
        let high = self.high().copy(self.alloc)?;
        Ok(Some(Work { indexes, high }))
    }
}

/// What is answered to a creation.
fn answer_of(alloc: Global, i: u32, deferred: bool) -> Result<Defined, Memory>
    ensures { IfOk result (λ answer. answer ≡ answer_to i deferred) }
{
    if deferred {
        Ok(Defined::Closed)
    } else {
        Ok(Defined::Building(one(alloc, i)?))
    }
}

/// The one number.
fn one(alloc: Global, i: u32) -> Result<Numbers, Memory>
    ensures { IfOk result (λ numbers. numbers ≡ i ∷ []) }
{
    let mut numbers = Numbers::new(alloc);
    numbers.push(i)?;
    Ok(numbers)
}
