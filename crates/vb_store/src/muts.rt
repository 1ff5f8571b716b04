ghost use Rattle.std.specs.Prelude.{◌≡◌, ◌++◌, ◌∷◌, [], length, map, slice_get, IfOk, OnOk, OnErr};
ghost use Rattle.std.specs.Option.{option_map, option_copied};
ghost use Rattle.std.specs.Arc.{arc_value};

use crate::mutation::Mutation;
use n1ql_value::Memory;
use std::alloc::Global;
use std::marker::Model;
use std::sync::Arc;

/// A list of mutations. Contracts see the list.
#[derive(Drop)]
pub struct Muts {
    items: Vec<Arc<Mutation>>,
}

impl Model for Muts {
    ghost use Rattle.std.specs.Prelude.{List, map};
    ghost use Rattle.std.specs.Arc.{arc_value};
    ghost use Rattle.vb_store.specs.declared.mutation.Mutation.{Mutation};

    ghost Value = { List Mutation };

    ghost use Rattle.n1ql_value.specs.contracts.datum.Datum as datum;
    ghost use Rattle.std.specs.Coded.{codes};

    ghost coded = { Prim.hlevel (codes, datum.the_row.coded) };

    ghost view = { λ a. map arc_value a.items.items };
}

impl Muts {
    /// No mutations yet.
    pub fn new(alloc: Global) -> Muts
        ensures { result ≡ [] }
    {
        Muts {
            items: Vec::new(alloc),
        }
    }

    /// The same mutations in a list of their own.
    ///
    /// # Errors
    ///
    /// `Memory` where memory ran out.
    pub fn of(alloc: Global, mutations: &[Arc<Mutation>]) -> Result<Muts, Memory>
        ensures { IfOk result (λ ms. ms ≡ map arc_value mutations.now) }
    {
        let mut items = Vec::with_capacity(alloc, mutations.len())?;
        for mutation in mutations {
            items.push(Arc::try_clone(mutation)?)?;
        }
        Ok(Muts { items })
    }

    /// How many there are.
    pub fn len(&self) -> usize
        ensures { result ≡ length self.now }
    {
        self.items.len()
    }

    /// The mutation at an index from 0, `None` past the last.
    pub fn get(&self, at: usize) -> Option<&Arc<Mutation>>
        ensures { option_map arc_value (option_copied result) ≡ slice_get self.now at }
    {
        self.items.get(at)
    }

    /// The mutations, to go over.
    pub fn as_slice(&self) -> &[Arc<Mutation>]
        ensures { map arc_value result.now ≡ self.now }
    {
        self.items.as_slice()
    }

    /// Adds a mutation at the end.
    ///
    /// # Errors
    ///
    /// `Memory` where memory ran out; the list is then as before.
    pub fn push(&mut self, mutation: Arc<Mutation>) -> Result<(), Memory>
        ensures ok { OnOk result (self.new ≡ self.old ++ arc_value mutation ∷ []) }
        ensures err { OnErr result (self.new ≡ self.old) }
    {
        self.items.push(mutation)?;
        Ok(())
    }
}
