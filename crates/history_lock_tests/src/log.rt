//! A list of events, each of which is the number of the party that it names.
ghost use Rattle.std.specs.Prelude.{◌≡◌, [], ◌∷◌, ◌++◌, length, MatchBool};

use history_lock::Chronicle;
use std::alloc::Global;

#[derive(Drop)]
pub(crate) struct Log {
    pub(crate) parties: Vec<u32>,
}

impl Chronicle for Log {
    ghost use Rattle.std.specs.Prelude.{Some};

    type Entry = u32;

    ghost events = { λ l. l.parties.items };

    ghost party = { λ p. Some p };

    fn count(&self) -> u64 {
        self.parties.len() as u64
    }
}

impl Log {
    pub(crate) fn new(alloc: Global) -> Log
        ensures { result.parties.items ≡ [] }
    {
        Log {
            parties: Vec::new(alloc),
        }
    }

    /// Adds an event of the party, or none where memory runs out. It says whether it did.
    pub(crate) fn add(&mut self, party: u32) -> bool
        ensures { MatchBool result (self.new.parties.items ≡ self.old.parties.items ++ party ∷ []) (self.new.parties.items ≡ self.old.parties.items) }
    {
        self.parties.push(party).is_ok()
    }

    pub(crate) fn count_of(&self, party: u32) -> usize {
        self.parties.iter().filter(|p| **p == party).count()
    }
}
