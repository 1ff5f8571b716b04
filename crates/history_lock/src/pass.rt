//! A pass: what one party knows of the list, and during a turn the state.
ghost use Rattle.std.specs.Prelude.{◌≡◌, Some};

use crate::chronicle::Chronicle;
use crate::view::Place;

/// A party's pass. It has seen a beginning of the lock's list, and may hold the turn.
#[derive(Drop)]
pub struct Pass<S: Chronicle> {
    pub(crate) seat: Place<S>,
    pub(crate) party: u32,
    // How many passes were made from it.
    pub(crate) made: u32,
    // How many events it has seen.
    pub(crate) count: u64,
    // During a turn the lock's state.
    pub(crate) state: Option<S>,
}

impl<S: Chronicle + Drop> Pass<S> {
    ghost use Rattle.std.specs.Borrow.{sem};
    ghost use Rattle.history_lock.specs.Lending.{LendsState};
    ghost use Rattle.history_lock.specs.Passes.{HoldsTurn};

    /// The state, in a turn.
    pub fn state(&self) -> &S
        requires { HoldsTurn self.now }
        ensures { self.now.state ≡ Some result.now }
    {
        match &self.state {
            Some(state) => state,
            None => unreachable!(),
        }
    }

    /// The state, to add events to it in a turn.
    pub fn state_mut(&mut self) -> &mut S
        requires { HoldsTurn self.old }
        ensures* writes_back { sem 𝓛 (LendsState S.row S.Entry.row self.entry result) }
        ensures value { self.old.state ≡ Some result.now }
    {
        match &mut self.state {
            Some(state) => state,
            None => unreachable!(),
        }
    }
}
