//! The table that the threads share, and what a seat at it knows.
//! Word 0 is 1 while a turn is held. Word 1 is the number of events at the last `leave` that added any, or 2^64 - 1 after a `finish`.
//! Word 2 is 1 once `finish` was called. Nothing rests on words 1 and 2: they only wake who sleeps.
//! Slot 0 has the state while no turn is held.
use crate::chronicle::Chronicle;
use atomic_table::{Seat, Table, TableRule};
use std::alloc::Global;
use std::collections::LinkedList;
use std::marker::PhantomData;

/// What a pass or a note knows. No value of it is made.
pub struct View<E> {
    /// The number of the pass, or none for a note.
    pub party: Option<u32>,
    /// How many passes were made from this one.
    pub made: u32,
    pub seen: LinkedList<E>,
    /// Whether it holds the turn.
    pub turn: bool,
    /// The two lists of the last `learn`, first the pass's own.
    pub own: LinkedList<E>,
    pub told: LinkedList<E>,
}

/// The rule of the table: each view's list begins the state's list, and no event that it hadn't seen names its party.
pub struct Kept<S> {
    state: PhantomData<S>,
}

impl<S: Chronicle> TableRule<Option<S>, View<S::Entry>, ()> for Kept<S> {
    ghost use Rattle.history_lock.specs.Rule.{IsKept, first_view};

    ghost holds = { λ _. IsKept S.events S.party };

    ghost first = { λ _. first_view };
}

pub(crate) type Board<S> = Table<Option<S>, View<<S as Chronicle>::Entry>, (), Kept<S>, Global>;

pub(crate) type Place<S> = Seat<Option<S>, View<<S as Chronicle>::Entry>>;
