use crate::event::Events;
use n1ql_value::{ListOf, State, Text};
use seq_vector::Vector;

/// The outcome of a script: its history, the texts of its answers in the order of their events, and how its indexes ended.
#[derive(Drop)]
pub struct Done {
    pub events: Events,
    pub answers: AnswerList,
    pub ends: EndList,
}

/// The answer to a command of a client.
#[derive(Drop)]
pub struct Answered {
    pub c: u32,
    pub k: u32,
    /// The rows as JSON; none where that text is too large.
    pub text: Option<ListOf<u8>>,
}

/// The answers of a history.
pub type AnswerList = ListOf<Answered>;

/// How an index ended.
#[derive(Drop)]
pub struct End {
    pub i: u32,
    pub name: Text,
    pub state: State,
    /// The vector of its newest snapshot.
    pub vector: Vector,
    /// How many rows that snapshot has.
    pub rows: u64,
}

/// The ends of the live indexes, by number.
pub type EndList = ListOf<End>;
