ghost use Rattle.std.specs.Prelude.{◌≡◌};

use crate::why::Why;
use index_def::IndexDef;
use n1ql_value::ListOf;
use seq_vector::Vector;
use std::marker::Model;
use std::sync::Arc;
use vb_store::Mutation;

/// The numbers of indexes.
pub type Numbers = ListOf<u32>;

/// One thing that happens. `c` and `k` are a client and the place of its command, `i` is an index.
#[derive(Drop)]
pub enum Event {
    /// A document was put or deleted.
    Mutate {
        c: u32,
        k: u32,
        what: Arc<Mutation>,
    },
    /// An index was created; a deferred one waits for a BUILD INDEX.
    Define {
        c: u32,
        k: u32,
        i: u32,
        deferred: bool,
        def: Arc<IndexDef>,
    },
    /// The building of deferred indexes began.
    Build {
        c: u32,
        k: u32,
        indexes: Numbers,
    },
    /// The indexes that were built went online.
    Online {
        c: u32,
        k: u32,
        indexes: Numbers,
    },
    /// A snapshot of an index was published at a vector.
    Publish {
        i: u32,
        at: Arc<Vector>,
    },
    /// An index was dropped.
    Removed {
        c: u32,
        k: u32,
        i: u32,
    },
    /// A request began on an index, with the vector that its answer has to cover.
    Start {
        c: u32,
        k: u32,
        i: u32,
        demand: Vector,
    },
    /// A request was answered from the snapshot at a vector.
    Answer {
        c: u32,
        k: u32,
        at: Arc<Vector>,
    },
    /// The documents that a query needs were picked from the snapshot at a vector.
    Pick {
        c: u32,
        k: u32,
        at: Arc<Vector>,
    },
    /// They were fetched, as they stood at another vector, and the query was answered.
    Fetch {
        c: u32,
        k: u32,
        at: Arc<Vector>,
        fetched: Vector,
    },
    /// A request has no answer yet: the newest snapshot, at this vector, doesn't cover its demand.
    NotYet {
        c: u32,
        k: u32,
        have: Arc<Vector>,
    },
    /// A command was refused, with a code of `refusals`.
    Refuse {
        c: u32,
        k: u32,
        code: u8,
        why: Why,
    },
}

/// An event. Contracts see it with the values that it shares.
#[derive(Drop)]
pub struct Happened {
    event: Event,
}

impl Model for Happened {
    ghost use Rattle.scan_history.specs.Events.{Event};

    ghost Value = { Event };

    ghost use Rattle.n1ql_value.specs.contracts.datum.Datum as datum;
    ghost use Rattle.std.specs.Coded.{codes};
    ghost use Rattle.n1ql_ast.specs.contracts.expr.Expr as expr;

    ghost coded = { Prim.hlevel (codes, datum.the_row.coded, expr.the_row.coded) };

    ghost use Rattle.scan_history.specs.Happened.{event_of};

    ghost view = { λ h. event_of h.event };
}

impl Happened {
    ghost use Rattle.scan_history.specs.Happened.{event_of};

    /// The event, as it is seen.
    pub fn new(event: Event) -> Happened
        ensures { result ≡ event_of event }
    {
        Happened { event }
    }

    /// The event, to read.
    pub fn event(&self) -> &Event
        ensures { event_of result.now ≡ self.now }
    {
        &self.event
    }
}

/// A history: events in the order in which they happened.
pub type Events = ListOf<Happened>;
