ghost use Rattle.std.specs.Prelude.{◌≡◌};
ghost use Rattle.std.specs.Arc.{arc_value};
ghost use Rattle.index_def.specs.LiveIndexes.{with_state};

use index_def::IndexDef;
use n1ql_value::State;
use std::marker::Model;
use std::sync::Arc;

/// An index that was created and not dropped.
#[derive(Drop)]
pub struct LiveIndex {
    number: u32,
    def: Arc<IndexDef>,
    state: State,
}

impl Model for LiveIndex {
    ghost use Rattle.std.specs.Arc.{arc_value};
    ghost use Rattle.index_def.specs.LiveIndexes.{Live};

    ghost Value = { Live };

    ghost use Rattle.n1ql_value.specs.contracts.datum.Datum as datum;
    ghost use Rattle.n1ql_ast.specs.contracts.expr.Expr as expr;
    ghost use Rattle.std.specs.Coded.{codes};

    ghost coded = { Prim.hlevel (codes, datum.the_row.coded, expr.the_row.coded) };

    ghost view = { λ index. record { number = index.number; def = arc_value index.def; state = index.state } };
}

impl LiveIndex {
    pub(crate) fn new(number: u32, def: Arc<IndexDef>, state: State) -> LiveIndex
        ensures { result ≡ record { number = number; def = arc_value def; state = state } }
    {
        LiveIndex { number, def, state }
    }

    /// The number of its creation, from 0.
    pub fn number(&self) -> u32
        ensures { result ≡ self.now.number }
    {
        self.number
    }

    /// The definition, which its holders share.
    pub fn def(&self) -> &Arc<IndexDef>
        ensures { arc_value result.now ≡ self.now.def }
    {
        &self.def
    }

    /// How far its build has come.
    pub fn state(&self) -> State
        ensures { result ≡ self.now.state }
    {
        self.state
    }

    pub(crate) fn set_state(&mut self, state: State)
        ensures { self.new ≡ with_state state self.old }
    {
        self.state = state;
    }
}
