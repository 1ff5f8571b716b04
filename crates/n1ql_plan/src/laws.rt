//! The law of plans: the contract of a function that does nothing.

ghost use Rattle.std.specs.Prelude.{◌≡◌, ℕ, List, Some, slice_get};
ghost use Rattle.n1ql_ast.specs.declared.expr.Expr.{Expr};
ghost use Rattle.n1ql_ast.specs.declared.selection.Selection.{Selection};
ghost use Rattle.index_def.specs.LiveIndexes.{Live};
ghost use Rattle.n1ql_plan.specs.declared.query_plan.Plan.{Plan};
ghost use Rattle.n1ql_plan.specs.Planned.{IsPlanOn};
ghost use Rattle.n1ql_plan.specs.Plans.{plan_of};

/// A plan reads one of the live indexes, which is online and qualifies for the statement.
pub fn a_plan_reads_an_index_that_qualifies()
    ensures { (q : Selection Expr) (live : List Live) (plan : Plan) → plan_of q live ≡ Some plan
        → (index : Live) × ((at : ℕ) × (slice_get live at ≡ Some index)) × IsPlanOn q plan index }
{}
