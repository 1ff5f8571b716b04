ghost use Rattle.std.specs.Prelude.{◌≡◌, None, Some, Ok, Err, IfOk, IfErr, MatchResult};
ghost use Rattle.n1ql_ast.specs.FormedSelections.{IsFormedSelect};
ghost use Rattle.n1ql_plan.specs.Plans as spec;
ghost use Rattle.n1ql_plan.specs.inner.Held.{held_of};

use crate::choice::{Choice, choose};
use crate::plan_fault::PlanFault;
use crate::query_plan::Plan;
use index_ddl::Catalog;
use n1ql_ast::Select;
use n1ql_spans::{spans_of, where_conjuncts};
use n1ql_value::{Memory, State, Text};
use std::alloc::Global;

/// The plan of a statement over the indexes of a catalog (N1QL reference, "Index selection" and "USE INDEX").
///
/// Of the online indexes that qualify, USE INDEX allows its index alone. One that covers the statement goes first, then one with
/// more keys that the statement's WHERE bounds, then the one that was created first.
///
/// # Errors
///
/// `Unknown` exactly where USE INDEX names no live index, else `NotOnline` exactly where that index isn't online, else `NoIndex`
/// exactly where no index that may answer the statement qualifies for it. `Memory` where it ran out.
pub fn plan(alloc: Global, q: &Select, catalog: &Catalog) -> Result<Plan, PlanFault>
    requires formed { IsFormedSelect q.now }
    ensures plan { IfOk result (λ plan. spec.plan_of q.now catalog.now.live ≡ Some plan) }
    ensures accepted { IfOk result (λ plan. spec.plan_fault q.now catalog.now.live ≡ None) }
    ensures refused { IfErr result (spec.IsRefusalOf q.now catalog.now.live) }
{
    if let Some(fault) = hint_fault(&q.hint, catalog) {
        return Err(fault);
    }
    match choose(alloc, q, catalog) {
        Ok(Some(choice)) => planned(plan_with(alloc, q, choice)),
        Ok(None) => Err(PlanFault::NoIndex),
        Err(_) => Err(PlanFault::Memory),
    }
}

/// What speaks against the index of USE INDEX.
fn hint_fault(hint: &Option<Text>, catalog: &Catalog) -> Option<PlanFault>
    ensures { result ≡ spec.hint_fault hint.now catalog.now.live }
{
    match hint {
        Some(name) => match catalog.named(name.as_str()) {
            Some(index) => match index.state() {
                State::Online => None,
                _ => Some(PlanFault::NotOnline),
            },
            None => Some(PlanFault::Unknown),
        },
        None => None,
    }
}

/// A plan, or want of memory as the planner's fault.
fn planned(plan: Result<Plan, Memory>) -> Result<Plan, PlanFault>
    ensures { MatchResult plan (λ plan. result ≡ Ok plan) (λ fault. result ≡ Err PlanFault.Memory) }
{
    match plan {
        Ok(plan) => Ok(plan),
        Err(_) => Err(PlanFault::Memory),
    }
}

/// The plan that reads this index.
fn plan_with(alloc: Global, q: &Select, choice: Choice<'_>) -> Result<Plan, Memory>
    requires formed { IsFormedSelect q.now }
    ensures { IfOk result (λ plan. plan ≡ spec.plan_with q.now (held_of choice.entry)) }
{
    let conjuncts = where_conjuncts(alloc, q)?;
    let spans = spans_of(alloc, &conjuncts, &**choice.index.def())?;
    Ok(Plan {
        index: choice.index.number(),
        spans,
        covered: choice.fit.covered,
        ordered: false,
    })
}
