ghost use Rattle.std.specs.Prelude.{◌≡◌, IfOk, Some};
ghost use Rattle.std.specs.Ordering.{is_gt};
ghost use Rattle.n1ql_ast.specs.FormedSelections.{IsFormedSelect};
ghost use Rattle.n1ql_spans.specs.Choice.{candidate_cmp, choice_of};
ghost use Rattle.n1ql_spans.specs.Choice as choice;
ghost use Rattle.n1ql_plan.specs.Plans as spec;
ghost use Rattle.n1ql_plan.specs.inner.Held.{held_of, held_in, candidate_in, better_of};

use index_ddl::{Catalog, LiveIndex};
use index_def::IndexDef;
use n1ql_ast::Select;
use n1ql_spans::{Fit, fit, has_array};
use n1ql_value::{Memory, State};
use std::alloc::Global;

/// An index that qualifies for a statement.
#[derive(Drop)]
pub(crate) struct Choice<'a> {
    pub(crate) index: &'a LiveIndex,
    pub(crate) fit: Fit,
}

/// Of the indexes that may serve the statement and qualify, the one that goes first.
#[tactic(auto, using(crate::proofs::Choices::choice_before, crate::proofs::Choices::choice_past_all))]
pub(crate) fn choose<'a>(
    alloc: Global,
    q: &Select,
    catalog: &'a Catalog,
) -> Result<Option<Choice<'a>>, Memory>
    requires formed { IsFormedSelect q.now }
    ensures { IfOk result (λ best. held_in best ≡ choice_of q.now (spec.serving catalog.now.live)) }
{
    let mut best = None;
    for at in (0..catalog.len()).rev() {
        if let Some(index) = catalog.get(at) {
            best = better(candidate(alloc, q, index)?, best);
        }
    }
    Ok(best)
}

/// The index by itself, where it may serve the statement and qualifies.
fn candidate<'a>(
    alloc: Global,
    q: &Select,
    index: &'a LiveIndex,
) -> Result<Option<Choice<'a>>, Memory>
    requires formed { IsFormedSelect q.now }
    ensures { IfOk result (λ found. held_in found ≡ candidate_in q.now index.now) }
{
    let def = &**index.def();
    if !may_serve(index) || !is_allowed(q, def) {
        return Ok(None);
    }
    match fit(alloc, q, def)? {
        Some(fit) => Ok(Some(Choice { index, fit })),
        None => Ok(None),
    }
}

/// The one that goes first, or the one that there is.
fn better<'a>(one: Option<Choice<'a>>, rest: Option<Choice<'a>>) -> Option<Choice<'a>>
    ensures { held_in result ≡ better_of (held_in one.entry) (held_in rest.entry) }
{
    match (one, rest) {
        (Some(one), Some(rest)) => Some(first_of(one, rest)),
        (Some(one), None) => Some(one),
        (None, rest) => rest,
    }
}

/// The one of two that goes first.
fn first_of<'a>(one: Choice<'a>, other: Choice<'a>) -> Choice<'a>
    ensures { Some (held_of result) ≡ better_of (Some (held_of one.entry)) (Some (held_of other.entry)) }
{
    if is_behind(&one, &other) { other } else { one }
}

/// Whether the one goes behind the other.
fn is_behind(one: &Choice<'_>, other: &Choice<'_>) -> bool
    ensures { result ≡ is_gt (candidate_cmp (held_of one.now) (held_of other.now)) }
{
    if one.fit.covered != other.fit.covered {
        return other.fit.covered;
    }
    if one.fit.ranged != other.fit.ranged {
        return one.fit.ranged < other.fit.ranged;
    }
    one.index.number() > other.index.number()
}

/// Whether the index has part in the choice.
fn may_serve(index: &LiveIndex) -> bool
    ensures { result ≡ spec.may_serve index.now }
{
    matches!(index.state(), State::Online) && !has_array(index.def().keys.as_slice())
}

/// Whether USE INDEX lets this index be chosen.
fn is_allowed(q: &Select, def: &IndexDef) -> bool
    ensures { result ≡ choice.is_allowed q.now def.now }
{
    match &q.hint {
        Some(name) => def.name.as_str() == name.as_str(),
        None => true,
    }
}
