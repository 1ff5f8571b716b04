//! Whether an index can serve a statement, and how well.

ghost use Rattle.std.specs.Prelude.{◌≡◌, false, not, ◌||◌, length, slice_get, IfOk, IfSome};
ghost use Rattle.std.specs.List.{All, filter, list_all};
ghost use Rattle.std.specs.Option.{option_map_or};
ghost use Rattle.n1ql_ast.specs.Conjunction as conjunction;
ghost use Rattle.n1ql_ast.specs.FormedSelections.{IsFormedSelect};
ghost use Rattle.n1ql_ast.specs.Forms.{IsWellFormed};
ghost use Rattle.index_def.specs.Reasons as reasons;
ghost use Rattle.n1ql_spans.specs.Fits as spec;

use crate::fits::Fit;
use crate::key_bounds::bounds_of;
use crate::operands::{are_among, conjuncts_in};
use crate::statement::{covers, is_array};
use index_def::IndexDef;
use n1ql_ast::{Expr, Key, Select};
use n1ql_expr::Conjuncts;
use n1ql_value::Memory;
use std::alloc::Global;

/// How well an index serves a statement, None exactly where it doesn't qualify.
///
/// An index qualifies where the statement's WHERE has each conjunct of its filter and a bounding conjunct of its leading key, and one of
/// each array key. A primary index always does.
///
/// # Errors
///
/// `Memory` where memory ran out.
pub fn fit(alloc: Global, q: &Select, def: &IndexDef) -> Result<Option<Fit>, Memory>
    requires { IsFormedSelect q.now }
    ensures { IfOk result (λ found. found ≡ spec.fit_of q.now def.now) }
{
    let conjuncts = where_conjuncts(alloc, q)?;
    if qualifies(alloc, conjuncts.as_slice(), def)? {
        let ranged = count_bounded(alloc, conjuncts.as_slice(), def.keys.as_slice())?;
        let covered = covers(conjuncts.as_slice(), q, def);
        Ok(Some(Fit { covered, ranged }))
    } else {
        Ok(None)
    }
}

/// The conjuncts of a statement's WHERE, in order, none where there is no WHERE.
///
/// # Errors
///
/// `Memory` where memory ran out.
pub fn where_conjuncts(alloc: Global, q: &Select) -> Result<Conjuncts, Memory>
    requires { IsFormedSelect q.now }
    ensures whole { IfOk result (λ es. es ≡ conjunction.conjuncts_in q.now.filter) }
    ensures formed { IfOk result (λ es. All IsWellFormed es) }
{
    conjuncts_in(alloc, &q.filter)
}

/// Whether an index qualifies for these conjuncts.
fn qualifies(alloc: Global, conjuncts: &[Expr], def: &IndexDef) -> Result<bool, Memory>
    requires { All IsWellFormed conjuncts.now }
    ensures { IfOk result (λ b. b ≡ spec.qualifies conjuncts.now def.now) }
{
    if def.primary {
        return Ok(true);
    }
    if !are_among(conjuncts, def.filter.as_slice()) {
        return Ok(false);
    }
    let keys = def.keys.as_slice();
    if !is_leading_bounded(alloc, conjuncts, keys)? {
        return Ok(false);
    }
    are_arrays_bounded(alloc, conjuncts, keys)
}

/// Whether some conjunct bounds the leading key.
fn is_leading_bounded(alloc: Global, conjuncts: &[Expr], keys: &[Key]) -> Result<bool, Memory>
    requires { All IsWellFormed conjuncts.now }
    ensures { IfOk result (λ b. b ≡ option_map_or (spec.is_bounded conjuncts.now) (slice_get keys.now 0) false) }
{
    match keys.first() {
        Some(key) => is_bounded(alloc, conjuncts, key),
        None => Ok(false),
    }
}

/// Whether some conjunct bounds each array key.
fn are_arrays_bounded(alloc: Global, conjuncts: &[Expr], keys: &[Key]) -> Result<bool, Memory>
    requires { All IsWellFormed conjuncts.now }
    ensures { IfOk result (λ b. b ≡ list_all (λ key. not (reasons.is_array key) || spec.is_bounded conjuncts.now key) keys.now) }
{
    for key in keys {
        if is_array(key) && !is_bounded(alloc, conjuncts, key)? {
            return Ok(false);
        }
    }
    Ok(true)
}

/// How many keys some conjunct bounds.
fn count_bounded(alloc: Global, conjuncts: &[Expr], keys: &[Key]) -> Result<usize, Memory>
    requires { All IsWellFormed conjuncts.now }
    ensures { IfOk result (λ n. n ≡ length (filter (spec.is_bounded conjuncts.now) keys.now)) }
{
    let mut count = 0;
    for key in keys {
        if is_bounded(alloc, conjuncts, key)? {
            count += 1;
        }
    }
    Ok(count)
}

/// Whether some conjunct bounds a key.
fn is_bounded(alloc: Global, conjuncts: &[Expr], key: &Key) -> Result<bool, Memory>
    requires { All IsWellFormed conjuncts.now }
    ensures { IfOk result (λ b. b ≡ spec.is_bounded conjuncts.now key.now) }
{
    Ok(!bounds_of(alloc, conjuncts, key)?.is_empty())
}
