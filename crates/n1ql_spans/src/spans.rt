//! The spans of an index.

ghost use Rattle.std.specs.Prelude.{◌≡◌, [], ◌∷◌, map, IfOk};
ghost use Rattle.std.specs.List.{All, fold, list_all};
ghost use Rattle.n1ql_ast.specs.Forms.{IsWellFormed};
ghost use Rattle.n1ql_spans.specs.RangeAlgebra as ranges;
ghost use Rattle.n1ql_spans.specs.Spans as spec;

use crate::key_bounds::bounds_of;
use crate::range_algebra::{Ranges, copy_range, free, hull, meets};
use index_def::IndexDef;
use n1ql_ast::{Expr, Key};
use n1ql_expr::Conjuncts;
use n1ql_value::{Memory, Range, Span, Spans};
use std::alloc::Global;

/// The spans of an index for the conjuncts of WHERE: one for each range of its leading key, in order, with the hull of the ranges of
/// each later key. There are none where some key has no range.
///
/// # Errors
///
/// `Memory` where memory ran out.
pub fn spans_of(alloc: Global, c: &Conjuncts, def: &IndexDef) -> Result<Spans, Memory>
    requires { All IsWellFormed c.now }
    ensures { IfOk result (λ spans. spans ≡ spec.spans_of c.now def.now) }
{
    let ranges = ranges_of_keys(alloc, c.as_slice(), def.keys.as_slice())?;
    if have_some(ranges.as_slice()) {
        spans_over(alloc, ranges.as_slice())
    } else {
        Ok(Spans::new(alloc))
    }
}

/// The ranges of each key.
fn ranges_of_keys(alloc: Global, conjuncts: &[Expr], keys: &[Key]) -> Result<Vec<Ranges>, Memory>
    requires { All IsWellFormed conjuncts.now }
    ensures { IfOk result (λ found. found.items ≡ map (spec.ranges_of conjuncts.now) keys.now) }
{
    let mut found = Vec::with_capacity(alloc, keys.len())?;
    for key in keys {
        found.push(ranges_of(alloc, conjuncts, key)?)?;
    }
    Ok(found)
}

/// What lies in a range of each bounding conjunct of a key.
fn ranges_of(alloc: Global, conjuncts: &[Expr], key: &Key) -> Result<Ranges, Memory>
    requires { All IsWellFormed conjuncts.now }
    ensures { IfOk result (λ found. found ≡ spec.ranges_of conjuncts.now key.now) }
{
    let bounds = bounds_of(alloc, conjuncts, key)?;
    in_all(alloc, bounds.as_slice())
}

/// What lies in a range of each list.
fn in_all(alloc: Global, bounds: &[Ranges]) -> Result<Ranges, Memory>
    ensures { IfOk result (λ found. found ≡ fold ranges.meets (ranges.free ∷ []) bounds.now) }
{
    let mut found = Ranges::new(alloc);
    found.push(free())?;
    for more in bounds {
        found = meets(alloc, found.as_slice(), more.as_slice())?;
    }
    Ok(found)
}

/// Whether each list has a range.
fn have_some(lists: &[Ranges]) -> bool
    ensures { result ≡ list_all spec.has_some lists.now }
{
    for list in lists {
        if !has_some(list) {
            return false;
        }
    }
    true
}

/// Whether a list has a range.
fn has_some(list: &Ranges) -> bool
    ensures { result ≡ spec.has_some list.now }
{
    !list.as_slice().is_empty()
}

/// The spans of the ranges of the leading key and of the later ones.
fn spans_over(alloc: Global, lists: &[Ranges]) -> Result<Spans, Memory>
    ensures { IfOk result (λ spans. spans ≡ spec.spans_over lists.now) }
{
    match lists.split_first() {
        Some((leading, later)) => {
            let hulls = hulls_of(alloc, later)?;
            spans_with(alloc, leading.as_slice(), hulls.as_slice())
        }
        None => Ok(Spans::new(alloc)),
    }
}

/// The hull of each list.
fn hulls_of(alloc: Global, lists: &[Ranges]) -> Result<Ranges, Memory>
    ensures { IfOk result (λ hulls. hulls ≡ map ranges.hull lists.now) }
{
    let mut hulls = Ranges::new(alloc);
    for list in lists {
        hulls.push(hull(alloc, list.as_slice())?)?;
    }
    Ok(hulls)
}

/// A span for each of the leading ranges, with the same later ones.
fn spans_with(alloc: Global, leading: &[Range], later: &[Range]) -> Result<Spans, Memory>
    ensures { IfOk result (λ spans. spans ≡ map (λ r. r ∷ later.now) leading.now) }
{
    let mut spans = Spans::new(alloc);
    for r in leading {
        spans.push(span(alloc, r, later)?)?;
    }
    Ok(spans)
}

/// The span of a leading range and later ones.
fn span(alloc: Global, leading: &Range, later: &[Range]) -> Result<Span, Memory>
    ensures { IfOk result (λ span. span ≡ leading.now ∷ later.now) }
{
    let mut span = Span::new(alloc);
    span.push(copy_range(alloc, leading)?)?;
    for r in later {
        span.push(copy_range(alloc, r)?)?;
    }
    Ok(span)
}
