//! The ranges in which a conjunct keeps the value of a key.

ghost use Rattle.std.specs.Prelude.{◌≡◌, [], ◌∷◌, IfOk, if◌then◌else◌};
ghost use Rattle.n1ql_ast.specs.declared.expr.Expr.{out-Expr};
ghost use Rattle.n1ql_ast.specs.declared.expr.Expr.TheOpen.{Expr-F};
ghost use Rattle.n1ql_ast.specs.Forms.{IsWellFormed};
ghost use Rattle.n1ql_spans.specs.Bounding as spec;

use crate::among::{point, points_among};
use crate::constant::{constant_value, is_constant};
use crate::range_algebra::Ranges;
use n1ql_ast::{Expr, Test};
use n1ql_expr::same;
use n1ql_value::{Memory, Op, Range, Value, is_valued};
use std::alloc::Global;

/// The ranges of a conjunct `c` that bounds the key `e`: none of them where no value of the key makes it TRUE. None where it is no
/// bounding conjunct.
///
/// # Errors
///
/// `Memory` where memory ran out.
pub fn ranges_of_conjunct(alloc: Global, e: &Expr, c: &Expr) -> Result<Option<Ranges>, Memory>
    requires { IsWellFormed c.now }
    ensures { IfOk result (λ found. found ≡ spec.bounding e.now c.now) }
{
    match c {
        Expr::Two(op, x, y) => of_operator(alloc, e, *op, x.get(), y.get()),
        Expr::Between(x, low, high) => of_between(alloc, e, x.get(), low.get(), high.get()),
        Expr::Among(x, list) => of_in(alloc, e, x.get(), list.get()),
        Expr::Is(test, x) => of_test(alloc, e, *test, x.get()),
        Expr::Not(x) => of_denial(alloc, e, x.get()),
        _ => Ok(None),
    }
}

/// The ranges of an operator between two expressions.
fn of_operator(
    alloc: Global,
    e: &Expr,
    op: Op,
    x: &Expr,
    y: &Expr,
) -> Result<Option<Ranges>, Memory>
    requires left { IsWellFormed x.now }
    requires right { IsWellFormed y.now }
    ensures { IfOk result (λ found. found ≡ spec.bounding_level e.now (Expr-F.Two op x.now y.now)) }
{
    if same(x, e) && is_constant(y) {
        return compared(alloc, op, constant_value(alloc, y)?);
    }
    if same(y, e) && is_constant(x) {
        return compared(alloc, mirror(op), constant_value(alloc, x)?);
    }
    Ok(None)
}

/// The operator with its operands exchanged.
fn mirror(op: Op) -> Op
    ensures { result ≡ spec.mirror op }
{
    match op {
        Op::Lt => Op::Gt,
        Op::Le => Op::Ge,
        Op::Gt => Op::Lt,
        Op::Ge => Op::Le,
        _ => op,
    }
}

/// The ranges of a comparison with a constant of this value, where the key stands on the left.
fn compared(alloc: Global, op: Op, c: Value) -> Result<Option<Ranges>, Memory>
    ensures { IfOk result (λ found. found ≡ spec.compared op c) }
{
    let valued = is_valued(&c);
    match range_for(alloc, op, c)? {
        Some(range) => Ok(Some(range_if(alloc, valued, range)?)),
        None => Ok(None),
    }
}

/// The range of a comparison with a value, None of an operator that bounds nothing.
fn range_for(alloc: Global, op: Op, c: Value) -> Result<Option<Range>, Memory>
    ensures { IfOk result (λ found. found ≡ spec.range_for op c) }
{
    match op {
        Op::Eq => Ok(Some(point(alloc, c)?)),
        Op::Gt => Ok(Some(from(c, false))),
        Op::Ge => Ok(Some(from(c, true))),
        Op::Lt => Ok(Some(up_to(c, false))),
        Op::Le => Ok(Some(up_to(c, true))),
        _ => Ok(None),
    }
}

/// A range, or none.
fn range_if(alloc: Global, there: bool, range: Range) -> Result<Ranges, Memory>
    ensures { IfOk result (λ ranges. ranges ≡ (if there then range ∷ [] else [])) }
{
    let mut ranges = Ranges::new(alloc);
    if there {
        ranges.push(range)?;
    }
    Ok(ranges)
}

/// The range from a value to another, both in.
fn closed(low: Value, high: Value) -> Range
    ensures { result ≡ spec.closed low high }
{
    Range {
        low: Some(low),
        high: Some(high),
        incl: 3,
    }
}

/// The range from a value, out or in.
fn from(low: Value, included: bool) -> Range
    ensures { result ≡ spec.from low included }
{
    Range {
        low: Some(low),
        high: None,
        incl: if included { 1 } else { 0 },
    }
}

/// The range from NULL, out, to a value, out or in.
fn up_to(high: Value, included: bool) -> Range
    ensures { result ≡ spec.up_to high included }
{
    Range {
        low: Some(Value::Null),
        high: Some(high),
        incl: if included { 2 } else { 0 },
    }
}

/// The ranges of BETWEEN.
fn of_between(
    alloc: Global,
    e: &Expr,
    x: &Expr,
    low: &Expr,
    high: &Expr,
) -> Result<Option<Ranges>, Memory>
    requires low { IsWellFormed low.now }
    requires high { IsWellFormed high.now }
    ensures { IfOk result (λ found. found ≡ spec.bounding_level e.now (Expr-F.Between x.now low.now high.now)) }
{
    if same(x, e) && (is_constant(low) && is_constant(high)) {
        let low = constant_value(alloc, low)?;
        let high = constant_value(alloc, high)?;
        return Ok(Some(between(alloc, low, high)?));
    }
    Ok(None)
}

/// The range between two values, none where one is MISSING or NULL.
fn between(alloc: Global, low: Value, high: Value) -> Result<Ranges, Memory>
    ensures { IfOk result (λ ranges. ranges ≡ spec.between low high) }
{
    let valued = is_valued(&low) && is_valued(&high);
    range_if(alloc, valued, closed(low, high))
}

/// The ranges of IN.
fn of_in(alloc: Global, e: &Expr, x: &Expr, list: &Expr) -> Result<Option<Ranges>, Memory>
    requires { IsWellFormed list.now }
    ensures { IfOk result (λ found. found ≡ spec.bounding_level e.now (Expr-F.Among x.now list.now)) }
{
    if same(x, e) && is_constant(list) {
        let list = constant_value(alloc, list)?;
        return Ok(Some(points_among(alloc, &list)?));
    }
    Ok(None)
}

/// The ranges of IS.
fn of_test(alloc: Global, e: &Expr, test: Test, x: &Expr) -> Result<Option<Ranges>, Memory>
    ensures { IfOk result (λ found. found ≡ spec.bounding_level e.now (Expr-F.Is test x.now)) }
{
    if same(x, e) {
        tested(alloc, test)
    } else {
        Ok(None)
    }
}

/// What IS says of a key.
fn tested(alloc: Global, test: Test) -> Result<Option<Ranges>, Memory>
    ensures { IfOk result (λ found. found ≡ spec.tested test) }
{
    match test {
        Test::Null => Ok(Some(range_if(alloc, true, closed(Value::Null, Value::Null))?)),
        Test::Valued => Ok(Some(range_if(alloc, true, from(Value::Null, false))?)),
        Test::Missing => Ok(None),
    }
}

/// The ranges of NOT before an expression.
fn of_denial(alloc: Global, e: &Expr, x: &Expr) -> Result<Option<Ranges>, Memory>
    ensures { IfOk result (λ found. found ≡ spec.denied e.now (out-Expr x.now)) }
{
    match x {
        Expr::Is(test, x) => of_denied_test(alloc, e, *test, x.get()),
        _ => Ok(None),
    }
}

/// The ranges of IS NOT.
fn of_denied_test(alloc: Global, e: &Expr, test: Test, x: &Expr) -> Result<Option<Ranges>, Memory>
    ensures { IfOk result (λ found. found ≡ spec.denied e.now (Expr-F.Is test x.now)) }
{
    if same(x, e) {
        tested_not(alloc, test)
    } else {
        Ok(None)
    }
}

/// What IS NOT says of a key.
fn tested_not(alloc: Global, test: Test) -> Result<Option<Ranges>, Memory>
    ensures { IfOk result (λ found. found ≡ spec.tested_not test) }
{
    match test {
        Test::Missing => Ok(Some(range_if(alloc, true, from(Value::Null, true))?)),
        Test::Null => Ok(Some(range_if(alloc, true, from(Value::Null, false))?)),
        Test::Valued => Ok(None),
    }
}
