use crate::{
    Truth, and2, between, calculate, call, compare, field, is_in, is_missing, is_null, is_true,
    is_valued, negate, not1, operate, or2, place,
};
use n1ql_value::{Fun, Memory, Op, Pairs, Text, Vals, Value, collate};
use std::alloc::Global;

/// A value of a table.
enum Plain {
    Missing,
    Null,
    Truth(bool),
    Int(i64),
    Text(&'static str),
    Ints(&'static [i64]),
    Texts(&'static [&'static str]),
    Named(&'static [(&'static str, i64)]),
}

use Plain::{Int, Ints, Missing, Named, Null, Texts};

const YES: Plain = Plain::Truth(true);

const NO: Plain = Plain::Truth(false);

fn ints(alloc: Global, ints: &[i64]) -> Result<Value, Memory> {
    let mut vals = Vals::new(alloc);
    for n in ints {
        vals.push(Value::Int(*n))?;
    }
    Ok(Value::Array(vals))
}

fn texts(alloc: Global, texts: &[&str]) -> Result<Value, Memory> {
    let mut vals = Vals::new(alloc);
    for text in texts {
        vals.push(Value::Text(Text::of(alloc, text)?))?;
    }
    Ok(Value::Array(vals))
}

fn named(alloc: Global, named: &[(&str, i64)]) -> Result<Value, Memory> {
    let mut pairs = Pairs::new(alloc);
    for (name, n) in named {
        pairs.put(Text::of(alloc, name)?, Value::Int(*n))?;
    }
    Ok(Value::Object(pairs))
}

fn made(alloc: Global, plain: &Plain) -> Result<Value, Memory> {
    match plain {
        Plain::Missing => Ok(Value::Missing),
        Plain::Null => Ok(Value::Null),
        Plain::Truth(holds) => Ok(Value::Bool(*holds)),
        Plain::Int(n) => Ok(Value::Int(*n)),
        Plain::Text(text) => Ok(Value::Text(Text::of(alloc, text)?)),
        Plain::Ints(items) => ints(alloc, items),
        Plain::Texts(items) => texts(alloc, items),
        Plain::Named(entries) => named(alloc, entries),
    }
}

/// Functions with their arguments and their values.
const CALLS: [(Fun, &[Plain], Plain); 57] = [
    (Fun::Abs, &[Missing], Missing),
    (Fun::Abs, &[Plain::Text("5")], Null),
    (Fun::Abs, &[Int(i64::MIN)], Null),
    (Fun::Abs, &[Int(-5)], Int(5)),
    (Fun::Abs, &[Int(i64::MAX)], Int(i64::MAX)),
    (Fun::ArrayLength, &[Missing], Missing),
    (Fun::ArrayLength, &[Plain::Text("ab")], Null),
    (Fun::ArrayLength, &[Ints(&[])], Int(0)),
    (Fun::ArrayLength, &[Ints(&[7, 7])], Int(2)),
    (Fun::ArrayContains, &[Missing, Int(1)], Missing),
    (Fun::ArrayContains, &[Null, Missing], Missing),
    (Fun::ArrayContains, &[Int(1), Int(1)], Null),
    (Fun::ArrayContains, &[Ints(&[1]), Null], Null),
    (Fun::ArrayContains, &[Ints(&[1, 2]), Int(2)], YES),
    (Fun::ArrayContains, &[Ints(&[1, 2]), Plain::Text("2")], NO),
    (Fun::Contains, &[Plain::Text("a"), Missing], Missing),
    (Fun::Contains, &[Plain::Text("1"), Int(1)], Null),
    (
        Fun::Contains,
        &[Plain::Text("abcd"), Plain::Text("bc")],
        YES,
    ),
    (Fun::Contains, &[Plain::Text("aab"), Plain::Text("ab")], YES),
    (Fun::Contains, &[Plain::Text(""), Plain::Text("")], YES),
    (Fun::Contains, &[Plain::Text("abc"), Plain::Text("ac")], NO),
    (
        Fun::Greatest,
        &[Int(1), Plain::Text("a"), Missing, Null],
        Plain::Text("a"),
    ),
    (Fun::Greatest, &[Ints(&[2]), Ints(&[1, 9]), YES], Ints(&[2])),
    (Fun::Greatest, &[Missing, Null], Null),
    (
        Fun::Least,
        &[Null, Int(3), Plain::Text(""), Int(-3), Missing],
        Int(-3),
    ),
    (Fun::Least, &[Int(1), NO], NO),
    (Fun::Least, &[Null], Null),
    (Fun::IfMissing, &[Missing, Null, Int(1)], Null),
    (Fun::IfMissing, &[Missing, Int(2), Int(1)], Int(2)),
    (Fun::IfMissing, &[Missing, Missing], Null),
    (Fun::IfNull, &[Missing, Int(1)], Missing),
    (Fun::IfNull, &[Null, Int(2), Missing], Int(2)),
    (Fun::IfNull, &[Null, Null], Null),
    (Fun::IfMissingOrNull, &[Missing, Null, NO, YES], NO),
    (Fun::IfMissingOrNull, &[Missing, Null], Null),
    (Fun::Length, &[Missing], Missing),
    (Fun::Length, &[Ints(&[1])], Null),
    (Fun::Length, &[Plain::Text("")], Int(0)),
    (Fun::Length, &[Plain::Text("é")], Int(1)),
    (Fun::Length, &[Plain::Text("a€😀")], Int(3)),
    (Fun::ObjectNames, &[Missing], Missing),
    (Fun::ObjectNames, &[Ints(&[])], Null),
    (
        Fun::ObjectNames,
        &[Named(&[("b", 1), ("ab", 2), ("a", 3)])],
        Texts(&["a", "ab", "b"]),
    ),
    (Fun::ToString, &[Missing], Missing),
    (Fun::ToString, &[Plain::Text("x")], Plain::Text("x")),
    (
        Fun::ToString,
        &[Int(i64::MIN)],
        Plain::Text("-9223372036854775808"),
    ),
    (Fun::ToString, &[YES], Plain::Text("true")),
    (Fun::ToString, &[NO], Plain::Text("false")),
    (Fun::ToString, &[Null], Null),
    (Fun::ToString, &[Named(&[])], Null),
    (Fun::TypeOf, &[Missing], Plain::Text("missing")),
    (Fun::TypeOf, &[Null], Plain::Text("null")),
    (Fun::TypeOf, &[NO], Plain::Text("boolean")),
    (Fun::TypeOf, &[Int(0)], Plain::Text("number")),
    (Fun::TypeOf, &[Plain::Text("")], Plain::Text("string")),
    (Fun::TypeOf, &[Ints(&[])], Plain::Text("array")),
    (Fun::TypeOf, &[Named(&[])], Plain::Text("object")),
];

/// Operators with their operands and their values.
const OPERATIONS: [(Op, Plain, Plain, Plain); 73] = [
    (Op::And, NO, NO, NO),
    (Op::And, NO, Missing, NO),
    (Op::And, NO, Null, NO),
    (Op::And, NO, YES, NO),
    (Op::And, Missing, NO, NO),
    (Op::And, Missing, Missing, Missing),
    (Op::And, Missing, Null, Missing),
    (Op::And, Missing, YES, Missing),
    (Op::And, Null, NO, NO),
    (Op::And, Null, Missing, Missing),
    (Op::And, Null, Null, Null),
    (Op::And, Null, YES, Null),
    (Op::And, YES, NO, NO),
    (Op::And, YES, Missing, Missing),
    (Op::And, YES, Null, Null),
    (Op::And, YES, YES, YES),
    (Op::Or, NO, NO, NO),
    (Op::Or, NO, Missing, Missing),
    (Op::Or, NO, Null, Null),
    (Op::Or, NO, YES, YES),
    (Op::Or, Missing, NO, Missing),
    (Op::Or, Missing, Missing, Missing),
    (Op::Or, Missing, Null, Null),
    (Op::Or, Missing, YES, YES),
    (Op::Or, Null, NO, Null),
    (Op::Or, Null, Missing, Null),
    (Op::Or, Null, Null, Null),
    (Op::Or, Null, YES, YES),
    (Op::Or, YES, NO, YES),
    (Op::Or, YES, Missing, YES),
    (Op::Or, YES, Null, YES),
    (Op::Or, YES, YES, YES),
    (Op::And, Int(1), YES, Null),
    (Op::And, Plain::Text("a"), Missing, Missing),
    (Op::Or, Int(0), NO, Null),
    (Op::Or, Ints(&[]), Missing, Null),
    (Op::Eq, Missing, Null, Missing),
    (Op::Eq, Null, Null, Null),
    (Op::Eq, Null, Missing, Missing),
    (Op::Lt, Int(9), Null, Null),
    (Op::Eq, Int(1), Int(1), YES),
    (Op::Eq, Int(1), Plain::Text("1"), NO),
    (Op::Ne, Int(1), Plain::Text("1"), YES),
    (Op::Ne, Ints(&[1]), Ints(&[1]), NO),
    (Op::Lt, Int(9), Plain::Text(""), YES),
    (Op::Lt, Int(9), Int(9), NO),
    (Op::Le, Int(9), Int(9), YES),
    (Op::Le, Ints(&[]), Plain::Text("z"), NO),
    (Op::Gt, YES, NO, YES),
    (Op::Gt, Int(i64::MIN), Int(i64::MAX), NO),
    (Op::Ge, Int(3), Int(3), YES),
    (Op::Ge, Int(2), Int(3), NO),
    (Op::Add, Missing, Plain::Text("a"), Missing),
    (Op::Add, Int(1), Plain::Text("a"), Null),
    (Op::Add, Int(i64::MAX), Int(1), Null),
    (Op::Add, Int(i64::MAX), Int(i64::MIN), Int(-1)),
    (Op::Sub, Null, Missing, Missing),
    (Op::Sub, Int(i64::MIN), Int(1), Null),
    (Op::Sub, Int(0), Int(i64::MIN), Null),
    (Op::Sub, Int(-1), Int(i64::MIN), Int(i64::MAX)),
    (Op::Mul, Int(i64::MIN), Int(-1), Null),
    (Op::Mul, Int(4294967296), Int(2147483648), Null),
    (Op::Mul, Int(-4294967296), Int(2147483648), Int(i64::MIN)),
    (Op::Mod, Int(7), Int(0), Null),
    (Op::Mod, Int(7), Missing, Missing),
    (Op::Mod, Int(-7), Int(3), Int(-1)),
    (Op::Mod, Int(7), Int(-3), Int(1)),
    (Op::Mod, Int(i64::MIN), Int(-1), Int(0)),
    (Op::Cat, Plain::Text("a"), Missing, Missing),
    (Op::Cat, Plain::Text("a"), Int(1), Null),
    (Op::Cat, Null, Plain::Text("a"), Null),
    (
        Op::Cat,
        Plain::Text("é"),
        Plain::Text("b"),
        Plain::Text("éb"),
    ),
    (Op::Cat, Plain::Text(""), Plain::Text(""), Plain::Text("")),
];

fn listed(alloc: Global, plains: &[Plain]) -> Result<Vals, Memory> {
    let mut vals = Vals::new(alloc);
    for plain in plains {
        vals.push(made(alloc, plain)?)?;
    }
    Ok(vals)
}

// The value of a call, or a failure where the number of arguments is wrong.
fn called(alloc: Global, fun: Fun, args: &Vals) -> Result<Value, Memory> {
    if args.len() < fun.least_arguments() {
        return Err(Memory);
    }
    match fun.most_arguments() {
        Some(most) if args.len() > most => Err(Memory),
        _ => call(alloc, fun, args),
    }
}

#[test]
fn functions_by_line(rt: HostRuntime) -> Result<(), Memory> {
    let alloc = rt.alloc();
    for (i, (fun, args, want)) in CALLS.iter().enumerate() {
        let got = called(alloc, *fun, &listed(alloc, args)?)?;
        let want = made(alloc, want)?;
        assert!(rt; collate(&got, &want).is_eq(), "case {i}: {fun:?}");
    }
    Ok(())
}

#[test]
fn operators_by_clause(rt: HostRuntime) -> Result<(), Memory> {
    let alloc = rt.alloc();
    for (i, (op, a, b, want)) in OPERATIONS.iter().enumerate() {
        let got = operate(alloc, *op, &made(alloc, a)?, &made(alloc, b)?)?;
        let want = made(alloc, want)?;
        assert!(rt; collate(&got, &want).is_eq(), "case {i}: {op:?}");
    }
    Ok(())
}

/// A value, the elements or a value in their place, and whether it is IN them.
const MEMBERSHIPS: [(Plain, Plain, Truth); 6] = [
    (Missing, Null, Truth::Missing),
    (Null, Missing, Truth::Missing),
    (Null, Ints(&[1]), Truth::Null),
    (Int(10), Int(10), Truth::Null),
    (Int(3), Ints(&[1, 2, 3]), Truth::Yes),
    (Int(4), Ints(&[1, 2, 3]), Truth::No),
];

/// A value, two bounds, and whether it lies BETWEEN them.
const BOUNDS: [(Plain, Plain, Plain, Truth); 5] = [
    (Int(2), Int(2), Int(2), Truth::Yes),
    (Int(3), Int(1), Int(2), Truth::No),
    (Int(1), Int(2), Null, Truth::No),
    (Int(3), Int(2), Null, Truth::Null),
    (Missing, Int(2), Int(2), Truth::Missing),
];

/// A value, a name or a place in it, and what stands there.
const PATHS: [(Plain, Plain, Plain); 14] = [
    (Ints(&[10, 20, 30]), Int(0), Int(10)),
    (Ints(&[10, 20, 30]), Int(2), Int(30)),
    (Ints(&[10, 20, 30]), Int(3), Missing),
    (Ints(&[10, 20, 30]), Int(-1), Int(30)),
    (Ints(&[10, 20, 30]), Int(-3), Int(10)),
    (Ints(&[10, 20, 30]), Int(-4), Missing),
    (Ints(&[10, 20, 30]), Int(i64::MIN), Missing),
    (Ints(&[10, 20, 30]), Int(i64::MAX), Missing),
    (Ints(&[10, 20, 30]), Null, Missing),
    (Int(1), Int(0), Missing),
    (Named(&[("a", 1), ("b", 2)]), Plain::Text("b"), Int(2)),
    (Named(&[("a", 1)]), Plain::Text("b"), Missing),
    (Ints(&[1]), Plain::Text("a"), Missing),
    (Missing, Plain::Text("a"), Missing),
];

/// A value, its unary minus and its NOT.
const ALONE: [(Plain, Plain, Truth); 8] = [
    (Missing, Missing, Truth::Missing),
    (Null, Null, Truth::Null),
    (NO, Null, Truth::Yes),
    (YES, Null, Truth::No),
    (Int(5), Int(-5), Truth::Null),
    (Int(i64::MIN), Null, Truth::Null),
    (Int(i64::MAX), Int(-9223372036854775807), Truth::Null),
    (Plain::Text("a"), Null, Truth::Null),
];

#[test]
fn values_among_others(rt: HostRuntime) -> Result<(), Memory> {
    let alloc = rt.alloc();
    for (i, (value, list, want)) in MEMBERSHIPS.iter().enumerate() {
        let got = is_in(&made(alloc, value)?, &made(alloc, list)?);
        assert_eq!(rt; got, *want, "case {i}");
    }
    Ok(())
}

#[test]
fn values_between_bounds(rt: HostRuntime) -> Result<(), Memory> {
    let alloc = rt.alloc();
    for (i, (value, low, high, want)) in BOUNDS.iter().enumerate() {
        let got = between(
            &made(alloc, value)?,
            &made(alloc, low)?,
            &made(alloc, high)?,
        );
        assert_eq!(rt; got, *want, "case {i}");
    }
    Ok(())
}

// What stands at a name or a place, MISSING where nothing does.
fn reached(alloc: Global, value: &Value, at: &Plain) -> Result<Value, Memory> {
    let found = match at {
        Plain::Text(name) => field(value, name),
        at => place(value, &made(alloc, at)?),
    };
    match found {
        Some(found) => found.copy(alloc),
        None => Ok(Value::Missing),
    }
}

#[test]
fn fields_and_places(rt: HostRuntime) -> Result<(), Memory> {
    let alloc = rt.alloc();
    for (i, (value, at, want)) in PATHS.iter().enumerate() {
        let got = reached(alloc, &made(alloc, value)?, at)?;
        assert!(rt; collate(&got, &made(alloc, want)?).is_eq(), "case {i}");
    }
    Ok(())
}

#[test]
fn operators_of_one_value(rt: HostRuntime) -> Result<(), Memory> {
    let alloc = rt.alloc();
    for (i, (value, minus, not)) in ALONE.iter().enumerate() {
        let value = made(alloc, value)?;
        assert!(rt;
            collate(&negate(&value), &made(alloc, minus)?).is_eq(),
            "case {i}"
        );
        assert_eq!(rt; not1(&value), *not, "case {i}");
    }
    Ok(())
}

// The calls that `operate` makes, and the tests of a value.
#[test]
fn calls_by_name(rt: HostRuntime) {
    let one = Value::Int(1);
    let yes = Value::Bool(true);
    assert_eq!(rt; and2(&yes, &one), Truth::Null);
    assert_eq!(rt; or2(&yes, &one), Truth::Yes);
    assert_eq!(rt; compare(Op::Lt, &yes, &one), Truth::Yes);
    assert!(rt; matches!(calculate(Op::Add, &one, &one), Value::Int(2)));
    assert!(rt; is_true(&yes) && is_valued(&yes) && !is_null(&yes) && !is_missing(&yes));
}
