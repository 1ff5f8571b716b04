use n1ql_ast::{Expr, Names};
use n1ql_parse::{ParseFault, expr};
use n1ql_value::Value;
use sqlite_items::Boxed;
use std::alloc::{AllocError, Global};
use std::fmt::Write;
use std::process::Abort;
use std::test::Fail;

/// Texts, and their trees in prefix form.
const TREES: [(&str, &str); 66] = [
    ("0", "0"),
    ("9223372036854775807", "9223372036854775807"),
    ("-9223372036854775808", "-9223372036854775808"),
    ("- - 9223372036854775808", "(Neg -9223372036854775808)"),
    ("-1", "(Neg 1)"),
    ("'it''s'", "'it's'"),
    ("true", "true"),
    ("False", "false"),
    ("NULL", "null"),
    ("missing", "missing"),
    ("ks", "doc"),
    ("x", "doc.x"),
    ("`x y`", "doc.x y"),
    ("`NULL`", "doc.NULL"),
    ("(x)", "doc.x"),
    ("[]", "(List)"),
    ("[x, 1, [y]]", "(List doc.x 1 (List doc.y))"),
    ("{}", "(Build)"),
    ("{\"a\": 1, 'b': {}}", "(Build a:1 b:(Build))"),
    ("x OR y OR z", "(Or (Or doc.x doc.y) doc.z)"),
    ("x AND y AND z", "(And (And doc.x doc.y) doc.z)"),
    ("x OR y AND z", "(Or doc.x (And doc.y doc.z))"),
    ("NOT NOT x AND y", "(And (Not (Not doc.x)) doc.y)"),
    ("NOT x = y", "(Not (Eq doc.x doc.y))"),
    ("x = y", "(Eq doc.x doc.y)"),
    ("x == y", "(Eq doc.x doc.y)"),
    ("x != y", "(Ne doc.x doc.y)"),
    ("x <> y", "(Ne doc.x doc.y)"),
    ("x < y", "(Lt doc.x doc.y)"),
    ("x <= y", "(Le doc.x doc.y)"),
    ("x > y", "(Gt doc.x doc.y)"),
    ("x >= y", "(Ge doc.x doc.y)"),
    ("x IS NULL", "(IsNull doc.x)"),
    ("x IS NOT MISSING", "(Not (IsMissing doc.x))"),
    ("x IS VALUED", "(IsValued doc.x)"),
    ("x IN y + z", "(In doc.x (Add doc.y doc.z))"),
    ("x NOT IN y", "(Not (In doc.x doc.y))"),
    ("x BETWEEN 1 AND 2 AND y", "(And (Between doc.x 1 2) doc.y)"),
    ("x NOT BETWEEN 1 AND 2", "(Not (Between doc.x 1 2))"),
    ("a - b - c", "(Sub (Sub doc.a doc.b) doc.c)"),
    ("a + b || c", "(Cat (Add doc.a doc.b) doc.c)"),
    ("a + b * c % d", "(Add doc.a (Mod (Mul doc.b doc.c) doc.d))"),
    ("-a.b * c", "(Mul (Neg doc.a.b) doc.c)"),
    ("- - a", "(Neg (Neg doc.a))"),
    ("ks.a.`b c`", "doc.a.b c"),
    ("a[b[0]].c", "(At doc.a (At doc.b 0)).c"),
    ("CASE WHEN a THEN 1 END", "(Case doc.a 1)"),
    (
        "CASE WHEN a THEN 1 WHEN b THEN 2 ELSE 3 END",
        "(Case doc.a doc.b 1 2 else 3)",
    ),
    ("ANY v IN v SATISFIES v = 1 END", "(Any v doc.v (Eq $v 1))"),
    ("EVERY v IN a SATISFIES v END", "(Every v doc.a $v)"),
    ("ARRAY v.x FOR v IN a END", "(Array v $v.x doc.a)"),
    (
        "ARRAY v FOR v IN a WHEN v > 1 END",
        "(Array v $v doc.a when (Gt $v 1))",
    ),
    ("FIRST v FOR v IN a END", "(First v $v doc.a)"),
    (
        "FIRST v FOR v IN a WHEN v END",
        "(First v $v doc.a when $v)",
    ),
    ("abs(x)", "(Abs doc.x)"),
    ("Array_Contains(x, 1)", "(ArrayContains doc.x 1)"),
    ("GREATEST(1)", "(Greatest 1)"),
    ("greatest(1, 2, 3)", "(Greatest 1 2 3)"),
    ("IFNULL(a, b, c)", "(IfNull doc.a doc.b doc.c)"),
    ("META()", "meta true"),
    ("meta(ks).id", "meta true.id"),
    ("META(`other`)", "meta false"),
    ("abs", "doc.abs"),
    ("meta.count", "doc.meta.count"),
    ("`abs`.x", "doc.abs.x"),
    ("x -- 1", "(Sub doc.x (Neg 1))"),
];

/// Texts, and the places of their faults.
const FAULTS: [(&str, usize); 48] = [
    ("", 0),
    (" ", 1),
    ("a IN", 4),
    ("1.5", 0),
    ("foo(1)", 3),
    ("`abs`(1)", 5),
    ("COUNT(*)", 5),
    ("SUM(x)", 3),
    ("a b", 2),
    ("x ; y", 2),
    ("9223372036854775808", 0),
    ("1 + 9223372036854775808", 4),
    ("-9223372036854775808.a", 20),
    ("-9223372036854775808[0]", 20),
    ("(1", 2),
    ("(1]", 2),
    ("()", 1),
    ("[1,]", 3),
    ("[1", 2),
    ("{\"a\"}", 4),
    ("{a: 1}", 1),
    ("{\"a\": 1,}", 8),
    ("a.1", 2),
    ("a.", 2),
    ("a.null", 2),
    ("a[]", 2),
    ("a[1", 3),
    ("a = b = c", 6),
    ("a < b IS NULL", 6),
    ("a IS 1", 5),
    ("a IS NOT", 8),
    ("a NOT = b", 6),
    ("a BETWEEN 1 OR 2", 12),
    ("a NOT", 5),
    ("a AND", 5),
    ("* 1", 0),
    ("abs()", 4),
    ("abs(1, 2)", 5),
    ("CONTAINS(a)", 10),
    ("CONTAINS(a, b, c)", 13),
    ("CASE x WHEN 1 THEN 2 END", 5),
    ("CASE WHEN 1 THEN 2 ELSE 3 ELSE", 26),
    ("ANY 1 IN a SATISFIES b END", 4),
    ("ANY v IN a END", 11),
    ("ARRAY v FOR v a END", 14),
    ("FIRST v FOR v IN a WHEN END", 24),
    ("META(a.b)", 6),
    ("META(1)", 5),
];

fn show_value(out: &mut String, value: &Value) -> Result<(), AllocError> {
    match value {
        Value::Missing => out.push_str("missing"),
        Value::Null => out.push_str("null"),
        Value::Bool(b) => write!(out, "{b}"),
        Value::Int(n) => write!(out, "{n}"),
        Value::Text(text) => write!(out, "'{}'", text.as_str()),
        Value::Array(_) => out.push_str("array"),
        Value::Object(_) => out.push_str("object"),
    }
}

#[cycle(show)]
fn show_next(out: &mut String, e: &Expr) -> Result<(), AllocError> {
    out.push_str(" ")?;
    show(out, e)
}

#[cycle(show)]
fn show_all(out: &mut String, es: &[Expr]) -> Result<(), AllocError> {
    for e in es {
        show_next(out, e)?;
    }
    Ok(())
}

#[cycle(show)]
fn show_if_any(out: &mut String, word: &str, e: &Option<Boxed<Expr>>) -> Result<(), AllocError> {
    match e {
        Some(e) => {
            out.push_str(word)?;
            show_next(out, e.get())
        }
        None => Ok(()),
    }
}

#[cycle(show)]
fn show_inside(out: &mut String, e: &Expr) -> Result<(), AllocError> {
    match e {
        Expr::Not(x) => {
            out.push_str("Not")?;
            show_next(out, x.get())
        }
        Expr::Neg(x) => {
            out.push_str("Neg")?;
            show_next(out, x.get())
        }
        Expr::Two(op, x, y) => {
            write!(out, "{op:?}")?;
            show_next(out, x.get())?;
            show_next(out, y.get())
        }
        Expr::Is(test, x) => {
            write!(out, "Is{test:?}")?;
            show_next(out, x.get())
        }
        Expr::Place(x, at) => {
            out.push_str("At")?;
            show_next(out, x.get())?;
            show_next(out, at.get())
        }
        Expr::Among(x, of) => {
            out.push_str("In")?;
            show_next(out, x.get())?;
            show_next(out, of.get())
        }
        Expr::Between(x, low, high) => {
            out.push_str("Between")?;
            show_next(out, x.get())?;
            show_next(out, low.get())?;
            show_next(out, high.get())
        }
        Expr::Call(fun, xs) => {
            write!(out, "{fun:?}")?;
            show_all(out, xs.as_slice())
        }
        Expr::List(xs) => {
            out.push_str("List")?;
            show_all(out, xs.as_slice())
        }
        Expr::Case(whens, thens, other) => {
            out.push_str("Case")?;
            show_all(out, whens.as_slice())?;
            show_all(out, thens.as_slice())?;
            show_if_any(out, " else", other)
        }
        Expr::Any(name, over, test) => {
            write!(out, "Any {}", name.as_str())?;
            show_next(out, over.get())?;
            show_next(out, test.get())
        }
        Expr::Every(name, over, test) => {
            write!(out, "Every {}", name.as_str())?;
            show_next(out, over.get())?;
            show_next(out, test.get())
        }
        Expr::Each(name, item, over, when) => {
            write!(out, "Array {}", name.as_str())?;
            show_next(out, item.get())?;
            show_next(out, over.get())?;
            show_if_any(out, " when", when)
        }
        Expr::First(name, item, over, when) => {
            write!(out, "First {}", name.as_str())?;
            show_next(out, item.get())?;
            show_next(out, over.get())?;
            show_if_any(out, " when", when)
        }
        Expr::Agg(agg, x) => {
            write!(out, "{agg:?}")?;
            show_if_any(out, "", x)
        }
        _ => Ok(()),
    }
}

/// The tree of an expression in prefix form.
#[cycle(show)]
pub fn show(out: &mut String, e: &Expr) -> Result<(), AllocError> {
    match e {
        Expr::Const(value) => show_value(out, value),
        Expr::Doc => out.push_str("doc"),
        Expr::MetaOf(own) => write!(out, "meta {own}"),
        Expr::Var(name) => write!(out, "${}", name.as_str()),
        Expr::Field(x, name) => {
            show(out, x.get())?;
            write!(out, ".{}", name.as_str())
        }
        Expr::Build(names, xs) => {
            out.push_str("(Build")?;
            show_pairs(out, names, xs.as_slice())?;
            out.push_str(")")
        }
        _ => {
            out.push_str("(")?;
            show_inside(out, e)?;
            out.push_str(")")
        }
    }
}

#[cycle(show)]
fn show_pairs(out: &mut String, names: &Names, xs: &[Expr]) -> Result<(), AllocError> {
    for at in 0..xs.len() {
        if let Some(name) = names.get(at) {
            write!(out, " {}:", name.as_str())?;
        }
        show(out, &xs[at])?;
    }
    Ok(())
}

/// A part of a statement behind its word, if there is one.
pub fn show_part(out: &mut String, word: &str, e: &Option<Expr>) -> Result<(), AllocError> {
    match e {
        Some(e) => {
            out.push_str(word)?;
            show(out, e)
        }
        None => Ok(()),
    }
}

fn tree_of(alloc: Global, text: &str) -> Result<String, AllocError> {
    let mut out = String::new(alloc);
    match expr(alloc, text, "ks") {
        Ok(e) => show(&mut out, &e)?,
        Err(ParseFault::Fault { at }) => write!(out, "fault {at}")?,
        Err(ParseFault::Memory) => out.push_str("memory")?,
    }
    Ok(out)
}

fn check_trees(rt: &impl Abort, alloc: Global, table: &[(&str, &str)]) -> Result<(), Fail> {
    for (text, wanted) in table {
        assert_eq!(rt; tree_of(alloc, text)?.as_str(), *wanted, "of {text:?}");
    }
    Ok(())
}

fn check_faults(rt: &impl Abort, alloc: Global, table: &[(&str, usize)]) {
    for (text, at) in table {
        let fault = expr(alloc, text, "ks").err();
        assert_eq!(rt; fault, Some(ParseFault::Fault { at: *at }), "of {text:?}");
    }
}

#[test]
fn texts_are_these_trees(rt: HostRuntime) -> Result<(), Fail> {
    check_trees(&rt, rt.alloc(), &TREES)
}

#[test]
fn texts_have_these_faults(rt: HostRuntime) {
    check_faults(&rt, rt.alloc(), &FAULTS);
}

/// A text of as many opening brackets as there may be tokens, and one of `count` of them around a name.
fn nested(alloc: Global, open: &str, close: &str, count: usize) -> Result<String, AllocError> {
    let mut text = String::new(alloc);
    for _ in 0..count {
        text.push_str(open)?;
    }
    text.push_str("x")?;
    for _ in 0..count {
        text.push_str(close)?;
    }
    Ok(text)
}

fn fault_of(
    alloc: Global,
    open: &str,
    close: &str,
    count: usize,
) -> Result<Option<ParseFault>, AllocError> {
    let text = nested(alloc, open, close, count)?;
    Ok(expr(alloc, text.as_str(), "ks").err())
}

#[test]
fn as_many_tokens_as_may_be_are_read_and_no_more(rt: HostRuntime) -> Result<(), Fail> {
    let alloc = rt.alloc();
    assert_eq!(rt; fault_of(alloc, "(", ")", 255)?, None);
    assert_eq!(rt;
        fault_of(alloc, "(", ")", 256)?,
        Some(ParseFault::Fault { at: 512 })
    );
    assert_eq!(rt;
        fault_of(alloc, "(", "", 511)?,
        Some(ParseFault::Fault { at: 512 })
    );
    assert_eq!(rt; fault_of(alloc, "-", "", 511)?, None);
    Ok(())
}
