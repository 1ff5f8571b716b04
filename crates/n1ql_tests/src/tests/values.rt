use n1ql_expr::{Env, Scope, eval};
use n1ql_json::{JsonFault, read, write};
use n1ql_parse::{ParseFault, expr};
use n1ql_value::{Memory, Text, Vals, Value};
use std::alloc::Global;
use std::process::Abort;

/// The document `ks`, whose id is `k`.
const DOCUMENT: &str =
    "{\"a\":5,\"b\":[1,2,3],\"c\":{\"d\":\"x\"},\"n\":null,\"t\":[1,2,3],\"x\":5}";

/// Texts, and their values as JSON, or MISSING.
const VALUES: [(&str, &str); 96] = [
    // names and paths
    ("ks.a", "5"),
    ("a", "5"),
    ("c.d", "\"x\""),
    ("c.e", "MISSING"),
    ("a.d", "MISSING"),
    ("b[0]", "1"),
    ("b[-1]", "3"),
    ("b[3]", "MISSING"),
    ("b['0']", "MISSING"),
    ("n", "null"),
    ("z", "MISSING"),
    ("META().id", "\"k\""),
    ("META(ks)", "{\"id\":\"k\"}"),
    ("META(other)", "MISSING"),
    // constructors
    ("[1, MISSING]", "[1,null]"),
    ("{'p': 1, 'q': MISSING}", "{\"p\":1}"),
    ("{'p': 1, 'p': 2, 'p': z}", "{\"p\":2}"),
    // logic
    ("n AND z", "MISSING"),
    ("n AND FALSE", "false"),
    ("1 AND TRUE", "null"),
    ("n OR z", "null"),
    ("z OR TRUE", "true"),
    ("NOT TRUE", "false"),
    ("NOT n", "null"),
    // comparisons
    ("5 < 'a'", "true"),
    ("[1] < [1, 0]", "true"),
    ("{'z': 1} >= {'a': 0, 'b': 0}", "false"),
    ("'Z' <= 'a'", "true"),
    ("a = 5", "true"),
    ("a != 5", "false"),
    ("a > n", "null"),
    ("n = z", "MISSING"),
    ("a BETWEEN 5 AND 6", "true"),
    ("a NOT BETWEEN 5 AND 6", "false"),
    ("a BETWEEN 6 AND z", "false"),
    ("2 IN b", "true"),
    ("7 NOT IN b", "true"),
    ("n IN b", "null"),
    ("1 IN a", "null"),
    ("1 IN z", "MISSING"),
    ("z IS NULL", "MISSING"),
    ("n IS NULL", "true"),
    ("z IS MISSING", "true"),
    ("n IS NOT MISSING", "true"),
    ("n IS VALUED", "false"),
    ("a IS VALUED", "true"),
    // arithmetic and strings
    ("a + 2 * 3", "11"),
    ("9223372036854775807 + 1", "null"),
    ("a - 7", "-2"),
    ("a - 'x'", "null"),
    ("n * z", "MISSING"),
    ("-7 % 2", "-1"),
    ("-9223372036854775808 % -1", "0"),
    ("7 % 0", "null"),
    ("-a", "-5"),
    ("- -9223372036854775808", "null"),
    ("c.d || 'y'", "\"xy\""),
    ("a || 'y'", "null"),
    // collections and CASE
    ("ANY v IN b SATISFIES v > 2 END", "true"),
    ("ANY v IN [] SATISFIES TRUE END", "false"),
    ("ANY v IN z SATISFIES TRUE END", "MISSING"),
    ("EVERY v IN [] SATISFIES v END", "true"),
    ("EVERY v IN b SATISFIES v > 1 END", "false"),
    ("EVERY v IN a SATISFIES TRUE END", "null"),
    ("ARRAY [v, x] FOR v IN t WHEN v > 1 END", "[[2,5],[3,5]]"),
    ("ARRAY v FOR v IN [1, {'p': 2}] END", "[1,{\"p\":2}]"),
    ("FIRST v FOR v IN b WHEN v > 1 END", "2"),
    ("FIRST v FOR v IN [] END", "MISSING"),
    ("CASE WHEN n THEN 1 WHEN a = 5 THEN 2 ELSE 3 END", "2"),
    ("CASE WHEN n THEN 1 END", "null"),
    // functions
    ("ABS(-5)", "5"),
    ("ABS(-9223372036854775808)", "null"),
    ("ARRAY_LENGTH(b)", "3"),
    ("ARRAY_LENGTH(a)", "null"),
    ("ARRAY_CONTAINS(b, 2)", "true"),
    ("ARRAY_CONTAINS(b, n)", "null"),
    ("CONTAINS('abc', 'bc')", "true"),
    ("CONTAINS('abc', z)", "MISSING"),
    ("GREATEST(n, 2, 'a')", "\"a\""),
    ("LEAST(n, 2, 'a')", "2"),
    ("LEAST(n)", "null"),
    ("IFMISSING(z, 0)", "0"),
    ("IFMISSING(z, n)", "null"),
    ("IFNULL(MISSING, 1)", "MISSING"),
    ("IFNULL(n, 1)", "1"),
    ("IFMISSINGORNULL(n, z, 1)", "1"),
    ("LENGTH('é')", "1"),
    ("LENGTH(b)", "null"),
    ("OBJECT_NAMES(c)", "[\"d\"]"),
    ("OBJECT_NAMES(b)", "null"),
    ("TOSTRING(a)", "\"5\""),
    ("TOSTRING(TRUE)", "\"true\""),
    ("TOSTRING(n)", "null"),
    ("TYPE(MISSING)", "\"missing\""),
    ("type(c)", "\"object\""),
    ("b.a[0] IS MISSING", "true"),
];

fn written(alloc: Global, value: &Value) -> Result<Vec<u8>, Memory> {
    let mut out = Vec::new(alloc);
    match value {
        Value::Missing => out.extend_from_slice(b"MISSING")?,
        _ => write(value, &mut out)?,
    }
    Ok(out)
}

/// The value of a text as JSON, and nothing where it is no expression.
fn value_text<'a>(alloc: Global, scope: &'a Scope<'a>, text: &str) -> Result<Vec<u8>, Memory> {
    match expr(alloc, text, "ks") {
        Ok(e) => written(alloc, &eval(alloc, &e, scope)?),
        Err(ParseFault::Fault { .. }) => Ok(Vec::new(alloc)),
        Err(ParseFault::Memory) => Err(Memory),
    }
}

fn check_values(
    rt: &impl Abort,
    alloc: Global,
    env: &Env<'_>,
    table: &[(&str, &str)],
) -> Result<(), Memory> {
    let scope = Scope::on(env);
    for (text, wanted) in table {
        let value = value_text(alloc, &scope, text)?;
        assert_eq!(rt; value.as_slice(), wanted.as_bytes(), "of {text:?}");
    }
    Ok(())
}

#[test]
fn texts_have_these_values(rt: HostRuntime) -> Result<(), JsonFault> {
    let alloc = rt.alloc();
    let doc = read(alloc, DOCUMENT.as_bytes())?;
    let id = Text::of(alloc, "k")?;
    let keys = Vals::new(alloc);
    let env = Env::of_document(&id, &doc, &keys);
    Ok(check_values(&rt, alloc, &env, &VALUES)?)
}
