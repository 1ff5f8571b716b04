//! Statements as texts, and the whole definitions that they ask for.

use crate::tests::reason_of;
use index_def::{IndexDef, Reason, check};
use n1ql_ast::{Create, Ddl, Expr, Key};
use n1ql_expr::same;
use n1ql_parse::{ddl, expr};
use n1ql_value::{Memory, Text, same_text};
use sqlite_items::Boxed;
use std::alloc::Global;

/// The statement that a text is. A text that is no CREATE ends the test too.
fn creation(alloc: Global, text: &str) -> Result<Create, Memory> {
    match ddl(alloc, text) {
        Ok(Ddl::Create(create)) => Ok(create),
        _ => Err(Memory),
    }
}

/// Its definition. A statement that defines nothing ends the test too.
fn definition(alloc: Global, create: &Create) -> Result<IndexDef, Memory> {
    match check(alloc, create) {
        Ok(def) => Ok(def),
        Err(_) => Err(Memory),
    }
}

/// The expression that a text is. A text that is none ends the test too.
fn expression(alloc: Global, text: &str) -> Result<Expr, Memory> {
    match expr(alloc, text, "ks") {
        Ok(e) => Ok(e),
        Err(_) => Err(Memory),
    }
}

/// Whether a definition has a name, and isn't that of a primary index.
fn is_named(def: &IndexDef, name: &str) -> bool {
    !def.primary && same_text(def.name.as_str(), name)
}

/// Whether expressions are those of these texts, in this order.
fn are_expressions(alloc: Global, es: &[Expr], texts: &[&str]) -> Result<bool, Memory> {
    if es.len() != texts.len() {
        return Ok(false);
    }
    for (e, text) in es.iter().zip(texts) {
        if !same(e, &expression(alloc, text)?) {
            return Ok(false);
        }
    }
    Ok(true)
}

/// Whether keys are those of these texts, in this order. An array key is told as the collection that it goes over.
fn are_keys(alloc: Global, keys: &[Key], texts: &[&str]) -> Result<bool, Memory> {
    if keys.len() != texts.len() {
        return Ok(false);
    }
    for (key, text) in keys.iter().zip(texts) {
        if !is_key(key, &expression(alloc, text)?) {
            return Ok(false);
        }
    }
    Ok(true)
}

fn is_key(key: &Key, e: &Expr) -> bool {
    match (key, e) {
        (Key::Plain(own), e) => same(own, e),
        (
            Key::Each {
                item,
                var,
                over,
                when,
                ..
            },
            Expr::Each(name, wanted, array, condition),
        ) => {
            is_item(item, var, over, (wanted.get(), name, array.get())) && is_when(when, condition)
        }
        (Key::Each { .. }, _) => false,
    }
}

/// Whether an item, its variable and its array are these.
fn is_item(item: &Expr, var: &Text, over: &Expr, wanted: (&Expr, &Text, &Expr)) -> bool {
    same(item, wanted.0) && same_text(var.as_str(), wanted.1.as_str()) && same(over, wanted.2)
}

fn is_when(when: &Option<Expr>, wanted: &Option<Boxed<Expr>>) -> bool {
    match (when, wanted) {
        (Some(when), Some(wanted)) => same(when, wanted.get()),
        (None, None) => true,
        _ => false,
    }
}

/// An index with an array key between others, whose WHEN counts, and a filter of three conjuncts.
const AROUND_AN_ARRAY: &str =
    "CREATE INDEX ix ON ks(x, ALL ARRAY v.a FOR v IN t WHEN v.b > 1 END, y.z, META().id) \
    WHERE x > 0 AND (y IS VALUED AND META(ks).id < 'k') WITH {\"defer_build\": true}";

const AROUND_AN_ARRAY_KEYS: [&str; 4] = [
    "x",
    "ARRAY v.a FOR v IN t WHEN v.b > 1 END",
    "y.z",
    "META().id",
];

const AROUND_AN_ARRAY_FILTER: [&str; 3] = ["x > 0", "y IS VALUED", "META().id < 'k'"];

/// An index whose keys are of many kinds, each with parts of its own.
const OF_MANY_KINDS: &str =
    "CREATE INDEX kinds ON ks(LENGTH(x), [x, 1], {\"a\": x, \"b\": 2}, CASE WHEN x THEN 1 ELSE 2 END, \
    ANY v IN t SATISFIES v = 1 END, EVERY v IN t SATISFIES v END, ARRAY v FOR v IN t WHEN v END, FIRST v FOR v IN t END, \
    x BETWEEN 1 AND y, x IN [1, 2], -x, NOT x, x IS MISSING, t[0], DISTINCT ARRAY v FOR v IN t END)";

const OF_MANY_KINDS_KEYS: [&str; 15] = [
    "LENGTH(x)",
    "[x, 1]",
    "{\"a\": x, \"b\": 2}",
    "CASE WHEN x THEN 1 ELSE 2 END",
    "ANY v IN t SATISFIES v = 1 END",
    "EVERY v IN t SATISFIES v END",
    "ARRAY v FOR v IN t WHEN v END",
    "FIRST v FOR v IN t END",
    "x BETWEEN 1 AND y",
    "x IN [1, 2]",
    "-x",
    "NOT x",
    "x IS MISSING",
    "t[0]",
    "ARRAY v FOR v IN t END",
];

fn around_an_array_keys() -> &'static [&'static str] {
    &AROUND_AN_ARRAY_KEYS
}

fn around_an_array_filter() -> &'static [&'static str] {
    &AROUND_AN_ARRAY_FILTER
}

fn of_many_kinds_keys() -> &'static [&'static str] {
    &OF_MANY_KINDS_KEYS
}

/// Whether the definition of a statement is this one, whole.
fn defines(
    alloc: Global,
    create: &Create,
    name: &str,
    keys: &[&str],
    filter: &[&str],
) -> Result<bool, Memory> {
    let def = definition(alloc, create)?;
    Ok(
        is_named(&def, name)
            && are_keys(alloc, def.keys.as_slice(), keys)?
            && are_expressions(alloc, def.filter.as_slice(), filter)?,
    )
}

/// The same of a statement's text.
fn text_defines(
    alloc: Global,
    text: &str,
    name: &str,
    keys: &[&str],
    filter: &[&str],
) -> Result<bool, Memory> {
    let create = creation(alloc, text)?;
    defines(alloc, &create, name, keys, filter)
}

#[test]
fn a_definition_is_what_its_statement_says(rt: HostRuntime) -> Result<(), Memory> {
    let keys = around_an_array_keys();
    let filter = around_an_array_filter();
    let defined = text_defines(rt.alloc(), AROUND_AN_ARRAY, "ix", keys, filter)?;
    assert!(rt; defined);
    Ok(())
}

#[test]
fn keys_of_every_kind_are_kept(rt: HostRuntime) -> Result<(), Memory> {
    let keys = of_many_kinds_keys();
    let defined = text_defines(rt.alloc(), OF_MANY_KINDS, "kinds", keys, &[])?;
    assert!(rt; defined);
    Ok(())
}

/// Whether the definition of a statement has an array key that gives each value once, as its first key. Any other key ends the test too.
fn first_is_distinct(alloc: Global, create: &Create) -> Result<bool, Memory> {
    let def = definition(alloc, create)?;
    match def.keys.get(0) {
        Some(Key::Each { distinct, .. }) => Ok(*distinct),
        _ => Err(Memory),
    }
}

/// The same of a statement's text.
fn is_distinct(alloc: Global, text: &str) -> Result<bool, Memory> {
    let create = creation(alloc, text)?;
    first_is_distinct(alloc, &create)
}

#[test]
fn distinct_and_all_are_told_apart(rt: HostRuntime) -> Result<(), Memory> {
    for (text, want) in [
        (
            "CREATE INDEX ix ON ks(DISTINCT ARRAY v FOR v IN t END, x)",
            true,
        ),
        (
            "CREATE INDEX ix ON ks(ALL ARRAY v FOR v IN t END, x)",
            false,
        ),
    ] {
        let distinct = is_distinct(rt.alloc(), text)?;
        assert_eq!(rt; distinct, want);
    }
    Ok(())
}

/// Whether the definition of a statement is that of a primary index.
fn is_primary(alloc: Global, create: &Create) -> Result<bool, Memory> {
    let def = definition(alloc, create)?;
    Ok(
        def.primary
            && def.filter.is_empty()
            && are_keys(alloc, def.keys.as_slice(), &["META().id"])?,
    )
}

/// The same of a statement's text.
fn text_is_primary(alloc: Global, text: &str) -> Result<bool, Memory> {
    let create = creation(alloc, text)?;
    is_primary(alloc, &create)
}

#[test]
fn a_primary_index_has_the_one_key(rt: HostRuntime) -> Result<(), Memory> {
    let primary = text_is_primary(rt.alloc(), "CREATE PRIMARY INDEX ON ks")?;
    assert!(rt; primary);
    Ok(())
}

/// The reason why a statement defines no index.
fn reason_of_text(alloc: Global, text: &str) -> Result<Option<Reason>, Memory> {
    let create = creation(alloc, text)?;
    reason_of(alloc, &create)
}

#[test]
fn meta_of_another_name(rt: HostRuntime) -> Result<(), Memory> {
    let alloc = rt.alloc();
    for (text, want) in [
        ("CREATE INDEX ix ON ks(META(ks).id)", None),
        (
            "CREATE INDEX ix ON ks(META(z).id)",
            Some(Reason::ConstantKey),
        ),
        (
            "CREATE INDEX ix ON ks(x = META(z).id)",
            Some(Reason::MetaAlias),
        ),
        (
            "CREATE INDEX ix ON ks(x) WHERE META(z).id = 'a'",
            Some(Reason::MetaAlias),
        ),
        (
            "CREATE INDEX ix ON ks(x) WITH {\"defer_build\": META(z).id}",
            Some(Reason::MetaAlias),
        ),
        (
            "CREATE INDEX ix ON ks(x) WITH {\"defer_build\": META(ks).id}",
            Some(Reason::With),
        ),
    ] {
        let reason = reason_of_text(alloc, text)?;
        assert_eq!(rt; reason, want, "of {text:?}");
    }
    Ok(())
}
