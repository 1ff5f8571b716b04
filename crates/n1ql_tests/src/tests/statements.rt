use crate::tests::trees::{show, show_part};
use n1ql_ast::{Create, Ddl, Expr, Key, Names};
use n1ql_parse::{ParseFault, ddl};
use std::alloc::{AllocError, Global};
use std::fmt::Write;
use std::process::Abort;
use std::test::Fail;

/// Texts, and what their statements are.
const STATEMENTS: [(&str, &str); 17] = [
    ("CREATE INDEX ix ON ks(a)", "create ix on ks key doc.a"),
    (
        "create index `i x` on `k s` (`k s`, a.`ON`)",
        "create i x on k s key doc key doc.a.ON",
    ),
    (
        "CREATE INDEX ix ON ks(META().id, a + 1) WHERE a > 0 AND ks.b USING GSI WITH {\"defer_build\": true}",
        "create ix on ks key meta true.id key (Add doc.a 1) where (And (Gt doc.a 0) doc.b) with (Build defer_build:true)",
    ),
    (
        "CREATE INDEX ix ON ks(ALL ARRAY v FOR v IN a END, b)",
        "create ix on ks all v $v doc.a key doc.b",
    ),
    (
        "Create Index ix On ks(Distinct Array v.c For v In v.a When v > 1 End) Using Gsi",
        "create ix on ks distinct v $v.c doc.v.a when (Gt $v 1)",
    ),
    (
        "CREATE INDEX ix ON ks(ARRAY v FOR v IN a END) WHERE a IN [1]",
        "create ix on ks key (Array v $v doc.a) where (In doc.a (List 1))",
    ),
    (
        "CREATE INDEX ix ON ks(a) WITH {}",
        "create ix on ks key doc.a with (Build)",
    ),
    (
        "CREATE PRIMARY INDEX ON ks",
        "primary #primary on ks key meta true.id",
    ),
    (
        "CREATE PRIMARY INDEX p ON ks USING GSI WITH {'defer_build': false}",
        "primary p on ks key meta true.id with (Build defer_build:false)",
    ),
    ("BUILD INDEX ON ks(a)", "build on ks a"),
    (
        "build index on ks(c, `b c`, a) using gsi",
        "build on ks c b c a",
    ),
    ("DROP INDEX ix ON ks", "remove ix on ks"),
    ("DROP INDEX ix ON ks USING GSI", "remove ix on ks"),
    ("DROP INDEX ks.ix", "remove ix on ks"),
    ("drop index `k s`.`i x` using gsi", "remove i x on k s"),
    ("DROP PRIMARY INDEX ON ks", "remove #primary on ks"),
    (
        "DROP PRIMARY INDEX ON ks USING GSI",
        "remove #primary on ks",
    ),
];

/// Texts, and the places of their faults.
const FAULTS: [(&str, usize); 37] = [
    ("", 0),
    ("SELECT", 0),
    ("CREATE", 6),
    ("CREATE a", 7),
    ("CREATE INDEX ON ks(a)", 13),
    ("CREATE INDEX ix ks(a)", 16),
    ("CREATE INDEX ix ON (a)", 19),
    ("CREATE INDEX ix ON ks", 21),
    ("CREATE INDEX ix ON ks()", 22),
    ("CREATE INDEX ix ON ks(a", 23),
    ("CREATE INDEX ix ON ks(a,)", 24),
    ("CREATE INDEX ix ON ks(a b)", 24),
    ("CREATE INDEX ix ON ks(SUM(a))", 25),
    ("CREATE INDEX ix ON ks(ALL a)", 26),
    ("CREATE INDEX ix ON ks(DISTINCT ARRAY a END)", 39),
    ("CREATE INDEX ix ON ks(a) a", 25),
    ("CREATE INDEX ix ON ks(a) WHERE", 30),
    ("CREATE INDEX ix ON ks(a) WHERE b c", 33),
    ("CREATE INDEX ix ON ks(a) USING", 30),
    ("CREATE INDEX ix ON ks(a) USING GSI WHERE b", 35),
    ("CREATE INDEX ix ON ks(a) WITH 1", 30),
    ("CREATE INDEX ix ON ks(a) WITH {a: 1}", 31),
    ("CREATE INDEX ix ON ks(a) WITH {} USING GSI", 33),
    ("CREATE PRIMARY ON ks", 15),
    ("CREATE PRIMARY INDEX p ks", 23),
    ("CREATE PRIMARY INDEX ON ks(a)", 26),
    ("BUILD ON ks(a)", 6),
    ("BUILD INDEX ON ks", 17),
    ("BUILD INDEX ON ks(1)", 18),
    ("BUILD INDEX ON ks(a.b)", 19),
    ("BUILD INDEX ON ks(a) WITH {}", 21),
    ("DROP ix", 5),
    ("DROP INDEX ix", 13),
    ("DROP INDEX ks.ix ON ks", 17),
    ("DROP INDEX ix ON ks.a", 19),
    ("DROP PRIMARY INDEX p ON ks", 19),
    ("DROP PRIMARY INDEX ON ks ;", 25),
];

fn show_key(out: &mut String, key: &Key) -> Result<(), AllocError> {
    match key {
        Key::Plain(e) => {
            out.push_str(" key ")?;
            show(out, e)
        }
        Key::Each {
            distinct,
            item,
            var,
            over,
            when,
        } => {
            out.push_str(if *distinct { " distinct " } else { " all " })?;
            write!(out, "{} ", var.as_str())?;
            show(out, item)?;
            out.push_str(" ")?;
            show(out, over)?;
            show_part(out, " when ", when)
        }
    }
}

fn show_create(out: &mut String, index: &Create) -> Result<(), AllocError> {
    out.push_str(if index.primary { "primary " } else { "create " })?;
    write!(
        out,
        "{} on {}",
        index.name.as_str(),
        index.keyspace.as_str()
    )?;
    for key in index.keys.as_slice() {
        show_key(out, key)?;
    }
    show_part(out, " where ", &index.filter)?;
    show_part(out, " with ", &index.options)
}

fn show_build(out: &mut String, keyspace: &str, names: &Names) -> Result<(), AllocError> {
    write!(out, "build on {keyspace}")?;
    for name in names.as_slice() {
        write!(out, " {}", name.as_str())?;
    }
    Ok(())
}

fn show_statement(out: &mut String, statement: &Ddl) -> Result<(), AllocError> {
    match statement {
        Ddl::Create(index) => show_create(out, index),
        Ddl::Build { keyspace, names } => show_build(out, keyspace.as_str(), names),
        Ddl::Remove { keyspace, name } => {
            write!(out, "remove {} on {}", name.as_str(), keyspace.as_str())
        }
    }
}

/// What a statement is, in words.
fn text_of(alloc: Global, statement: &Ddl) -> Result<String, AllocError> {
    let mut out = String::new(alloc);
    show_statement(&mut out, statement)?;
    Ok(out)
}

/// Where a fault is, in words.
fn text_of_fault(alloc: Global, fault: ParseFault) -> Result<String, AllocError> {
    let mut out = String::new(alloc);
    match fault {
        ParseFault::Fault { at } => write!(out, "fault {at}")?,
        ParseFault::Memory => out.push_str("memory")?,
    }
    Ok(out)
}

fn statement_of(alloc: Global, text: &str) -> Result<String, AllocError> {
    match ddl(alloc, text) {
        Ok(statement) => text_of(alloc, &statement),
        Err(fault) => text_of_fault(alloc, fault),
    }
}

fn check_statements(rt: &impl Abort, alloc: Global, table: &[(&str, &str)]) -> Result<(), Fail> {
    for (text, wanted) in table {
        assert_eq!(rt; statement_of(alloc, text)?.as_str(), *wanted, "of {text:?}");
    }
    Ok(())
}

fn check_faults(rt: &impl Abort, alloc: Global, table: &[(&str, usize)]) {
    for (text, at) in table {
        let fault = ddl(alloc, text).err();
        assert_eq!(rt; fault, Some(ParseFault::Fault { at: *at }), "of {text:?}");
    }
}

#[test]
fn texts_are_these_statements(rt: HostRuntime) -> Result<(), Fail> {
    check_statements(&rt, rt.alloc(), &STATEMENTS)
}

#[test]
fn texts_have_these_faults_as_statements(rt: HostRuntime) {
    check_faults(&rt, rt.alloc(), &FAULTS);
}
