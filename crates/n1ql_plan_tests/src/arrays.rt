//! Array keys: how well an index with one fits a statement, and its spans. The planner doesn't choose such an index yet.
ghost use Rattle.n1ql_ast.specs.FormedSelections.{IsFormedSelect};

use crate::catalogs::definition_of;
use crate::plans::{add, show_span};
use index_def::IndexDef;
use n1ql_ast::Select;
use n1ql_json::write;
use n1ql_parse::select;
use n1ql_spans::{Fit, fit, spans_of, where_conjuncts};
use n1ql_value::{Memory, Value};
use std::alloc::Global;
use std::process::Abort;
use std::test::Fail;

/// How many keys are bounded, and the spans.
fn show_fit(
    alloc: Global,
    out: &mut Vec<u8>,
    q: &Select,
    def: &IndexDef,
    fit: Fit,
) -> Result<(), Memory>
    requires { IsFormedSelect q.now }
{
    write(
        &Value::Int(i64::try_from(fit.ranged).unwrap_or(i64::MAX)),
        out,
    )?;
    add(out, if fit.covered { " covered" } else { "" })?;
    let conjuncts = where_conjuncts(alloc, q)?;
    let spans = spans_of(alloc, &conjuncts, def)?;
    for span in spans.as_slice() {
        show_span(out, span.as_slice())?;
    }
    Ok(())
}

fn fit_of(alloc: Global, def: &IndexDef, text: &str) -> Result<Vec<u8>, Memory> {
    let mut out = Vec::new(alloc);
    match select(alloc, text) {
        Ok(q) => match fit(alloc, &q, def)? {
            Some(fit) => show_fit(alloc, &mut out, &q, def, fit)?,
            None => add(&mut out, "none")?,
        },
        Err(_) => add(&mut out, "no statement")?,
    }
    Ok(out)
}

/// Compares how an index fits statements with what is wanted.
fn check_fits(
    rt: &impl Abort,
    alloc: Global,
    index: &str,
    table: &[(&str, &str)],
) -> Result<(), Fail> {
    let def = definition_of(alloc, index)?;
    for (text, wanted) in table {
        let found = fit_of(alloc, &def, text)?;
        assert_eq!(rt; found.as_slice(), wanted.as_bytes(), "of {text:?}");
    }
    Ok(())
}

/// Statements on an array key without WHEN.
const WITHOUT_WHEN: [(&str, &str); 16] = [
    (
        "SELECT 1 FROM ks WHERE ANY v IN t SATISFIES v = 1 END",
        "1 [1,1]",
    ),
    (
        "SELECT 1 FROM ks WHERE ANY v IN t SATISFIES v >= 1 AND v < 5 END",
        "1 [1,5)",
    ),
    (
        "SELECT 1 FROM ks WHERE ANY v IN t SATISFIES v IN [2, 1] AND b = 3 END",
        "1 [1,1] [2,2]",
    ),
    (
        "SELECT 1 FROM ks WHERE ANY v IN t SATISFIES v = NULL END",
        "1",
    ),
    (
        "SELECT 1 FROM ks WHERE ANY v IN t SATISFIES b = 3 END",
        "none",
    ),
    (
        "SELECT 1 FROM ks WHERE ANY v IN t SATISFIES v != 3 END",
        "none",
    ),
    // Another variable, another array, another item, and EVERY.
    (
        "SELECT 1 FROM ks WHERE ANY w IN t SATISFIES w = 1 END",
        "none",
    ),
    (
        "SELECT 1 FROM ks WHERE ANY v IN b SATISFIES v = 1 END",
        "none",
    ),
    (
        "SELECT 1 FROM ks WHERE ANY v IN t SATISFIES v.x = 1 END",
        "none",
    ),
    (
        "SELECT 1 FROM ks WHERE EVERY v IN t SATISFIES v = 1 END",
        "none",
    ),
    (
        "SELECT 1 FROM ks WHERE NOT ANY v IN t SATISFIES v = 1 END",
        "none",
    ),
    ("SELECT 1 FROM ks UNNEST t AS v WHERE v = 1", "none"),
    ("SELECT 1 FROM ks WHERE t = 1", "none"),
    // The first ANY that bounds.
    (
        "SELECT 1 FROM ks WHERE ANY v IN t SATISFIES v > 1 END AND ANY v IN t SATISFIES v < 5 END",
        "1 (1,)",
    ),
    (
        "SELECT 1 FROM ks WHERE ANY v IN t SATISFIES b = 1 END AND ANY v IN t SATISFIES v < 5 END",
        "1 (null,5)",
    ),
    (
        "SELECT META().id FROM ks WHERE a = 1 AND ANY v IN t SATISFIES v > 5 AND v < 1 END",
        "1",
    ),
];

#[test]
fn an_any_bounds_an_array_key(rt: HostRuntime) -> Result<(), Fail> {
    check_fits(
        &rt,
        rt.alloc(),
        "CREATE INDEX it ON ks(DISTINCT ARRAY v FOR v IN t END)",
        &WITHOUT_WHEN,
    )
}

/// Statements on an array key with WHEN.
const WITH_WHEN: [(&str, &str); 6] = [
    (
        "SELECT 1 FROM ks WHERE ANY v IN t SATISFIES v.x = 1 END",
        "none",
    ),
    (
        "SELECT 1 FROM ks WHERE ANY v IN t SATISFIES v.x = 1 AND v.y > 2 END",
        "none",
    ),
    (
        "SELECT 1 FROM ks WHERE ANY v IN t SATISFIES v.x = 1 AND v.y > 2 AND v.z IS NULL END",
        "1 [1,1]",
    ),
    (
        "SELECT 1 FROM ks WHERE ANY v IN t SATISFIES v.z IS NULL AND (v.y > 2 AND v.x < 7) END",
        "1 (null,7)",
    ),
    (
        "SELECT 1 FROM ks WHERE v.z IS NULL AND ANY v IN t SATISFIES v.x = 1 AND v.y > 2 END",
        "none",
    ),
    (
        "SELECT 1 FROM ks WHERE ANY v IN t SATISFIES v.x = 1 END AND ANY v IN t SATISFIES v.y > 2 AND v.z IS NULL AND v.x = 3 END",
        "1 [3,3]",
    ),
];

#[test]
fn an_any_has_the_when_of_the_key(rt: HostRuntime) -> Result<(), Fail> {
    check_fits(
        &rt,
        rt.alloc(),
        "CREATE INDEX it ON ks(ALL ARRAY v.x FOR v IN t WHEN v.y > 2 AND v.z IS NULL END)",
        &WITH_WHEN,
    )
}

/// Statements on an array key between two others.
const BETWEEN_OTHERS: [(&str, &str); 6] = [
    ("SELECT 1 FROM ks WHERE a = 1", "none"),
    (
        "SELECT 1 FROM ks WHERE ANY v IN t SATISFIES v = 1 END",
        "none",
    ),
    (
        "SELECT 1 FROM ks WHERE a = 1 AND ANY v IN t SATISFIES v = 2 END",
        "2 [1,1][2,2][,]",
    ),
    (
        "SELECT 1 FROM ks WHERE a IN [1, 2] AND ANY v IN t SATISFIES v IN [3, 5] END AND b < 7",
        "3 [1,1][3,5](null,7) [2,2][3,5](null,7)",
    ),
    (
        "SELECT 1 FROM ks WHERE a = 1 AND ANY v IN t SATISFIES v = 2 END AND b = NULL",
        "3",
    ),
    (
        "SELECT a FROM ks WHERE a = 1 AND ANY v IN t SATISFIES v > 2 END",
        "2 [1,1](2,)[,]",
    ),
];

#[test]
fn an_array_key_stands_between_others(rt: HostRuntime) -> Result<(), Fail> {
    check_fits(
        &rt,
        rt.alloc(),
        "CREATE INDEX iat ON ks(a, ALL ARRAY v FOR v IN t END, b)",
        &BETWEEN_OTHERS,
    )
}
