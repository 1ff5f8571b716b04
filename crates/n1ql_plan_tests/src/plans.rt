//! Plans as texts.

use crate::catalogs::catalog_of;
use index_ddl::Catalog;
use n1ql_json::write;
use n1ql_parse::select;
use n1ql_plan::{Plan, PlanFault, plan};
use n1ql_value::{Memory, Range, Value};
use std::alloc::Global;
use std::process::Abort;
use std::test::Fail;

/// A bound as JSON, and nothing for a free side.
fn show_bound(out: &mut Vec<u8>, bound: &Option<Value>) -> Result<(), Memory> {
    match bound {
        Some(Value::Missing) => add(out, "MISSING"),
        Some(value) => write(value, out),
        None => Ok(()),
    }
}

/// Adds a text at the end.
pub fn add(out: &mut Vec<u8>, text: &str) -> Result<(), Memory> {
    out.extend_from_slice(text.as_bytes())?;
    Ok(())
}

/// A range, where a bracket tells that its bound is in: `[1,2)`.
fn show_range(out: &mut Vec<u8>, range: &Range) -> Result<(), Memory> {
    add(
        out,
        if range.incl == 1 || range.incl == 3 {
            "["
        } else {
            "("
        },
    )?;
    show_bound(out, &range.low)?;
    add(out, ",")?;
    show_bound(out, &range.high)?;
    add(
        out,
        if range.incl == 2 || range.incl == 3 {
            "]"
        } else {
            ")"
        },
    )
}

/// A span: the ranges of the keys, one behind the other.
pub fn show_span(out: &mut Vec<u8>, span: &[Range]) -> Result<(), Memory> {
    add(out, " ")?;
    for range in span {
        show_range(out, range)?;
    }
    Ok(())
}

fn show_plan(out: &mut Vec<u8>, plan: &Plan) -> Result<(), Memory> {
    write(&Value::Int(i64::from(plan.index)), out)?;
    add(out, if plan.covered { " covered" } else { "" })?;
    add(out, if plan.ordered { " ordered" } else { "" })?;
    for span in plan.spans.as_slice() {
        show_span(out, span.as_slice())?;
    }
    Ok(())
}

fn name_of(fault: PlanFault) -> &'static str {
    match fault {
        PlanFault::Unknown => "unknown",
        PlanFault::NotOnline => "not online",
        PlanFault::NoIndex => "no index",
        PlanFault::Memory => "memory",
    }
}

/// The number of the index that answers a statement, whether it covers, and its spans; or why there is none.
pub fn plan_of(alloc: Global, catalog: &Catalog, text: &str) -> Result<Vec<u8>, Memory> {
    let mut out = Vec::new(alloc);
    match select(alloc, text) {
        Ok(q) => match plan(alloc, &q, catalog) {
            Ok(plan) => show_plan(&mut out, &plan)?,
            Err(fault) => add(&mut out, name_of(fault))?,
        },
        Err(_) => add(&mut out, "no statement")?,
    }
    Ok(out)
}

/// Compares the plans of statements over some indexes with what is wanted.
pub fn check_plans(
    rt: &impl Abort,
    alloc: Global,
    indexes: &[&str],
    table: &[(&str, &str)],
) -> Result<(), Fail> {
    let catalog = catalog_of(alloc, indexes)?;
    for (text, wanted) in table {
        let found = plan_of(alloc, &catalog, text)?;
        assert_eq!(rt; found.as_slice(), wanted.as_bytes(), "of {text:?}");
    }
    Ok(())
}
