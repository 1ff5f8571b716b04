ghost use Rattle.n1ql_ast.specs.FormedSelections.{IsFormedSelect};

use n1ql_ast::Select;
use n1ql_json::{JsonFault, read, write};
use n1ql_parse::{ParseFault, select};
use n1ql_value::{Memory, Text, Vals, Value};
use pipe_rows::laws::formed_statements_can_be_evaluated;
use pipe_rows::{Input, Inputs, base_rows, finish, plain_outs};
use std::alloc::Global;
use std::process::Abort;

/// Statements, documents by their ids, and results, MISSING as that word.
const RESULTS: [(&str, &str, &str); 18] = [
    (
        "SELECT x FROM ks WHERE x > 1 AND on_sale = TRUE",
        "{\"a\":{\"x\":5,\"on_sale\":true},\"b\":{\"x\":7,\"on_sale\":false}}",
        "{\"x\":5}",
    ),
    (
        "SELECT y OR z AS p, y AND z AS q FROM ks WHERE x = 1",
        "{\"a\":{\"x\":1,\"y\":null}}",
        "{\"p\":null}",
    ),
    (
        "SELECT 1 AS a, x AS a, y AS a, x + 1 FROM ks",
        "{\"d\":{\"x\":2}}",
        "{\"$4\":3,\"a\":2}",
    ),
    (
        "SELECT *, v.*, t.* FROM ks UNNEST ks.t AS v",
        "{\"a\":{\"t\":[{\"n\":1},2]}}",
        "{\"ks\":{\"t\":[{\"n\":1},2]},\"n\":1,\"v\":{\"n\":1}},{\"ks\":{\"t\":[{\"n\":1},2]},\"v\":2}",
    ),
    (
        "SELECT ks.*, name.*, n AS n FROM ks",
        "{\"a\":{\"name\":{\"n\":3,\"m\":4},\"n\":1},\"b\":{\"name\":7}}",
        "{\"m\":4,\"n\":1,\"name\":{\"m\":4,\"n\":3}},{\"name\":7}",
    ),
    (
        "SELECT META().id AS id, v FROM ks LEFT UNNEST ks.t AS v",
        "{\"a\":{\"t\":[7,8]},\"b\":{\"t\":[]},\"c\":{}}",
        "{\"id\":\"a\",\"v\":7},{\"id\":\"a\",\"v\":8},{\"id\":\"b\"},{\"id\":\"c\"}",
    ),
    (
        "SELECT RAW v FROM ks UNNEST ks.t AS v",
        "{\"a\":{\"t\":[7,8]},\"b\":{\"t\":[]},\"c\":{\"t\":4}}",
        "7,8",
    ),
    (
        "SELECT RAW w FROM ks UNNEST t AS v UNNEST v AS w ORDER BY v DESC",
        "{\"a\":{\"t\":[[1,2],[3]]},\"b\":{\"t\":[[1,2],4,[0]]}}",
        "3,1,2,1,2,0",
    ),
    (
        "SELECT DISTINCT RAW g FROM ks ORDER BY n DESC",
        "{\"a\":{\"g\":1,\"n\":1},\"b\":{\"g\":2,\"n\":2},\"c\":{\"g\":1,\"n\":3}}",
        "2,1",
    ),
    (
        "SELECT DISTINCT g, h FROM ks",
        "{\"a\":{\"g\":1},\"b\":{\"h\":2},\"c\":{\"g\":1},\"d\":{\"g\":[1]}}",
        "{\"g\":1},{\"h\":2},{\"g\":[1]}",
    ),
    (
        "SELECT -x AS x FROM ks ORDER BY x",
        "{\"a\":{\"x\":1},\"b\":{\"x\":2}}",
        "{\"x\":-2},{\"x\":-1}",
    ),
    (
        "SELECT o.p.x FROM ks AS o ORDER BY x",
        "{\"a\":{\"p\":{\"x\":1},\"x\":9},\"b\":{\"p\":{\"x\":2},\"x\":8}}",
        "{\"x\":2},{\"x\":1}",
    ),
    (
        "SELECT x AS k, y AS k FROM ks ORDER BY k DESC",
        "{\"a\":{\"x\":1,\"y\":2},\"b\":{\"x\":2,\"y\":1},\"c\":{\"x\":3}}",
        "{\"k\":2},{\"k\":1},{\"k\":3}",
    ),
    (
        "SELECT RAW META().id FROM ks ORDER BY g DESC, h",
        "{\"a\":{\"g\":1,\"h\":2},\"b\":{\"g\":1,\"h\":1},\"c\":{\"g\":2},\"d\":{\"h\":1},\"e\":{\"g\":1,\"h\":1}}",
        "\"c\",\"b\",\"e\",\"a\",\"d\"",
    ),
    (
        "SELECT RAW x FROM ks LIMIT 1 OFFSET 1",
        "{\"a\":{\"x\":1},\"b\":{\"x\":2},\"c\":{\"x\":3}}",
        "2",
    ),
    ("SELECT RAW x FROM ks LIMIT 0", "{\"a\":{\"x\":1}}", ""),
    ("SELECT RAW x FROM ks OFFSET 5", "{\"a\":{\"x\":1}}", ""),
    (
        "SELECT RAW z FROM ks",
        "{\"a\":{\"z\":1},\"b\":{}}",
        "1,MISSING",
    ),
];

/// The documents of an object, by their names.
fn inputs_of(alloc: Global, documents: &Value) -> Result<Inputs, Memory> {
    let mut inputs = Inputs::new(alloc);
    if let Value::Object(documents) = documents {
        for (id, doc) in documents.as_slice() {
            inputs.push(Input {
                id: id.copy(alloc)?,
                doc: doc.copy(alloc)?,
                keys: Vals::new(alloc),
            })?;
        }
    }
    Ok(inputs)
}

/// The results of a statement that has no groups.
fn results_of(alloc: Global, q: &Select, inputs: &Inputs) -> Result<Vals, Memory>
    requires { IsFormedSelect q.now }
{
    formed_statements_can_be_evaluated();
    let rows = base_rows(alloc, q, inputs)?;
    let outs = plain_outs(alloc, q, rows.as_slice())?;
    finish(alloc, q, outs)
}

/// Results as JSON, one after another, MISSING as that word.
fn written(alloc: Global, results: &Vals) -> Result<Vec<u8>, Memory> {
    let mut out = Vec::new(alloc);
    for at in 0..results.len() {
        if at > 0 {
            out.extend_from_slice(b",")?;
        }
        match results.get(at) {
            Some(Value::Missing) | None => out.extend_from_slice(b"MISSING")?,
            Some(value) => write(value, &mut out)?,
        }
    }
    Ok(out)
}

/// A word in place of results.
fn word(alloc: Global, word: &[u8]) -> Result<Vec<u8>, Memory> {
    Ok(Vec::from_slice(alloc, word)?)
}

/// The results of a text on documents, or `fault` where it is no statement.
fn answer(alloc: Global, text: &str, documents: &str) -> Result<Vec<u8>, JsonFault> {
    let documents = read(alloc, documents.as_bytes())?;
    let inputs = inputs_of(alloc, &documents)?;
    match select(alloc, text) {
        Ok(q) => Ok(written(alloc, &results_of(alloc, &q, &inputs)?)?),
        Err(ParseFault::Fault { .. }) => Ok(word(alloc, b"fault")?),
        Err(ParseFault::Memory) => Err(JsonFault::Memory),
    }
}

fn check_results(
    rt: &impl Abort,
    alloc: Global,
    table: &[(&str, &str, &str)],
) -> Result<(), JsonFault> {
    for (text, documents, wanted) in table {
        let results = answer(alloc, text, documents)?;
        assert_eq!(rt; results.as_slice(), wanted.as_bytes(), "of {text:?}");
    }
    Ok(())
}

#[test]
fn statements_have_these_results(rt: HostRuntime) -> Result<(), JsonFault> {
    check_results(&rt, rt.alloc(), &RESULTS)
}
