//! Commands that are refused, each reason that needs no query.
use crate::replaying::{check, has_line};
use std::test::Fail;

/// A constant key, a name that exists and one that doesn't.
#[test]
fn a_refused_statement_leaves_the_next_one(rt: HostRuntime) -> Result<(), Fail> {
    check(
        &rt,
        r#"{"gsi":1,"vbuckets":1,"clients":1}
{"c":0,"do":"ddl","q":"CREATE INDEX ix ON ks(1)"}
{"c":0,"do":"ddl","q":"CREATE INDEX ix ON ks(x)"}
{"c":0,"do":"ddl","q":"CREATE INDEX ix ON ks(x)"}
{"c":0,"do":"ddl","q":"DROP INDEX nope ON ks"}
"#,
        r#"{"c":0,"code":3,"e":"refuse","k":0,"reason":"constant_key","what":"bad_definition"}
{"c":0,"e":"define","i":0,"k":1,"state":"building"}
{"c":0,"e":"online","indexes":[0],"k":1}
{"c":0,"code":4,"e":"refuse","k":2,"what":"exists"}
{"c":0,"code":5,"e":"refuse","k":3,"what":"unknown_index"}
{"e":"end","events":5,"high":{},"indexes":[{"i":0,"name":"ix","rows":0,"state":"online","v":{}}]}
"#,
    )
}

/// So does a request whose demand isn't met. Each of the last two scans wants what the first one saw, and no more.
#[test]
fn a_refusal_leaves_what_its_client_saw(rt: HostRuntime) -> Result<(), Fail> {
    check(
        &rt,
        r#"{"gsi":1,"vbuckets":1,"clients":1}
{"c":0,"do":"ddl","q":"CREATE INDEX ix ON ks(x)"}
{"c":0,"do":"upsert","id":"a","doc":{"x":1}}
{"c":0,"do":"scan","index":"ix","consistency":"request_plus"}
{"c":0,"do":"upsert","id":"a","doc":{"x":2}}
{"c":0,"do":"scan","index":"nope","consistency":"at_plus","at":{"0":2}}
{"c":0,"do":"scan","index":"ix"}
{"c":0,"do":"scan","index":"ix","consistency":"at_plus","at":{"0":9},"wait":false}
{"c":0,"do":"scan","index":"ix"}
"#,
        r#"{"c":0,"e":"define","i":0,"k":0,"state":"building"}
{"c":0,"e":"online","indexes":[0],"k":0}
{"c":0,"e":"mutate","k":1,"seq":1,"vb":0}
{"c":0,"d":{"0":1},"e":"start","i":0,"k":2}
{"e":"publish","i":0,"v":{"0":1}}
{"c":0,"e":"answer","k":2,"rows":[{"id":"a","keys":[[1]]}],"v":{"0":1}}
{"c":0,"e":"mutate","k":3,"seq":2,"vb":0}
{"c":0,"code":5,"e":"refuse","k":4,"what":"unknown_index"}
{"c":0,"d":{"0":1},"e":"start","i":0,"k":5}
{"c":0,"e":"answer","k":5,"rows":[{"id":"a","keys":[[1]]}],"v":{"0":1}}
{"c":0,"d":{"0":9},"e":"start","i":0,"k":6}
{"c":0,"code":11,"e":"not_yet","have":1,"k":6,"v":{"0":1},"vb":0,"want":9}
{"c":0,"d":{"0":1},"e":"start","i":0,"k":7}
{"c":0,"e":"answer","k":7,"rows":[{"id":"a","keys":[[1]]}],"v":{"0":1}}
{"e":"publish","i":0,"v":{"0":2}}
{"e":"end","events":15,"high":{"0":2},"indexes":[{"i":0,"name":"ix","rows":1,"state":"online","v":{"0":2}}]}
"#,
    )
}

/// Each code, but that of too many indexes.
#[test]
fn each_refusal_has_its_code(rt: HostRuntime) -> Result<(), Fail> {
    for (lines, line) in [
        (
            r#"{"c":0,"do":"ddl","q":"CREATE INDEX ix ON ks(x"}"#,
            r#"{"at":23,"c":0,"code":1,"e":"refuse","k":0,"what":"parse"}"#,
        ),
        (
            r#"{"c":0,"do":"ddl","q":""}"#,
            r#"{"at":0,"c":0,"code":1,"e":"refuse","k":0,"what":"parse"}"#,
        ),
        (
            r#"{"c":0,"do":"ddl","q":"DROP INDEX ix ON shop"}"#,
            r#"{"c":0,"code":2,"e":"refuse","k":0,"what":"keyspace"}"#,
        ),
        (
            r#"{"c":0,"do":"ddl","q":"CREATE INDEX ix ON ks(1)"}"#,
            r#"{"c":0,"code":3,"e":"refuse","k":0,"reason":"constant_key","what":"bad_definition"}"#,
        ),
        (
            r#"{"c":0,"do":"ddl","q":"CREATE INDEX ix ON ks(x)"}
{"c":0,"do":"upsert","id":"a","doc":{"x":1}}
{"c":0,"do":"ddl","q":"CREATE INDEX ix ON ks(x)"}"#,
            r#"{"c":0,"code":4,"e":"refuse","k":2,"what":"exists"}"#,
        ),
        (
            r#"{"c":0,"do":"ddl","q":"DROP INDEX nope ON ks"}"#,
            r#"{"c":0,"code":5,"e":"refuse","k":0,"what":"unknown_index"}"#,
        ),
        (
            r#"{"c":1,"do":"ddl","q":"BUILD INDEX ON ks(nope)"}"#,
            r#"{"c":1,"code":5,"e":"refuse","k":0,"what":"unknown_index"}"#,
        ),
        (
            r#"{"c":0,"do":"scan","index":"ix"}"#,
            r#"{"c":0,"code":5,"e":"refuse","k":0,"what":"unknown_index"}"#,
        ),
        (
            r#"{"c":0,"do":"ddl","q":"CREATE INDEX ix ON ks(x)"}
{"c":0,"do":"ddl","q":"BUILD INDEX ON ks(ix)"}"#,
            r#"{"c":0,"code":6,"e":"refuse","k":1,"what":"not_deferred"}"#,
        ),
        (
            r#"{"c":0,"do":"ddl","q":"CREATE INDEX ix ON ks(x)"}
{"c":1,"do":"scan","index":"ix"}
{"s":"client","c":0}
{"s":"client","c":1}"#,
            r#"{"c":1,"code":8,"e":"refuse","k":0,"what":"not_online"}"#,
        ),
        (
            r#"{"c":0,"do":"ddl","q":"CREATE INDEX ix ON ks(x)"}
{"c":1,"do":"ddl","q":"DROP INDEX ix ON ks"}
{"s":"client","c":0}
{"s":"client","c":1}"#,
            r#"{"c":0,"code":10,"e":"refuse","k":0,"what":"dropped"}"#,
        ),
        (
            r#"{"c":0,"do":"ddl","q":"CREATE INDEX ix ON ks(x)"}
{"c":0,"do":"scan","index":"ix"}
{"c":1,"do":"ddl","q":"DROP INDEX ix ON ks"}
{"s":"client","c":0}
{"s":"client","c":0}
{"s":"client","c":0}
{"s":"client","c":1}"#,
            r#"{"c":0,"code":10,"e":"refuse","k":1,"what":"dropped"}"#,
        ),
        (
            r#"{"c":0,"do":"ddl","q":"CREATE INDEX ix ON ks(x)"}
{"c":0,"do":"upsert","id":"a","doc":{"x":1}}
{"c":0,"do":"scan","index":"ix","consistency":"request_plus","wait":false}"#,
            r#"{"c":0,"code":11,"e":"not_yet","have":0,"k":2,"v":{},"vb":0,"want":1}"#,
        ),
    ] {
        has_line(&rt, lines, line)?;
    }
    Ok(())
}

/// Each reason against a definition.
#[test]
fn each_reason_against_a_definition_is_told(rt: HostRuntime) -> Result<(), Fail> {
    for (lines, line) in [
        (
            r#"{"c":0,"do":"ddl","q":"CREATE INDEX ix ON ks(a, b, c, d, e, f, g, h, i, j, k, l, m, n, o, p, q)"}"#,
            r#"{"c":0,"code":3,"e":"refuse","k":0,"reason":"too_many_keys","what":"bad_definition"}"#,
        ),
        (
            r#"{"c":0,"do":"ddl","q":"CREATE INDEX ix ON ks(DISTINCT ARRAY v FOR v IN t END, ALL ARRAY v FOR v IN u END)"}"#,
            r#"{"c":0,"code":3,"e":"refuse","k":0,"reason":"two_arrays","what":"bad_definition"}"#,
        ),
        (
            r#"{"c":0,"do":"ddl","q":"CREATE INDEX ix ON ks(x, 1 + 2)"}"#,
            r#"{"c":0,"code":3,"e":"refuse","k":0,"reason":"constant_key","what":"bad_definition"}"#,
        ),
        (
            r#"{"c":0,"do":"ddl","q":"CREATE INDEX ix ON ks(x) WHERE META(other).id = 'a'"}"#,
            r#"{"c":0,"code":3,"e":"refuse","k":0,"reason":"meta_alias","what":"bad_definition"}"#,
        ),
        (
            r#"{"c":0,"do":"ddl","q":"CREATE INDEX ix ON ks(x) WITH {\"defer\": true}"}"#,
            r#"{"c":0,"code":3,"e":"refuse","k":0,"reason":"with","what":"bad_definition"}"#,
        ),
    ] {
        has_line(&rt, lines, line)?;
    }
    Ok(())
}

/// Of several reasons the first one is told.
#[test]
fn the_first_reason_is_told(rt: HostRuntime) -> Result<(), Fail> {
    for (lines, line) in [
        (
            r#"{"c":0,"do":"ddl","q":"CREATE INDEX ix ON ks(x)"}
{"c":0,"do":"ddl","q":"CREATE INDEX ix ON shop(1"}"#,
            r#"{"at":25,"c":0,"code":1,"e":"refuse","k":1,"what":"parse"}"#,
        ),
        (
            r#"{"c":0,"do":"ddl","q":"CREATE INDEX ix ON ks(x)"}
{"c":0,"do":"ddl","q":"CREATE INDEX ix ON shop(1)"}"#,
            r#"{"c":0,"code":2,"e":"refuse","k":1,"what":"keyspace"}"#,
        ),
        (
            r#"{"c":0,"do":"ddl","q":"CREATE INDEX ix ON ks(x)"}
{"c":0,"do":"ddl","q":"CREATE INDEX ix ON ks(1)"}"#,
            r#"{"c":0,"code":3,"e":"refuse","k":1,"reason":"constant_key","what":"bad_definition"}"#,
        ),
        (
            r#"{"c":0,"do":"ddl","q":"CREATE INDEX ix ON ks(x)"}
{"c":0,"do":"ddl","q":"BUILD INDEX ON ks(ix, nope)"}"#,
            r#"{"c":0,"code":5,"e":"refuse","k":1,"what":"unknown_index"}"#,
        ),
    ] {
        has_line(&rt, lines, line)?;
    }
    Ok(())
}
