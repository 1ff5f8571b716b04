//! Indexes that are created, deferred, built, brought online and dropped.
use crate::replaying::check;
use std::test::Fail;

/// Once it is online, the common stream begins where it is, and the first piece is one that it has.
#[test]
fn an_index_under_build_has_a_stream_of_its_own(rt: HostRuntime) -> Result<(), Fail> {
    check(
        &rt,
        r#"{"gsi":1,"vbuckets":1,"clients":1,"batch":1}
{"c":0,"do":"upsert","id":"a","doc":{"x":1}}
{"c":0,"do":"ddl","q":"CREATE INDEX ix ON ks(x)"}
{"c":0,"do":"upsert","id":"b","doc":{"x":2}}
{"s":"client","c":0}
{"s":"client","c":0}
{"s":"project","vb":0,"index":"ix"}
{"s":"deliver","index":"ix"}
{"s":"publish","index":"ix"}
{"s":"client","c":0}
{"s":"client","c":0}
{"s":"project","vb":0}
{"s":"deliver","index":"ix"}
{"s":"project","vb":0}
{"s":"deliver","index":"ix"}
{"s":"publish","index":"ix"}
"#,
        r#"{"c":0,"e":"mutate","k":0,"seq":1,"vb":0}
{"c":0,"e":"define","i":0,"k":1,"state":"building"}
{"e":"publish","i":0,"v":{"0":1}}
{"c":0,"e":"online","indexes":[0],"k":1}
{"c":0,"e":"mutate","k":2,"seq":2,"vb":0}
{"e":"publish","i":0,"v":{"0":2}}
{"e":"end","events":6,"high":{"0":2},"indexes":[{"i":0,"name":"ix","rows":2,"state":"online","v":{"0":2}}]}
"#,
    )
}

/// The common stream is ahead of the second index, which gets what it lacks all the same.
#[test]
fn an_index_that_goes_online_takes_the_common_stream_back(rt: HostRuntime) -> Result<(), Fail> {
    check(
        &rt,
        r#"{"gsi":1,"vbuckets":1,"clients":2,"batch":1}
{"c":0,"do":"ddl","q":"CREATE INDEX ix ON ks(x)"}
{"c":0,"do":"upsert","id":"a","doc":{"x":1}}
{"c":0,"do":"ddl","q":"CREATE INDEX iy ON ks(x)"}
{"c":1,"do":"upsert","id":"b","doc":{"x":2}}
{"s":"client","c":0}
{"s":"client","c":0}
{"s":"client","c":0}
{"s":"client","c":0}
{"s":"client","c":1}
{"s":"project","vb":0}
{"s":"project","vb":0}
{"s":"project","vb":0,"index":"iy"}
{"s":"deliver","index":"iy"}
{"s":"publish","index":"iy"}
{"s":"client","c":0}
{"s":"project","vb":0}
{"s":"deliver","index":"iy"}
{"s":"publish","index":"iy"}
{"s":"lose","index":"ix","place":2}
{"s":"deliver","index":"ix"}
{"s":"deliver","index":"ix"}
{"s":"publish","index":"ix"}
"#,
        r#"{"c":0,"e":"define","i":0,"k":0,"state":"building"}
{"c":0,"e":"online","indexes":[0],"k":0}
{"c":0,"e":"mutate","k":1,"seq":1,"vb":0}
{"c":0,"e":"define","i":1,"k":2,"state":"building"}
{"c":1,"e":"mutate","k":0,"seq":2,"vb":0}
{"e":"publish","i":1,"v":{"0":1}}
{"c":0,"e":"online","indexes":[1],"k":2}
{"e":"publish","i":1,"v":{"0":2}}
{"e":"publish","i":0,"v":{"0":2}}
{"e":"end","events":9,"high":{"0":2},"indexes":[{"i":0,"name":"ix","rows":2,"state":"online","v":{"0":2}},{"i":1,"name":"iy","rows":2,"state":"online","v":{"0":2}}]}
"#,
    )
}

/// Its own stream isn't there before it is defined, nor once it is online.
#[test]
fn the_common_stream_passes_an_index_under_build(rt: HostRuntime) -> Result<(), Fail> {
    check(
        &rt,
        r#"{"gsi":1,"vbuckets":1,"clients":2,"batch":1}
{"c":0,"do":"upsert","id":"a","doc":{"x":1}}
{"c":0,"do":"ddl","q":"CREATE INDEX ix ON ks(x)"}
{"c":1,"do":"upsert","id":"b","doc":{"x":2}}
{"c":1,"do":"upsert","id":"c","doc":{"x":3}}
{"c":1,"do":"upsert","id":"d","doc":{"x":4}}
{"s":"project","vb":0,"index":"ix"}
{"s":"client","c":0}
{"s":"client","c":0}
{"s":"project","vb":0}
{"s":"deliver","index":"ix"}
{"s":"publish","index":"ix"}
{"s":"client","c":1}
{"s":"client","c":0}
{"s":"client","c":1}
{"s":"project","vb":0,"index":"ix"}
{"s":"rewind","to":{},"index":"ix"}
{"s":"project","vb":0,"index":"ix"}
{"s":"deliver","index":"ix"}
{"s":"publish","index":"ix"}
{"s":"client","c":1}
"#,
        r#"{"c":0,"e":"mutate","k":0,"seq":1,"vb":0}
{"c":0,"e":"define","i":0,"k":1,"state":"building"}
{"c":1,"e":"mutate","k":0,"seq":2,"vb":0}
{"e":"publish","i":0,"v":{"0":2}}
{"c":0,"e":"online","indexes":[0],"k":1}
{"c":1,"e":"mutate","k":1,"seq":3,"vb":0}
{"c":1,"e":"mutate","k":2,"seq":4,"vb":0}
{"e":"publish","i":0,"v":{"0":4}}
{"e":"end","events":8,"high":{"0":4},"indexes":[{"i":0,"name":"ix","rows":4,"state":"online","v":{"0":4}}]}
"#,
    )
}

/// What was lost while the index is built is sent again on its own stream, before another client writes.
#[test]
fn a_stream_of_an_index_goes_back_alone(rt: HostRuntime) -> Result<(), Fail> {
    check(
        &rt,
        r#"{"gsi":1,"vbuckets":1,"clients":2,"batch":1}
{"c":0,"do":"upsert","id":"a","doc":{"x":1}}
{"c":0,"do":"upsert","id":"b","doc":{"x":2}}
{"c":0,"do":"ddl","q":"CREATE INDEX ix ON ks(x)"}
{"c":1,"do":"upsert","id":"c","doc":{"x":3}}
{"s":"client","c":0}
{"s":"client","c":0}
{"s":"client","c":0}
{"s":"project","vb":0,"index":"ix"}
{"s":"project","vb":0,"index":"ix"}
{"s":"lose","index":"ix"}
{"s":"deliver","index":"ix"}
{"s":"publish","index":"ix"}
{"s":"rewind","to":{}}
{"s":"project","vb":0,"index":"ix"}
{"s":"rewind","to":{},"index":"ix"}
{"s":"project","vb":0,"index":"ix"}
{"s":"project","vb":0,"index":"ix"}
{"s":"deliver","index":"ix"}
{"s":"deliver","index":"ix"}
{"s":"publish","index":"ix"}
{"s":"client","c":1}
{"s":"client","c":0}
"#,
        r#"{"c":0,"e":"mutate","k":0,"seq":1,"vb":0}
{"c":0,"e":"mutate","k":1,"seq":2,"vb":0}
{"c":0,"e":"define","i":0,"k":2,"state":"building"}
{"e":"publish","i":0,"v":{"0":2}}
{"c":1,"e":"mutate","k":0,"seq":3,"vb":0}
{"c":0,"e":"online","indexes":[0],"k":2}
{"e":"publish","i":0,"v":{"0":3}}
{"e":"end","events":7,"high":{"0":3},"indexes":[{"i":0,"name":"ix","rows":3,"state":"online","v":{"0":3}}]}
"#,
    )
}

/// And neither do those of a client that has nothing left, or of a deferred index.
#[test]
fn lines_of_an_index_that_is_not_there_do_nothing(rt: HostRuntime) -> Result<(), Fail> {
    check(
        &rt,
        r#"{"gsi":1,"vbuckets":1,"clients":2,"batch":1}
{"c":0,"do":"upsert","id":"a","doc":{"x":1}}
{"c":0,"do":"ddl","q":"CREATE INDEX id ON ks(x) WITH {\"defer_build\": true}"}
{"c":1,"do":"upsert","id":"b","doc":{"x":2}}
{"s":"client","c":0}
{"s":"client","c":0}
{"s":"client","c":0}
{"s":"project","vb":0,"index":"iz"}
{"s":"deliver","index":"iz"}
{"s":"lose","index":"iz"}
{"s":"publish","index":"iz"}
{"s":"rewind","to":{},"index":"iz"}
{"s":"project","vb":0,"index":"id"}
{"s":"project","vb":0}
{"s":"deliver","index":"id"}
{"s":"lose","index":"id"}
{"s":"publish","index":"id"}
{"s":"rewind","to":{},"index":"id"}
{"s":"client","c":0}
{"s":"client","c":1}
"#,
        r#"{"c":0,"e":"mutate","k":0,"seq":1,"vb":0}
{"c":0,"e":"define","i":0,"k":1,"state":"deferred"}
{"c":1,"e":"mutate","k":0,"seq":2,"vb":0}
{"e":"end","events":3,"high":{"0":2},"indexes":[{"i":0,"name":"id","rows":0,"state":"deferred","v":{}}]}
"#,
    )
}

/// Until then it has no rows and answers no request; and it isn't built twice.
#[test]
fn a_deferred_index_is_built_by_a_statement(rt: HostRuntime) -> Result<(), Fail> {
    check(
        &rt,
        r#"{"gsi":1,"vbuckets":1,"clients":1}
{"c":0,"do":"upsert","id":"a","doc":{"x":1}}
{"c":0,"do":"ddl","q":"CREATE INDEX ix ON ks(x) WITH {\"defer_build\": true}"}
{"c":0,"do":"scan","index":"ix"}
{"c":0,"do":"ddl","q":"BUILD INDEX ON ks(ix)"}
{"c":0,"do":"scan","index":"ix"}
{"c":0,"do":"ddl","q":"BUILD INDEX ON ks(ix)"}
"#,
        r#"{"c":0,"e":"mutate","k":0,"seq":1,"vb":0}
{"c":0,"e":"define","i":0,"k":1,"state":"deferred"}
{"c":0,"code":8,"e":"refuse","k":2,"what":"not_online"}
{"c":0,"e":"build","indexes":[0],"k":3}
{"e":"publish","i":0,"v":{"0":1}}
{"c":0,"e":"online","indexes":[0],"k":3}
{"c":0,"d":{},"e":"start","i":0,"k":4}
{"c":0,"e":"answer","k":4,"rows":[{"id":"a","keys":[[1]]}],"v":{"0":1}}
{"c":0,"code":6,"e":"refuse","k":5,"what":"not_deferred"}
{"e":"end","events":9,"high":{"0":1},"indexes":[{"i":0,"name":"ix","rows":1,"state":"online","v":{"0":1}}]}
"#,
    )
}

/// They are caught up in the order of their numbers, and listed as the statement names them.
#[test]
fn indexes_go_online_in_the_order_of_their_names(rt: HostRuntime) -> Result<(), Fail> {
    check(
        &rt,
        r#"{"gsi":1,"vbuckets":1,"clients":1}
{"c":0,"do":"upsert","id":"a","doc":{"x":1}}
{"c":0,"do":"ddl","q":"CREATE INDEX ia ON ks(x) WITH {\"defer_build\": true}"}
{"c":0,"do":"ddl","q":"CREATE INDEX ib ON ks(x) WITH {\"defer_build\": true}"}
{"c":0,"do":"ddl","q":"BUILD INDEX ON ks(ib, ia)"}
"#,
        r#"{"c":0,"e":"mutate","k":0,"seq":1,"vb":0}
{"c":0,"e":"define","i":0,"k":1,"state":"deferred"}
{"c":0,"e":"define","i":1,"k":2,"state":"deferred"}
{"c":0,"e":"build","indexes":[1,0],"k":3}
{"e":"publish","i":0,"v":{"0":1}}
{"e":"publish","i":1,"v":{"0":1}}
{"c":0,"e":"online","indexes":[1,0],"k":3}
{"e":"end","events":7,"high":{"0":1},"indexes":[{"i":0,"name":"ia","rows":1,"state":"online","v":{"0":1}},{"i":1,"name":"ib","rows":1,"state":"online","v":{"0":1}}]}
"#,
    )
}

/// A scan of an index that is dropped, a creation, and a build of which one index is left.
#[test]
fn a_drop_ends_what_is_open(rt: HostRuntime) -> Result<(), Fail> {
    check(
        &rt,
        r#"{"gsi":1,"vbuckets":1,"clients":2}
{"c":0,"do":"ddl","q":"CREATE INDEX ix ON ks(x)"}
{"c":0,"do":"scan","index":"ix"}
{"c":1,"do":"ddl","q":"DROP INDEX ix ON ks"}
{"s":"client","c":0}
{"s":"client","c":0}
{"s":"client","c":0}
{"s":"client","c":1}
{"s":"client","c":0}
"#,
        r#"{"c":0,"e":"define","i":0,"k":0,"state":"building"}
{"c":0,"e":"online","indexes":[0],"k":0}
{"c":0,"d":{},"e":"start","i":0,"k":1}
{"c":1,"e":"drop","i":0,"k":0}
{"c":0,"code":10,"e":"refuse","k":1,"what":"dropped"}
{"e":"end","events":5,"high":{},"indexes":[]}
"#,
    )?;
    check(
        &rt,
        r#"{"gsi":1,"vbuckets":1,"clients":2}
{"c":0,"do":"ddl","q":"CREATE INDEX ix ON ks(x)"}
{"c":0,"do":"scan","index":"ix"}
{"c":1,"do":"ddl","q":"DROP INDEX ix ON ks"}
{"s":"client","c":0}
{"s":"client","c":1}
{"s":"client","c":0}
"#,
        r#"{"c":0,"e":"define","i":0,"k":0,"state":"building"}
{"c":1,"e":"drop","i":0,"k":0}
{"c":0,"code":10,"e":"refuse","k":0,"what":"dropped"}
{"c":0,"code":5,"e":"refuse","k":1,"what":"unknown_index"}
{"e":"end","events":4,"high":{},"indexes":[]}
"#,
    )?;
    check(
        &rt,
        r#"{"gsi":1,"vbuckets":1,"clients":2}
{"c":0,"do":"ddl","q":"CREATE INDEX ia ON ks(x) WITH {\"defer_build\": true}"}
{"c":0,"do":"ddl","q":"CREATE INDEX ib ON ks(x) WITH {\"defer_build\": true}"}
{"c":0,"do":"ddl","q":"BUILD INDEX ON ks(ib, ia)"}
{"c":1,"do":"ddl","q":"DROP INDEX ib ON ks"}
{"s":"client","c":0}
{"s":"client","c":0}
{"s":"client","c":0}
{"s":"client","c":1}
{"s":"client","c":0}
"#,
        r#"{"c":0,"e":"define","i":0,"k":0,"state":"deferred"}
{"c":0,"e":"define","i":1,"k":1,"state":"deferred"}
{"c":0,"e":"build","indexes":[1,0],"k":2}
{"c":1,"e":"drop","i":1,"k":0}
{"c":0,"e":"online","indexes":[0],"k":2}
{"e":"end","events":5,"high":{},"indexes":[{"i":0,"name":"ia","rows":0,"state":"online","v":{}}]}
"#,
    )
}

/// The new one of the name begins without rows, and nothing is left of the old one's pieces.
#[test]
fn a_dropped_index_leaves_its_name_and_not_its_number(rt: HostRuntime) -> Result<(), Fail> {
    check(
        &rt,
        r#"{"gsi":1,"vbuckets":1,"clients":2,"batch":1}
{"c":0,"do":"ddl","q":"CREATE INDEX ix ON ks(x)"}
{"c":0,"do":"upsert","id":"a","doc":{"x":1}}
{"c":0,"do":"ddl","q":"DROP INDEX ix ON ks"}
{"c":0,"do":"ddl","q":"CREATE INDEX ix ON ks(y)"}
{"c":0,"do":"scan","index":"ix"}
{"c":1,"do":"upsert","id":"b","doc":{"y":2}}
{"s":"client","c":0}
{"s":"client","c":0}
{"s":"client","c":0}
{"s":"project","vb":0}
{"s":"client","c":0}
{"s":"client","c":0}
{"s":"deliver","index":"ix"}
{"s":"publish","index":"ix"}
{"s":"client","c":1}
{"s":"client","c":0}
"#,
        r#"{"c":0,"e":"define","i":0,"k":0,"state":"building"}
{"c":0,"e":"online","indexes":[0],"k":0}
{"c":0,"e":"mutate","k":1,"seq":1,"vb":0}
{"c":0,"e":"drop","i":0,"k":2}
{"c":0,"e":"define","i":1,"k":3,"state":"building"}
{"c":1,"e":"mutate","k":0,"seq":2,"vb":0}
{"e":"publish","i":1,"v":{"0":2}}
{"c":0,"e":"online","indexes":[1],"k":3}
{"c":0,"d":{},"e":"start","i":1,"k":4}
{"c":0,"e":"answer","k":4,"rows":[{"id":"b","keys":[[2]]}],"v":{"0":2}}
{"e":"end","events":10,"high":{"0":2},"indexes":[{"i":1,"name":"ix","rows":1,"state":"online","v":{"0":2}}]}
"#,
    )
}

/// One name of none, and one that is online already.
#[test]
fn a_refused_build_builds_nothing(rt: HostRuntime) -> Result<(), Fail> {
    check(
        &rt,
        r#"{"gsi":1,"vbuckets":1,"clients":1}
{"c":0,"do":"ddl","q":"CREATE INDEX ia ON ks(x) WITH {\"defer_build\": true}"}
{"c":0,"do":"ddl","q":"CREATE INDEX ix ON ks(x)"}
{"c":0,"do":"ddl","q":"BUILD INDEX ON ks(ia, iz)"}
{"c":0,"do":"ddl","q":"BUILD INDEX ON ks(ia, ix)"}
{"c":0,"do":"ddl","q":"BUILD INDEX ON ks(iz, ix)"}
"#,
        r#"{"c":0,"e":"define","i":0,"k":0,"state":"deferred"}
{"c":0,"e":"define","i":1,"k":1,"state":"building"}
{"c":0,"e":"online","indexes":[1],"k":1}
{"c":0,"code":5,"e":"refuse","k":2,"what":"unknown_index"}
{"c":0,"code":6,"e":"refuse","k":3,"what":"not_deferred"}
{"c":0,"code":5,"e":"refuse","k":4,"what":"unknown_index"}
{"e":"end","events":6,"high":{},"indexes":[{"i":0,"name":"ia","rows":0,"state":"deferred","v":{}},{"i":1,"name":"ix","rows":0,"state":"online","v":{}}]}
"#,
    )
}
