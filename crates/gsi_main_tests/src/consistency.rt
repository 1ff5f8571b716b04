//! What an answer has to show: the demand of its request, and all that its client saw.
use crate::replaying::check;
use std::test::Fail;

/// A request for a number that nobody wrote ends, and the next one, for what its client wrote, is answered.
#[test]
fn a_demand_past_all_that_was_accepted_is_not_met(rt: HostRuntime) -> Result<(), Fail> {
    check(
        &rt,
        r#"{"gsi":1,"vbuckets":1,"clients":1}
{"c":0,"do":"ddl","q":"CREATE INDEX ix ON ks(x)"}
{"c":0,"do":"upsert","id":"a","doc":{"x":1}}
{"c":0,"do":"scan","index":"ix","consistency":"at_plus","at":{"0":2}}
{"c":0,"do":"scan","index":"ix","consistency":"at_plus","at":"mine"}
"#,
        r#"{"c":0,"e":"define","i":0,"k":0,"state":"building"}
{"c":0,"e":"online","indexes":[0],"k":0}
{"c":0,"e":"mutate","k":1,"seq":1,"vb":0}
{"c":0,"d":{"0":2},"e":"start","i":0,"k":2}
{"e":"publish","i":0,"v":{"0":1}}
{"c":0,"code":11,"e":"not_yet","have":1,"k":2,"v":{"0":1},"vb":0,"want":2}
{"c":0,"d":{"0":1},"e":"start","i":0,"k":3}
{"c":0,"e":"answer","k":3,"rows":[{"id":"a","keys":[[1]]}],"v":{"0":1}}
{"e":"end","events":8,"high":{"0":1},"indexes":[{"i":0,"name":"ix","rows":1,"state":"online","v":{"0":1}}]}
"#,
    )
}

/// What another client writes behind it isn't waited for.
#[test]
fn a_request_wants_what_was_accepted_when_it_began(rt: HostRuntime) -> Result<(), Fail> {
    check(
        &rt,
        r#"{"gsi":1,"vbuckets":1,"clients":2}
{"c":0,"do":"ddl","q":"CREATE INDEX ix ON ks(x)"}
{"c":0,"do":"upsert","id":"a","doc":{"x":1}}
{"c":0,"do":"scan","index":"ix","consistency":"request_plus"}
{"c":1,"do":"upsert","id":"b","doc":{"x":2}}
{"s":"client","c":0}
{"s":"client","c":0}
{"s":"client","c":0}
{"s":"project","vb":0}
{"s":"deliver","index":"ix"}
{"s":"publish","index":"ix"}
{"s":"client","c":0}
{"s":"client","c":1}
{"s":"client","c":0}
"#,
        r#"{"c":0,"e":"define","i":0,"k":0,"state":"building"}
{"c":0,"e":"online","indexes":[0],"k":0}
{"c":0,"e":"mutate","k":1,"seq":1,"vb":0}
{"e":"publish","i":0,"v":{"0":1}}
{"c":0,"d":{"0":1},"e":"start","i":0,"k":2}
{"c":1,"e":"mutate","k":0,"seq":2,"vb":0}
{"c":0,"e":"answer","k":2,"rows":[{"id":"a","keys":[[1]]}],"v":{"0":1}}
{"e":"publish","i":0,"v":{"0":2}}
{"e":"end","events":8,"high":{"0":2},"indexes":[{"i":0,"name":"ix","rows":2,"state":"online","v":{"0":2}}]}
"#,
    )
}

/// A delete is shown once it is asked for, and not before.
#[test]
fn an_answer_shows_no_less_than_its_client_saw(rt: HostRuntime) -> Result<(), Fail> {
    check(
        &rt,
        r#"{"gsi":1,"vbuckets":1,"clients":1}
{"c":0,"do":"ddl","q":"CREATE INDEX ix ON ks(x)"}
{"c":0,"do":"upsert","id":"a","doc":{"x":1}}
{"c":0,"do":"scan","index":"ix","consistency":"request_plus"}
{"c":0,"do":"delete","id":"a"}
{"c":0,"do":"scan","index":"ix","consistency":"not_bounded"}
{"c":0,"do":"scan","index":"ix","consistency":"at_plus","at":"mine"}
"#,
        r#"{"c":0,"e":"define","i":0,"k":0,"state":"building"}
{"c":0,"e":"online","indexes":[0],"k":0}
{"c":0,"e":"mutate","k":1,"seq":1,"vb":0}
{"c":0,"d":{"0":1},"e":"start","i":0,"k":2}
{"e":"publish","i":0,"v":{"0":1}}
{"c":0,"e":"answer","k":2,"rows":[{"id":"a","keys":[[1]]}],"v":{"0":1}}
{"c":0,"e":"mutate","k":3,"seq":2,"vb":0}
{"c":0,"d":{"0":1},"e":"start","i":0,"k":4}
{"c":0,"e":"answer","k":4,"rows":[{"id":"a","keys":[[1]]}],"v":{"0":1}}
{"c":0,"d":{"0":2},"e":"start","i":0,"k":5}
{"e":"publish","i":0,"v":{"0":2}}
{"c":0,"e":"answer","k":5,"rows":[],"v":{"0":2}}
{"e":"end","events":12,"high":{"0":2},"indexes":[{"i":0,"name":"ix","rows":0,"state":"online","v":{"0":2}}]}
"#,
    )
}

/// A new index hasn't published what the first client saw in an answer of another one, and the second client is
/// answered with less.
#[test]
fn what_one_client_saw_binds_no_other(rt: HostRuntime) -> Result<(), Fail> {
    check(
        &rt,
        r#"{"gsi":1,"vbuckets":1,"clients":2}
{"c":0,"do":"ddl","q":"CREATE INDEX ix ON ks(x)"}
{"c":0,"do":"upsert","id":"a","doc":{"x":1}}
{"c":0,"do":"scan","index":"ix","consistency":"request_plus"}
{"c":0,"do":"ddl","q":"CREATE INDEX iy ON ks(y)"}
{"c":0,"do":"upsert","id":"b","doc":{"x":2}}
{"c":0,"do":"scan","index":"ix","consistency":"request_plus"}
{"c":0,"do":"scan","index":"iy","wait":false}
{"c":1,"do":"scan","index":"iy","wait":false}
{"s":"client","c":0}
{"s":"client","c":0}
{"s":"client","c":0}
{"s":"client","c":0}
{"s":"client","c":0}
{"s":"client","c":0}
{"s":"client","c":0}
{"s":"client","c":0}
{"s":"client","c":0}
{"s":"client","c":1}
{"s":"client","c":1}
{"s":"client","c":0}
{"s":"client","c":0}
"#,
        r#"{"c":0,"e":"define","i":0,"k":0,"state":"building"}
{"c":0,"e":"online","indexes":[0],"k":0}
{"c":0,"e":"mutate","k":1,"seq":1,"vb":0}
{"c":0,"d":{"0":1},"e":"start","i":0,"k":2}
{"e":"publish","i":0,"v":{"0":1}}
{"c":0,"e":"answer","k":2,"rows":[{"id":"a","keys":[[1]]}],"v":{"0":1}}
{"c":0,"e":"define","i":1,"k":3,"state":"building"}
{"e":"publish","i":1,"v":{"0":1}}
{"c":0,"e":"online","indexes":[1],"k":3}
{"c":0,"e":"mutate","k":4,"seq":2,"vb":0}
{"c":0,"d":{"0":2},"e":"start","i":0,"k":5}
{"c":1,"d":{},"e":"start","i":1,"k":0}
{"c":1,"e":"answer","k":0,"rows":[],"v":{"0":1}}
{"e":"publish","i":0,"v":{"0":2}}
{"c":0,"e":"answer","k":5,"rows":[{"id":"a","keys":[[1]]},{"id":"b","keys":[[2]]}],"v":{"0":2}}
{"c":0,"d":{"0":2},"e":"start","i":1,"k":6}
{"c":0,"code":11,"e":"not_yet","have":1,"k":6,"v":{"0":1},"vb":0,"want":2}
{"e":"publish","i":1,"v":{"0":2}}
{"e":"end","events":18,"high":{"0":2},"indexes":[{"i":0,"name":"ix","rows":2,"state":"online","v":{"0":2}},{"i":1,"name":"iy","rows":0,"state":"online","v":{"0":2}}]}
"#,
    )
}

/// The same three requests, without and with waiting.
#[test]
fn a_request_that_does_not_wait_is_told_what_is_missing(rt: HostRuntime) -> Result<(), Fail> {
    check(
        &rt,
        r#"{"gsi":1,"vbuckets":1,"clients":1}
{"c":0,"do":"ddl","q":"CREATE INDEX ix ON ks(x)"}
{"c":0,"do":"upsert","id":"a","doc":{"x":1}}
{"c":0,"do":"scan","index":"ix","consistency":"at_plus","at":"mine","wait":false}
{"c":0,"do":"scan","index":"ix","consistency":"at_plus","at":{"0":1},"wait":false}
{"c":0,"do":"scan","index":"ix","consistency":"request_plus","wait":false}
{"c":0,"do":"scan","index":"ix","wait":false}
"#,
        r#"{"c":0,"e":"define","i":0,"k":0,"state":"building"}
{"c":0,"e":"online","indexes":[0],"k":0}
{"c":0,"e":"mutate","k":1,"seq":1,"vb":0}
{"c":0,"d":{"0":1},"e":"start","i":0,"k":2}
{"c":0,"code":11,"e":"not_yet","have":0,"k":2,"v":{},"vb":0,"want":1}
{"c":0,"d":{"0":1},"e":"start","i":0,"k":3}
{"c":0,"code":11,"e":"not_yet","have":0,"k":3,"v":{},"vb":0,"want":1}
{"c":0,"d":{"0":1},"e":"start","i":0,"k":4}
{"c":0,"code":11,"e":"not_yet","have":0,"k":4,"v":{},"vb":0,"want":1}
{"c":0,"d":{},"e":"start","i":0,"k":5}
{"c":0,"e":"answer","k":5,"rows":[],"v":{}}
{"e":"publish","i":0,"v":{"0":1}}
{"e":"end","events":12,"high":{"0":1},"indexes":[{"i":0,"name":"ix","rows":1,"state":"online","v":{"0":1}}]}
"#,
    )?;
    check(
        &rt,
        r#"{"gsi":1,"vbuckets":1,"clients":1}
{"c":0,"do":"ddl","q":"CREATE INDEX ix ON ks(x)"}
{"c":0,"do":"upsert","id":"a","doc":{"x":1}}
{"c":0,"do":"scan","index":"ix","consistency":"at_plus","at":"mine"}
{"c":0,"do":"upsert","id":"a","doc":{"x":2}}
{"c":0,"do":"scan","index":"ix","consistency":"at_plus","at":{"0":2}}
{"c":0,"do":"upsert","id":"a","doc":{"x":3}}
{"c":0,"do":"scan","index":"ix","consistency":"request_plus"}
"#,
        r#"{"c":0,"e":"define","i":0,"k":0,"state":"building"}
{"c":0,"e":"online","indexes":[0],"k":0}
{"c":0,"e":"mutate","k":1,"seq":1,"vb":0}
{"c":0,"d":{"0":1},"e":"start","i":0,"k":2}
{"e":"publish","i":0,"v":{"0":1}}
{"c":0,"e":"answer","k":2,"rows":[{"id":"a","keys":[[1]]}],"v":{"0":1}}
{"c":0,"e":"mutate","k":3,"seq":2,"vb":0}
{"c":0,"d":{"0":2},"e":"start","i":0,"k":4}
{"e":"publish","i":0,"v":{"0":2}}
{"c":0,"e":"answer","k":4,"rows":[{"id":"a","keys":[[2]]}],"v":{"0":2}}
{"c":0,"e":"mutate","k":5,"seq":3,"vb":0}
{"c":0,"d":{"0":3},"e":"start","i":0,"k":6}
{"e":"publish","i":0,"v":{"0":3}}
{"c":0,"e":"answer","k":6,"rows":[{"id":"a","keys":[[3]]}],"v":{"0":3}}
{"e":"end","events":14,"high":{"0":3},"indexes":[{"i":0,"name":"ix","rows":1,"state":"online","v":{"0":3}}]}
"#,
    )
}

/// The client that wrote nothing is answered from the beginning.
#[test]
fn own_writes_are_those_of_the_client(rt: HostRuntime) -> Result<(), Fail> {
    check(
        &rt,
        r#"{"gsi":1,"vbuckets":1,"clients":2}
{"c":0,"do":"ddl","q":"CREATE INDEX ix ON ks(x)"}
{"c":0,"do":"upsert","id":"a","doc":{"x":1}}
{"c":1,"do":"scan","index":"ix","consistency":"at_plus","at":"mine"}
{"c":0,"do":"scan","index":"ix","consistency":"at_plus","at":"mine"}
{"s":"client","c":0}
{"s":"client","c":0}
{"s":"client","c":0}
{"s":"client","c":1}
{"s":"client","c":1}
"#,
        r#"{"c":0,"e":"define","i":0,"k":0,"state":"building"}
{"c":0,"e":"online","indexes":[0],"k":0}
{"c":0,"e":"mutate","k":1,"seq":1,"vb":0}
{"c":1,"d":{},"e":"start","i":0,"k":0}
{"c":1,"e":"answer","k":0,"rows":[],"v":{}}
{"c":0,"d":{"0":1},"e":"start","i":0,"k":2}
{"e":"publish","i":0,"v":{"0":1}}
{"c":0,"e":"answer","k":2,"rows":[{"id":"a","keys":[[1]]}],"v":{"0":1}}
{"e":"end","events":8,"high":{"0":1},"indexes":[{"i":0,"name":"ix","rows":1,"state":"online","v":{"0":1}}]}
"#,
    )
}

/// Four documents in four vBuckets; the first one that is short is told.
#[test]
fn a_vector_is_tested_in_each_vbucket(rt: HostRuntime) -> Result<(), Fail> {
    check(
        &rt,
        r#"{"gsi":1,"vbuckets":4,"clients":1}
{"c":0,"do":"upsert","id":"d","doc":{"x":0}}
{"c":0,"do":"upsert","id":"c","doc":{"x":0}}
{"c":0,"do":"upsert","id":"b","doc":{"x":0}}
{"c":0,"do":"upsert","id":"a","doc":{"x":0}}
{"c":0,"do":"ddl","q":"CREATE INDEX ix ON ks(x)"}
{"c":0,"do":"scan","index":"ix","consistency":"at_plus","at":{"1":1,"2":2}}
"#,
        r#"{"c":0,"e":"mutate","k":0,"seq":1,"vb":3}
{"c":0,"e":"mutate","k":1,"seq":1,"vb":2}
{"c":0,"e":"mutate","k":2,"seq":1,"vb":1}
{"c":0,"e":"mutate","k":3,"seq":1,"vb":0}
{"c":0,"e":"define","i":0,"k":4,"state":"building"}
{"e":"publish","i":0,"v":{"0":1,"1":1,"2":1,"3":1}}
{"c":0,"e":"online","indexes":[0],"k":4}
{"c":0,"d":{"1":1,"2":2},"e":"start","i":0,"k":5}
{"c":0,"code":11,"e":"not_yet","have":1,"k":5,"v":{"0":1,"1":1,"2":1,"3":1},"vb":2,"want":2}
{"e":"end","events":9,"high":{"0":1,"1":1,"2":1,"3":1},"indexes":[{"i":0,"name":"ix","rows":4,"state":"online","v":{"0":1,"1":1,"2":1,"3":1}}]}
"#,
    )?;
    check(
        &rt,
        r#"{"gsi":1,"vbuckets":4,"clients":1}
{"c":0,"do":"upsert","id":"d","doc":{"x":0}}
{"c":0,"do":"upsert","id":"c","doc":{"x":0}}
{"c":0,"do":"upsert","id":"b","doc":{"x":0}}
{"c":0,"do":"upsert","id":"a","doc":{"x":0}}
{"c":0,"do":"ddl","q":"CREATE INDEX ix ON ks(x)"}
{"c":0,"do":"scan","index":"ix","consistency":"at_plus","at":{"3":3,"1":2}}
{"c":0,"do":"scan","index":"ix","consistency":"at_plus","at":{"0":1,"1":1,"2":1,"3":1},"wait":false}
"#,
        r#"{"c":0,"e":"mutate","k":0,"seq":1,"vb":3}
{"c":0,"e":"mutate","k":1,"seq":1,"vb":2}
{"c":0,"e":"mutate","k":2,"seq":1,"vb":1}
{"c":0,"e":"mutate","k":3,"seq":1,"vb":0}
{"c":0,"e":"define","i":0,"k":4,"state":"building"}
{"e":"publish","i":0,"v":{"0":1,"1":1,"2":1,"3":1}}
{"c":0,"e":"online","indexes":[0],"k":4}
{"c":0,"d":{"1":2,"3":3},"e":"start","i":0,"k":5}
{"c":0,"code":11,"e":"not_yet","have":1,"k":5,"v":{"0":1,"1":1,"2":1,"3":1},"vb":1,"want":2}
{"c":0,"d":{"0":1,"1":1,"2":1,"3":1},"e":"start","i":0,"k":6}
{"c":0,"e":"answer","k":6,"rows":[{"id":"a","keys":[[0]]},{"id":"b","keys":[[0]]},{"id":"c","keys":[[0]]},{"id":"d","keys":[[0]]}],"v":{"0":1,"1":1,"2":1,"3":1}}
{"e":"end","events":11,"high":{"0":1,"1":1,"2":1,"3":1},"indexes":[{"i":0,"name":"ix","rows":4,"state":"online","v":{"0":1,"1":1,"2":1,"3":1}}]}
"#,
    )
}

/// Of the greatest number of vBuckets.
#[test]
fn an_id_has_its_vbucket_by_its_hash(rt: HostRuntime) -> Result<(), Fail> {
    check(
        &rt,
        r#"{"gsi":1,"vbuckets":1024,"clients":1}
{"c":0,"do":"upsert","id":"a","doc":{"x":0}}
{"c":0,"do":"ddl","q":"CREATE INDEX ix ON ks(x)"}
{"c":0,"do":"scan","index":"ix","consistency":"at_plus","at":{"300":1}}
{"c":0,"do":"scan","index":"ix","consistency":"at_plus","at":{"301":1}}
"#,
        r#"{"c":0,"e":"mutate","k":0,"seq":1,"vb":300}
{"c":0,"e":"define","i":0,"k":1,"state":"building"}
{"e":"publish","i":0,"v":{"300":1}}
{"c":0,"e":"online","indexes":[0],"k":1}
{"c":0,"d":{"300":1},"e":"start","i":0,"k":2}
{"c":0,"e":"answer","k":2,"rows":[{"id":"a","keys":[[0]]}],"v":{"300":1}}
{"c":0,"d":{"300":1,"301":1},"e":"start","i":0,"k":3}
{"c":0,"code":11,"e":"not_yet","have":0,"k":3,"v":{"300":1},"vb":301,"want":1}
{"e":"end","events":8,"high":{"300":1},"indexes":[{"i":0,"name":"ix","rows":1,"state":"online","v":{"300":1}}]}
"#,
    )
}

/// A request that began before it is answered from it.
#[test]
fn an_answer_comes_from_the_newest_publication(rt: HostRuntime) -> Result<(), Fail> {
    check(
        &rt,
        r#"{"gsi":1,"vbuckets":1,"clients":2,"batch":1}
{"c":0,"do":"ddl","q":"CREATE INDEX ix ON ks(x)"}
{"c":0,"do":"upsert","id":"a","doc":{"x":1}}
{"c":0,"do":"scan","index":"ix"}
{"c":1,"do":"upsert","id":"a","doc":{"x":2}}
{"s":"client","c":0}
{"s":"client","c":0}
{"s":"client","c":0}
{"s":"project","vb":0}
{"s":"deliver","index":"ix"}
{"s":"publish","index":"ix"}
{"s":"client","c":0}
{"s":"client","c":1}
{"s":"project","vb":0}
{"s":"deliver","index":"ix"}
{"s":"publish","index":"ix"}
{"s":"client","c":0}
"#,
        r#"{"c":0,"e":"define","i":0,"k":0,"state":"building"}
{"c":0,"e":"online","indexes":[0],"k":0}
{"c":0,"e":"mutate","k":1,"seq":1,"vb":0}
{"e":"publish","i":0,"v":{"0":1}}
{"c":0,"d":{},"e":"start","i":0,"k":2}
{"c":1,"e":"mutate","k":0,"seq":2,"vb":0}
{"e":"publish","i":0,"v":{"0":2}}
{"c":0,"e":"answer","k":2,"rows":[{"id":"a","keys":[[2]]}],"v":{"0":2}}
{"e":"end","events":8,"high":{"0":2},"indexes":[{"i":0,"name":"ix","rows":1,"state":"online","v":{"0":2}}]}
"#,
    )
}
