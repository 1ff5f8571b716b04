//! The rows that documents have in an index, and their order.
use crate::replaying::check;
use std::test::Fail;

/// Missing, null, false, true, a number, a text, an array and an object.
#[test]
fn second_keys_of_every_kind_are_in_order(rt: HostRuntime) -> Result<(), Fail> {
    check(
        &rt,
        r#"{"gsi":1,"vbuckets":1,"clients":1}
{"c":0,"do":"upsert","id":"h","doc":{"x":0,"y":{"k":0}}}
{"c":0,"do":"upsert","id":"g","doc":{"x":0,"y":[1]}}
{"c":0,"do":"upsert","id":"f","doc":{"x":0,"y":"z"}}
{"c":0,"do":"upsert","id":"e","doc":{"x":0,"y":-1}}
{"c":0,"do":"upsert","id":"d","doc":{"x":0,"y":true}}
{"c":0,"do":"upsert","id":"c","doc":{"x":0,"y":false}}
{"c":0,"do":"upsert","id":"b","doc":{"x":0,"y":null}}
{"c":0,"do":"upsert","id":"a","doc":{"x":0}}
{"c":0,"do":"ddl","q":"CREATE INDEX ix ON ks(x, y)"}
{"c":0,"do":"scan","index":"ix"}
"#,
        r#"{"c":0,"e":"mutate","k":0,"seq":1,"vb":0}
{"c":0,"e":"mutate","k":1,"seq":2,"vb":0}
{"c":0,"e":"mutate","k":2,"seq":3,"vb":0}
{"c":0,"e":"mutate","k":3,"seq":4,"vb":0}
{"c":0,"e":"mutate","k":4,"seq":5,"vb":0}
{"c":0,"e":"mutate","k":5,"seq":6,"vb":0}
{"c":0,"e":"mutate","k":6,"seq":7,"vb":0}
{"c":0,"e":"mutate","k":7,"seq":8,"vb":0}
{"c":0,"e":"define","i":0,"k":8,"state":"building"}
{"e":"publish","i":0,"v":{"0":8}}
{"c":0,"e":"online","indexes":[0],"k":8}
{"c":0,"d":{},"e":"start","i":0,"k":9}
{"c":0,"e":"answer","k":9,"rows":[{"id":"a","keys":[[0],[]]},{"id":"b","keys":[[0],[null]]},{"id":"c","keys":[[0],[false]]},{"id":"d","keys":[[0],[true]]},{"id":"e","keys":[[0],[-1]]},{"id":"f","keys":[[0],["z"]]},{"id":"g","keys":[[0],[[1]]]},{"id":"h","keys":[[0],[{"k":0}]]}],"v":{"0":8}}
{"e":"end","events":13,"high":{"0":8},"indexes":[{"i":0,"name":"ix","rows":8,"state":"online","v":{"0":8}}]}
"#,
    )
}

/// Each element once, and each as often as it stands there.
#[test]
fn elements_of_an_array_are_keys(rt: HostRuntime) -> Result<(), Fail> {
    check(
        &rt,
        r#"{"gsi":1,"vbuckets":1,"clients":1}
{"c":0,"do":"upsert","id":"a","doc":{"t":[1,1,null]}}
{"c":0,"do":"upsert","id":"b","doc":{"t":[]}}
{"c":0,"do":"upsert","id":"c","doc":{"t":7}}
{"c":0,"do":"ddl","q":"CREATE INDEX ix ON ks(DISTINCT ARRAY v FOR v IN t END)"}
{"c":0,"do":"scan","index":"ix"}
"#,
        r#"{"c":0,"e":"mutate","k":0,"seq":1,"vb":0}
{"c":0,"e":"mutate","k":1,"seq":2,"vb":0}
{"c":0,"e":"mutate","k":2,"seq":3,"vb":0}
{"c":0,"e":"define","i":0,"k":3,"state":"building"}
{"e":"publish","i":0,"v":{"0":3}}
{"c":0,"e":"online","indexes":[0],"k":3}
{"c":0,"d":{},"e":"start","i":0,"k":4}
{"c":0,"e":"answer","k":4,"rows":[{"id":"a","keys":[[null]]},{"id":"a","keys":[[1]]}],"v":{"0":3}}
{"e":"end","events":8,"high":{"0":3},"indexes":[{"i":0,"name":"ix","rows":2,"state":"online","v":{"0":3}}]}
"#,
    )?;
    check(
        &rt,
        r#"{"gsi":1,"vbuckets":1,"clients":1}
{"c":0,"do":"upsert","id":"a","doc":{"t":[1,1,null]}}
{"c":0,"do":"upsert","id":"b","doc":{"t":[]}}
{"c":0,"do":"upsert","id":"c","doc":{"t":7}}
{"c":0,"do":"ddl","q":"CREATE INDEX ix ON ks(ALL ARRAY v FOR v IN t END)"}
{"c":0,"do":"scan","index":"ix"}
"#,
        r#"{"c":0,"e":"mutate","k":0,"seq":1,"vb":0}
{"c":0,"e":"mutate","k":1,"seq":2,"vb":0}
{"c":0,"e":"mutate","k":2,"seq":3,"vb":0}
{"c":0,"e":"define","i":0,"k":3,"state":"building"}
{"e":"publish","i":0,"v":{"0":3}}
{"c":0,"e":"online","indexes":[0],"k":3}
{"c":0,"d":{},"e":"start","i":0,"k":4}
{"c":0,"e":"answer","k":4,"rows":[{"id":"a","keys":[[null]]},{"id":"a","keys":[[1]]},{"id":"a","keys":[[1]]}],"v":{"0":3}}
{"e":"end","events":8,"high":{"0":3},"indexes":[{"i":0,"name":"ix","rows":3,"state":"online","v":{"0":3}}]}
"#,
    )
}

/// The rows of the documents that the condition holds of, and of all.
#[test]
fn a_partial_and_a_primary_index(rt: HostRuntime) -> Result<(), Fail> {
    check(
        &rt,
        r##"{"gsi":1,"vbuckets":2,"clients":1,"keyspace":"shop"}
{"c":0,"do":"upsert","id":"a","doc":{"x":5,"sold":true}}
{"c":0,"do":"upsert","id":"b","doc":{"x":7,"sold":false}}
{"c":0,"do":"upsert","id":"c","doc":7}
{"c":0,"do":"ddl","q":"CREATE INDEX ix ON shop(x) WHERE sold = TRUE"}
{"c":0,"do":"ddl","q":"CREATE PRIMARY INDEX ON shop"}
{"c":0,"do":"scan","index":"ix"}
{"c":0,"do":"scan","index":"#primary"}
{"c":0,"do":"scan","index":"#primary","spans":[[{"low":"b","high":"c","incl":1}]]}
"##,
        r##"{"c":0,"e":"mutate","k":0,"seq":1,"vb":0}
{"c":0,"e":"mutate","k":1,"seq":1,"vb":1}
{"c":0,"e":"mutate","k":2,"seq":2,"vb":0}
{"c":0,"e":"define","i":0,"k":3,"state":"building"}
{"e":"publish","i":0,"v":{"0":2,"1":1}}
{"c":0,"e":"online","indexes":[0],"k":3}
{"c":0,"e":"define","i":1,"k":4,"state":"building"}
{"e":"publish","i":1,"v":{"0":2,"1":1}}
{"c":0,"e":"online","indexes":[1],"k":4}
{"c":0,"d":{},"e":"start","i":0,"k":5}
{"c":0,"e":"answer","k":5,"rows":[{"id":"a","keys":[[5]]}],"v":{"0":2,"1":1}}
{"c":0,"d":{"0":2,"1":1},"e":"start","i":1,"k":6}
{"c":0,"e":"answer","k":6,"rows":[{"id":"a","keys":[["a"]]},{"id":"b","keys":[["b"]]},{"id":"c","keys":[["c"]]}],"v":{"0":2,"1":1}}
{"c":0,"d":{"0":2,"1":1},"e":"start","i":1,"k":7}
{"c":0,"e":"answer","k":7,"rows":[{"id":"b","keys":[["b"]]}],"v":{"0":2,"1":1}}
{"e":"end","events":15,"high":{"0":2,"1":1},"indexes":[{"i":0,"name":"ix","rows":1,"state":"online","v":{"0":2,"1":1}},{"i":1,"name":"#primary","rows":3,"state":"online","v":{"0":2,"1":1}}]}
"##,
    )
}
