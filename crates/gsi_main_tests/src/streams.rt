//! Pieces of the streams that are lost, sent again or out of order, and streams that go back.
use crate::replaying::check;
use std::test::Fail;

/// After both versions of a document, the piece of the first one comes once more.
#[test]
fn a_piece_that_is_sent_again_restores_nothing(rt: HostRuntime) -> Result<(), Fail> {
    check(
        &rt,
        r#"{"gsi":1,"vbuckets":1,"clients":1,"batch":1}
{"c":0,"do":"ddl","q":"CREATE INDEX ix ON ks(x)"}
{"c":0,"do":"upsert","id":"a","doc":{"x":1}}
{"c":0,"do":"upsert","id":"a","doc":{"x":2}}
{"c":0,"do":"scan","index":"ix"}
{"s":"client","c":0}
{"s":"client","c":0}
{"s":"client","c":0}
{"s":"project","vb":0}
{"s":"client","c":0}
{"s":"project","vb":0}
{"s":"deliver","index":"ix"}
{"s":"deliver","index":"ix"}
{"s":"publish","index":"ix"}
{"s":"rewind","to":{}}
{"s":"project","vb":0}
{"s":"deliver","index":"ix"}
{"s":"publish","index":"ix"}
"#,
        r#"{"c":0,"e":"define","i":0,"k":0,"state":"building"}
{"c":0,"e":"online","indexes":[0],"k":0}
{"c":0,"e":"mutate","k":1,"seq":1,"vb":0}
{"c":0,"e":"mutate","k":2,"seq":2,"vb":0}
{"e":"publish","i":0,"v":{"0":2}}
{"c":0,"d":{},"e":"start","i":0,"k":3}
{"c":0,"e":"answer","k":3,"rows":[{"id":"a","keys":[[2]]}],"v":{"0":2}}
{"e":"end","events":7,"high":{"0":2},"indexes":[{"i":0,"name":"ix","rows":1,"state":"online","v":{"0":2}}]}
"#,
    )
}

/// The piece behind a lost one isn't applied, so a request for all that was accepted isn't answered.
#[test]
fn a_lost_piece_leaves_a_gap(rt: HostRuntime) -> Result<(), Fail> {
    check(
        &rt,
        r#"{"gsi":1,"vbuckets":1,"clients":1,"batch":1}
{"c":0,"do":"ddl","q":"CREATE INDEX ix ON ks(x)"}
{"c":0,"do":"upsert","id":"a","doc":{"x":1}}
{"c":0,"do":"upsert","id":"b","doc":{"x":2}}
{"c":0,"do":"upsert","id":"c","doc":{"x":3}}
{"c":0,"do":"scan","index":"ix","consistency":"request_plus","wait":false}
{"s":"client","c":0}
{"s":"client","c":0}
{"s":"client","c":0}
{"s":"client","c":0}
{"s":"client","c":0}
{"s":"project","vb":0}
{"s":"project","vb":0}
{"s":"project","vb":0}
{"s":"deliver","index":"ix"}
{"s":"lose","index":"ix"}
{"s":"deliver","index":"ix"}
{"s":"publish","index":"ix"}
{"s":"client","c":0}
{"s":"client","c":0}
"#,
        r#"{"c":0,"e":"define","i":0,"k":0,"state":"building"}
{"c":0,"e":"online","indexes":[0],"k":0}
{"c":0,"e":"mutate","k":1,"seq":1,"vb":0}
{"c":0,"e":"mutate","k":2,"seq":2,"vb":0}
{"c":0,"e":"mutate","k":3,"seq":3,"vb":0}
{"e":"publish","i":0,"v":{"0":1}}
{"c":0,"d":{"0":3},"e":"start","i":0,"k":4}
{"c":0,"code":11,"e":"not_yet","have":1,"k":4,"v":{"0":1},"vb":0,"want":3}
{"e":"publish","i":0,"v":{"0":3}}
{"e":"end","events":9,"high":{"0":3},"indexes":[{"i":0,"name":"ix","rows":3,"state":"online","v":{"0":3}}]}
"#,
    )
}

/// The stream goes back to what the index has, and what was lost is sent again.
#[test]
fn a_lost_piece_comes_again_after_a_rewind(rt: HostRuntime) -> Result<(), Fail> {
    check(
        &rt,
        r#"{"gsi":1,"vbuckets":1,"clients":1,"batch":1}
{"c":0,"do":"ddl","q":"CREATE INDEX ix ON ks(x)"}
{"c":0,"do":"upsert","id":"a","doc":{"x":1}}
{"c":0,"do":"upsert","id":"b","doc":{"x":2}}
{"c":0,"do":"upsert","id":"c","doc":{"x":3}}
{"c":0,"do":"scan","index":"ix","consistency":"request_plus","wait":false}
{"s":"client","c":0}
{"s":"client","c":0}
{"s":"client","c":0}
{"s":"client","c":0}
{"s":"client","c":0}
{"s":"project","vb":0}
{"s":"project","vb":0}
{"s":"project","vb":0}
{"s":"deliver","index":"ix"}
{"s":"lose","index":"ix"}
{"s":"deliver","index":"ix"}
{"s":"publish","index":"ix"}
{"s":"rewind","to":{"0":1}}
{"s":"project","vb":0}
{"s":"project","vb":0}
{"s":"deliver","index":"ix"}
{"s":"deliver","index":"ix"}
{"s":"publish","index":"ix"}
{"s":"client","c":0}
{"s":"client","c":0}
"#,
        r#"{"c":0,"e":"define","i":0,"k":0,"state":"building"}
{"c":0,"e":"online","indexes":[0],"k":0}
{"c":0,"e":"mutate","k":1,"seq":1,"vb":0}
{"c":0,"e":"mutate","k":2,"seq":2,"vb":0}
{"c":0,"e":"mutate","k":3,"seq":3,"vb":0}
{"e":"publish","i":0,"v":{"0":1}}
{"e":"publish","i":0,"v":{"0":3}}
{"c":0,"d":{"0":3},"e":"start","i":0,"k":4}
{"c":0,"e":"answer","k":4,"rows":[{"id":"a","keys":[[1]]},{"id":"b","keys":[[2]]},{"id":"c","keys":[[3]]}],"v":{"0":3}}
{"e":"end","events":9,"high":{"0":3},"indexes":[{"i":0,"name":"ix","rows":3,"state":"online","v":{"0":3}}]}
"#,
    )
}

/// The second piece is delivered first, and is gone.
#[test]
fn a_piece_before_its_turn_is_a_gap(rt: HostRuntime) -> Result<(), Fail> {
    check(
        &rt,
        r#"{"gsi":1,"vbuckets":1,"clients":1,"batch":1}
{"c":0,"do":"ddl","q":"CREATE INDEX ix ON ks(x)"}
{"c":0,"do":"upsert","id":"a","doc":{"x":1}}
{"c":0,"do":"upsert","id":"b","doc":{"x":2}}
{"c":0,"do":"scan","index":"ix"}
{"s":"client","c":0}
{"s":"client","c":0}
{"s":"client","c":0}
{"s":"project","vb":0}
{"s":"client","c":0}
{"s":"project","vb":0}
{"s":"deliver","index":"ix","place":1}
{"s":"deliver","index":"ix","place":0}
{"s":"publish","index":"ix"}
"#,
        r#"{"c":0,"e":"define","i":0,"k":0,"state":"building"}
{"c":0,"e":"online","indexes":[0],"k":0}
{"c":0,"e":"mutate","k":1,"seq":1,"vb":0}
{"c":0,"e":"mutate","k":2,"seq":2,"vb":0}
{"e":"publish","i":0,"v":{"0":1}}
{"c":0,"d":{},"e":"start","i":0,"k":3}
{"c":0,"e":"answer","k":3,"rows":[{"id":"a","keys":[[1]]}],"v":{"0":1}}
{"e":"publish","i":0,"v":{"0":2}}
{"e":"end","events":8,"high":{"0":2},"indexes":[{"i":0,"name":"ix","rows":2,"state":"online","v":{"0":2}}]}
"#,
    )
}

/// The middle one of three pieces is lost, so the third stands at its place; then no piece stands there.
#[test]
fn a_place_is_that_of_a_piece_in_the_inbox(rt: HostRuntime) -> Result<(), Fail> {
    check(
        &rt,
        r#"{"gsi":1,"vbuckets":1,"clients":1,"batch":1}
{"c":0,"do":"ddl","q":"CREATE INDEX ix ON ks(x)"}
{"c":0,"do":"upsert","id":"a","doc":{"x":1}}
{"c":0,"do":"upsert","id":"b","doc":{"x":2}}
{"c":0,"do":"upsert","id":"c","doc":{"x":3}}
{"c":0,"do":"scan","index":"ix","consistency":"request_plus","wait":false}
{"s":"client","c":0}
{"s":"client","c":0}
{"s":"client","c":0}
{"s":"client","c":0}
{"s":"client","c":0}
{"s":"project","vb":0}
{"s":"project","vb":0}
{"s":"project","vb":0}
{"s":"lose","index":"ix","place":1}
{"s":"lose","index":"ix","place":2}
{"s":"deliver","index":"ix","place":2}
{"s":"deliver","index":"ix","place":0}
{"s":"deliver","index":"ix","place":1}
{"s":"publish","index":"ix"}
{"s":"deliver","index":"ix","place":0}
{"s":"publish","index":"ix"}
{"s":"client","c":0}
{"s":"client","c":0}
"#,
        r#"{"c":0,"e":"define","i":0,"k":0,"state":"building"}
{"c":0,"e":"online","indexes":[0],"k":0}
{"c":0,"e":"mutate","k":1,"seq":1,"vb":0}
{"c":0,"e":"mutate","k":2,"seq":2,"vb":0}
{"c":0,"e":"mutate","k":3,"seq":3,"vb":0}
{"e":"publish","i":0,"v":{"0":1}}
{"c":0,"d":{"0":3},"e":"start","i":0,"k":4}
{"c":0,"code":11,"e":"not_yet","have":1,"k":4,"v":{"0":1},"vb":0,"want":3}
{"e":"publish","i":0,"v":{"0":3}}
{"e":"end","events":9,"high":{"0":3},"indexes":[{"i":0,"name":"ix","rows":3,"state":"online","v":{"0":3}}]}
"#,
    )
}

/// A stream that went back begins with all that was accepted since, in one piece, and a worker passes over what it
/// has.
#[test]
fn a_rewind_ends_the_marker(rt: HostRuntime) -> Result<(), Fail> {
    check(
        &rt,
        r#"{"gsi":1,"vbuckets":1,"clients":1}
{"c":0,"do":"ddl","q":"CREATE INDEX ix ON ks(x)"}
{"c":0,"do":"upsert","id":"a","doc":{"x":1}}
{"c":0,"do":"upsert","id":"b","doc":{"x":2}}
{"c":0,"do":"upsert","id":"a","doc":{"x":3}}
{"c":0,"do":"scan","index":"ix"}
{"s":"client","c":0}
{"s":"client","c":0}
{"s":"client","c":0}
{"s":"client","c":0}
{"s":"project","vb":0}
{"s":"deliver","index":"ix"}
{"s":"publish","index":"ix"}
{"s":"rewind","to":{}}
{"s":"client","c":0}
{"s":"project","vb":0}
{"s":"deliver","index":"ix"}
{"s":"publish","index":"ix"}
{"s":"client","c":0}
{"s":"client","c":0}
"#,
        r#"{"c":0,"e":"define","i":0,"k":0,"state":"building"}
{"c":0,"e":"online","indexes":[0],"k":0}
{"c":0,"e":"mutate","k":1,"seq":1,"vb":0}
{"c":0,"e":"mutate","k":2,"seq":2,"vb":0}
{"e":"publish","i":0,"v":{"0":2}}
{"c":0,"e":"mutate","k":3,"seq":3,"vb":0}
{"e":"publish","i":0,"v":{"0":3}}
{"c":0,"d":{},"e":"start","i":0,"k":4}
{"c":0,"e":"answer","k":4,"rows":[{"id":"b","keys":[[2]]},{"id":"a","keys":[[3]]}],"v":{"0":3}}
{"e":"end","events":9,"high":{"0":3},"indexes":[{"i":0,"name":"ix","rows":2,"state":"online","v":{"0":3}}]}
"#,
    )
}

/// What is accepted after a marker began isn't in its pieces, and a piece has at most so many mutations as the header
/// says.
#[test]
fn a_piece_ends_with_its_marker(rt: HostRuntime) -> Result<(), Fail> {
    check(
        &rt,
        r#"{"gsi":1,"vbuckets":1,"clients":1,"batch":2}
{"c":0,"do":"ddl","q":"CREATE INDEX ix ON ks(x)"}
{"c":0,"do":"upsert","id":"a","doc":{"x":1}}
{"c":0,"do":"upsert","id":"b","doc":{"x":2}}
{"c":0,"do":"upsert","id":"c","doc":{"x":3}}
{"c":0,"do":"upsert","id":"d","doc":{"x":4}}
{"c":0,"do":"upsert","id":"e","doc":{"x":5}}
{"c":0,"do":"scan","index":"ix"}
{"s":"client","c":0}
{"s":"client","c":0}
{"s":"client","c":0}
{"s":"client","c":0}
{"s":"client","c":0}
{"s":"project","vb":0}
{"s":"client","c":0}
{"s":"client","c":0}
{"s":"project","vb":0}
{"s":"deliver","index":"ix"}
{"s":"publish","index":"ix"}
{"s":"deliver","index":"ix"}
{"s":"publish","index":"ix"}
{"s":"project","vb":0}
{"s":"deliver","index":"ix"}
{"s":"publish","index":"ix"}
"#,
        r#"{"c":0,"e":"define","i":0,"k":0,"state":"building"}
{"c":0,"e":"online","indexes":[0],"k":0}
{"c":0,"e":"mutate","k":1,"seq":1,"vb":0}
{"c":0,"e":"mutate","k":2,"seq":2,"vb":0}
{"c":0,"e":"mutate","k":3,"seq":3,"vb":0}
{"c":0,"e":"mutate","k":4,"seq":4,"vb":0}
{"c":0,"e":"mutate","k":5,"seq":5,"vb":0}
{"e":"publish","i":0,"v":{"0":2}}
{"e":"publish","i":0,"v":{"0":3}}
{"e":"publish","i":0,"v":{"0":5}}
{"c":0,"d":{},"e":"start","i":0,"k":6}
{"c":0,"e":"answer","k":6,"rows":[{"id":"a","keys":[[1]]},{"id":"b","keys":[[2]]},{"id":"c","keys":[[3]]},{"id":"d","keys":[[4]]},{"id":"e","keys":[[5]]}],"v":{"0":5}}
{"e":"end","events":12,"high":{"0":5},"indexes":[{"i":0,"name":"ix","rows":5,"state":"online","v":{"0":5}}]}
"#,
    )
}

/// Of two vBuckets one stream goes back; the other one has not yet come so far, and stays.
#[test]
fn a_rewind_never_goes_ahead(rt: HostRuntime) -> Result<(), Fail> {
    check(
        &rt,
        r#"{"gsi":1,"vbuckets":2,"clients":1,"batch":1}
{"c":0,"do":"ddl","q":"CREATE INDEX ix ON ks(x)"}
{"c":0,"do":"upsert","id":"a","doc":{"x":1}}
{"c":0,"do":"upsert","id":"b","doc":{"x":2}}
{"c":0,"do":"upsert","id":"a","doc":{"x":3}}
{"c":0,"do":"upsert","id":"b","doc":{"x":4}}
{"c":0,"do":"scan","index":"ix"}
{"s":"client","c":0}
{"s":"client","c":0}
{"s":"client","c":0}
{"s":"client","c":0}
{"s":"client","c":0}
{"s":"client","c":0}
{"s":"project","vb":0}
{"s":"project","vb":0}
{"s":"project","vb":1}
{"s":"rewind","to":{"0":1,"1":9}}
{"s":"deliver","index":"ix"}
{"s":"deliver","index":"ix"}
{"s":"deliver","index":"ix"}
{"s":"publish","index":"ix"}
{"s":"project","vb":0}
{"s":"project","vb":1}
{"s":"lose","index":"ix"}
{"s":"deliver","index":"ix"}
{"s":"publish","index":"ix"}
{"s":"client","c":0}
{"s":"client","c":0}
"#,
        r#"{"c":0,"e":"define","i":0,"k":0,"state":"building"}
{"c":0,"e":"online","indexes":[0],"k":0}
{"c":0,"e":"mutate","k":1,"seq":1,"vb":0}
{"c":0,"e":"mutate","k":2,"seq":1,"vb":1}
{"c":0,"e":"mutate","k":3,"seq":2,"vb":0}
{"c":0,"e":"mutate","k":4,"seq":2,"vb":1}
{"e":"publish","i":0,"v":{"0":2,"1":1}}
{"e":"publish","i":0,"v":{"0":2,"1":2}}
{"c":0,"d":{},"e":"start","i":0,"k":5}
{"c":0,"e":"answer","k":5,"rows":[{"id":"a","keys":[[3]]},{"id":"b","keys":[[4]]}],"v":{"0":2,"1":2}}
{"e":"end","events":10,"high":{"0":2,"1":2},"indexes":[{"i":0,"name":"ix","rows":2,"state":"online","v":{"0":2,"1":2}}]}
"#,
    )
}
