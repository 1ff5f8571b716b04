//! What comes of a replay whose memory runs out. Here it doesn't, unless the tests are run so that some allocation fails.
use crate::replaying::replay_word;
use gsi_main::{Status, StdSink, SureSource, gsi_replay};
use n1ql_value::{Memory, Text};
use std::alloc::Global;

/// Two clients with two indexes, and pieces that are lost and sent again.
static SCRIPT: &str = r#"{"gsi":1,"vbuckets":1,"clients":2,"batch":1}
{"c":0,"do":"upsert","id":"a","doc":{"x":1}}
{"c":0,"do":"ddl","q":"CREATE INDEX ix ON ks(x)"}
{"c":0,"do":"upsert","id":"b","doc":{"x":2}}
{"c":0,"do":"scan","index":"ix","consistency":"request_plus"}
{"c":0,"do":"scan","index":"ix","consistency":"at_plus","at":"mine","wait":false}
{"c":0,"do":"ddl","q":"BUILD INDEX ON ks(ix)"}
{"c":1,"do":"ddl","q":"CREATE INDEX iy ON ks(x) WITH {\"defer_build\": true}"}
{"c":1,"do":"ddl","q":"BUILD INDEX ON ks(iy)"}
{"c":1,"do":"upsert","id":"a","doc":{"x":3}}
{"c":1,"do":"scan","index":"iy","consistency":"at_plus","at":"mine","wait":false}
{"c":1,"do":"ddl","q":"DROP INDEX iy ON ks"}
{"s":"client","c":0}
{"s":"client","c":0}
{"s":"project","vb":0,"index":"ix"}
{"s":"deliver","index":"ix"}
{"s":"publish","index":"ix"}
{"s":"client","c":0}
{"s":"client","c":0}
{"s":"client","c":1}
{"s":"client","c":1}
{"s":"project","vb":0}
{"s":"project","vb":0}
{"s":"lose","index":"ix"}
{"s":"deliver","index":"ix"}
{"s":"rewind","to":{}}
{"s":"project","vb":0,"index":"iy"}
{"s":"project","vb":0,"index":"iy"}
{"s":"rewind","to":{"0":1},"index":"iy"}
{"s":"project","vb":0,"index":"iy"}
{"s":"deliver","index":"iy"}
{"s":"deliver","index":"iy"}
{"s":"publish","index":"iy"}
{"s":"client","c":1}
{"s":"client","c":1}
{"s":"client","c":1}
{"s":"client","c":0}
{"s":"client","c":1}
{"s":"client","c":0}
"#;

static REPORT: &str = r#"{"c":0,"e":"mutate","k":0,"seq":1,"vb":0}
{"c":0,"e":"define","i":0,"k":1,"state":"building"}
{"e":"publish","i":0,"v":{"0":1}}
{"c":0,"e":"online","indexes":[0],"k":1}
{"c":0,"e":"mutate","k":2,"seq":2,"vb":0}
{"c":1,"e":"define","i":1,"k":0,"state":"deferred"}
{"c":1,"e":"build","indexes":[1],"k":1}
{"e":"publish","i":1,"v":{"0":2}}
{"c":1,"e":"online","indexes":[1],"k":1}
{"c":1,"e":"mutate","k":2,"seq":3,"vb":0}
{"c":1,"d":{"0":3},"e":"start","i":1,"k":3}
{"c":0,"d":{"0":3},"e":"start","i":0,"k":3}
{"c":1,"code":11,"e":"not_yet","have":2,"k":3,"v":{"0":2},"vb":0,"want":3}
{"e":"publish","i":0,"v":{"0":3}}
{"c":0,"e":"answer","k":3,"rows":[{"id":"b","keys":[[2]]},{"id":"a","keys":[[3]]}],"v":{"0":3}}
{"c":0,"d":{"0":3},"e":"start","i":0,"k":4}
{"c":0,"e":"answer","k":4,"rows":[{"id":"b","keys":[[2]]},{"id":"a","keys":[[3]]}],"v":{"0":3}}
{"c":0,"code":6,"e":"refuse","k":5,"what":"not_deferred"}
{"c":1,"e":"drop","i":1,"k":4}
{"e":"end","events":19,"high":{"0":3},"indexes":[{"i":0,"name":"ix","rows":2,"state":"online","v":{"0":3}}]}
"#;

/// The word, the script, and room for the report.
fn prepared(alloc: Global) -> Result<(Vec<Text>, SureSource, Vec<u8>), Memory> {
    let words = replay_word(alloc)?;
    let script = Vec::from_slice(alloc, SCRIPT.as_bytes())?;
    let room = Vec::with_capacity(alloc, REPORT.len())?;
    Ok((words, SureSource::new(alloc, script), room))
}

/// Where an allocation fails, nothing is written, or it wasn't one that the report rests on.
#[test]
fn a_failed_allocation_has_no_other_report(rt: HostRuntime) {
    let Ok((words, mut source, mut written)) = prepared(rt.alloc()) else {
        return;
    };
    let mut sink = StdSink::new(&mut written);
    let status = gsi_replay(rt.alloc(), words.as_slice(), &mut source, &mut sink);
    drop(sink);
    let report = match status {
        Status::Memory => "",
        _ => REPORT,
    };
    assert!(rt;
        matches!(status, Status::Memory | Status::Done),
        "{status:?}"
    );
    assert!(rt; written.as_slice() == report.as_bytes(), "{status:?}");
}
