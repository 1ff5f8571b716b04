use crate::showing::shown;
use n1ql_value::Memory;
use scan_history::{Kind, What};
use script_text::{ScriptFault, read_script};
use std::alloc::Global;
use std::process::Abort;
use std::test::Fail;

/// What an input is: the script, or the fault.
fn outcome(alloc: Global, input: &[u8]) -> Result<String, Memory> {
    match read_script(alloc, input) {
        Ok(script) => {
            let text = shown(alloc, &script)?;
            Ok(String::from_utf8_lossy(alloc, &text)?)
        }
        Err(ScriptFault::Line { line, kind }) => Ok(format!(in alloc; "{line} {kind:?}")?),
        Err(ScriptFault::TooLarge { what, limit }) => Ok(format!(in alloc; "{what:?} {limit}")?),
        Err(ScriptFault::Memory) => Err(Memory),
    }
}

/// That each text, between these two, is what stands beside it.
fn each_is(
    rt: &impl Abort,
    alloc: Global,
    before: &str,
    rows: &[(&str, &str)],
    after: &str,
) -> Result<(), Fail> {
    for (text, want) in rows {
        let input = format!(in alloc; "{before}{text}{after}")?;
        let found = outcome(alloc, input.as_bytes())?;
        assert_eq!(rt; found.as_str(), *want, "{input}");
    }
    Ok(())
}

#[test]
fn headers(rt: HostRuntime) -> Result<(), Fail> {
    let rows = [
        ("", "1 Shape"),
        ("\n \n", "1 Shape"),
        (
            "\n \t\r\n{\"gsi\":1,\"vbuckets\":1,\"clients\":1}\r\n \n\n",
            "1 1 2 64 ks|",
        ),
        (
            r#"{"gsi":1,"vbuckets":1024,"clients":1,"keyspace":"ks","workers":16,"batch":4096}"#,
            "1024 1 16 4096 ks|",
        ),
        (
            r#"{"gsi":1,"vbuckets":2,"clients":1,"workers":0,"batch":1}"#,
            "2 1 0 1 ks|",
        ),
        ("\n{\"gsi\":1", "2 Syntax"),
        (r#"{"gsi":1.0}"#, "1 Number"),
        (r#"{"gsi":2}"#, "1 Version"),
        ("[]", "1 Shape"),
        (r#"{"gsi":"1","vbuckets":1,"clients":1}"#, "1 Shape"),
        (r#"{"gsi":1,"vbuckets":1}"#, "1 Shape"),
        (r#"{"gsi":1,"vbuckets":0,"clients":1}"#, "1 Range"),
        (r#"{"gsi":1,"vbuckets":1025,"clients":1}"#, "1 Range"),
        (r#"{"gsi":1,"vbuckets":1,"clients":65}"#, "1 Range"),
        (r#"{"gsi":1,"vbuckets":1,"clients":0}"#, "1 Range"),
        (
            r#"{"gsi":1,"vbuckets":1,"clients":64}"#,
            "1 64 2 64 ks||||||||||||||||||||||||||||||||||||||||||||||||||||||||||||||||",
        ),
    ];
    each_is(&rt, rt.alloc(), "", &rows, "")
}

#[test]
fn header_members(rt: HostRuntime) -> Result<(), Fail> {
    let rows = [
        (r#","readers":0"#, "1 Shape"),
        (r#","keyspace":1"#, "1 Shape"),
        (r#","keyspace":"""#, "1 Range"),
        (r#","keyspace":"shop""#, "1 1 2 64 shop|"),
        (
            r#","keyspace":"a name that is read and kept, whatever its signs, as long as it has at most one hundred bytes.... é""#,
            "1 1 2 64 a name that is read and kept, whatever its signs, as long as it has at most one hundred bytes.... é|",
        ),
        (
            r#","keyspace":"a name that is read and kept, whatever its signs, as long as it has at most one hundred bytes.... é!""#,
            "1 Range",
        ),
        (r#","workers":17"#, "1 Range"),
        (r#","workers":-1"#, "1 Range"),
        (r#","batch":0"#, "1 Range"),
        (r#","batch":4097"#, "1 Range"),
    ];
    each_is(
        &rt,
        rt.alloc(),
        r#"{"gsi":1,"vbuckets":1,"clients":1"#,
        &rows,
        "}",
    )
}

#[test]
fn commands(rt: HostRuntime) -> Result<(), Fail> {
    let rows = [
        (r#"{"c":0,"do":"up"#, "2 Syntax"),
        (r#"{"c":0,"do":"upsert","id":"b","doc":1.5}"#, "2 Number"),
        (
            r#"{"c":0,"do":"upsert","id":"b","doc":[1.5],"doc":null}"#,
            "4 1 2 64 ks| +b=null",
        ),
        ("7", "2 Shape"),
        ("{}", "2 Shape"),
        (r#"{"c":0,"do":"drop","id":"a"}"#, "2 Shape"),
        (r#"{"c":0,"do":"delete","id":"a","s":"client"}"#, "2 Shape"),
        (r#"{"gsi":1,"vbuckets":4,"clients":1}"#, "2 Shape"),
        (r#"{"c":0,"do":"delete","id":"\u00e9"}"#, "4 1 2 64 ks| -é"),
        (r#"{"c":0,"do":"delete"}"#, "2 Shape"),
        (r#"{"c":0,"do":"delete","id":"a","doc":1}"#, "2 Shape"),
        (r#"{"c":1,"do":"delete","id":5}"#, "2 Shape"),
        (r#"{"c":1,"do":"delete","id":"a"}"#, "2 Range"),
        (r#"{"c":-1,"do":"delete","id":"a"}"#, "2 Range"),
        (r#"{"c":0,"do":"delete","id":""}"#, "2 Range"),
        (r#"{"c":0,"do":"upsert","id":"a"}"#, "2 Shape"),
        (
            r#"{"c":0,"do":"upsert","id":"a","doc":{"b":[true,"z"],"a":-1}}"#,
            r#"4 1 2 64 ks| +a={"a":-1,"b":[true,"z"]}"#,
        ),
        (r#"{"c":0,"do":"ddl","q":7}"#, "2 Shape"),
        (r#"{"c":0,"do":"ddl"}"#, "2 Shape"),
        (
            r#"{"c":0,"do":"ddl","q":"DROP INDEX ix ON ks"}"#,
            "4 1 2 64 ks| :DROP INDEX ix ON ks",
        ),
        (
            r#"{"c":0,"do":"ddl","q":"CREATE é"}"#,
            "4 1 2 64 ks| :CREATE é",
        ),
        (r#"{"c":0,"do":"ddl","q":""}"#, "4 1 2 64 ks| :"),
        (r#"{"c":0,"do":"scan","index":"no"}"#, "4 1 2 64 ks| ?no[]"),
        (r#"{"c":0,"do":"scan","index":""}"#, "4 1 2 64 ks| ?[]"),
        (r#"{"c":0,"do":"scan","index":0}"#, "2 Shape"),
        (r#"{"c":0,"do":"scan"}"#, "2 Shape"),
        (r#"{"c":0,"do":"query","q":"SELECT 1"}"#, "2 Unbuilt"),
        (
            "\n \n{\"c\":0,\"do\":\"delete\",\"id\":\"a\"}\n\n{\n[",
            "6 Syntax",
        ),
    ];
    each_is(
        &rt,
        rt.alloc(),
        "{\"gsi\":1,\"vbuckets\":4,\"clients\":1}\n",
        &rows,
        "",
    )
}

#[test]
fn scans(rt: HostRuntime) -> Result<(), Fail> {
    let rows = [
        ("", "4 1 2 64 ks| :CREATE INDEX ix ON ks(x) ?ix[]"),
        (
            r#","spans":[]"#,
            "4 1 2 64 ks| :CREATE INDEX ix ON ks(x) ?ix",
        ),
        (
            r#","spans":[[],[{}]]"#,
            "4 1 2 64 ks| :CREATE INDEX ix ON ks(x) ?ix[][(_b_)]",
        ),
        (
            r#","spans":[[{"low":1,"high":3,"incl":1},{"low":null}],[{"high":[],"incl":0}]]"#,
            "4 1 2 64 ks| :CREATE INDEX ix ON ks(x) ?ix[(1l3)(nullb_)][(_n[])]",
        ),
        (r#","spans":[{}]"#, "3 Shape"),
        (r#","spans":[[{"x":1}]]"#, "3 Shape"),
        (r#","spans":[[{"incl":"3"}]]"#, "3 Shape"),
        (r#","spans":[[{"incl":4}]]"#, "3 Range"),
        (
            r#","spans":[[{},{},{},{},{},{},{},{},{},{},{},{},{},{},{},{},{}]]"#,
            "3 Range",
        ),
    ];
    each_is(
        &rt,
        rt.alloc(),
        "{\"gsi\":1,\"vbuckets\":4,\"clients\":1}\n{\"c\":0,\"do\":\"ddl\",\"q\":\"CREATE INDEX ix ON ks(x)\"}\n{\"c\":0,\"do\":\"scan\",\"index\":\"ix\"",
        &rows,
        "}",
    )
}

#[test]
fn requests(rt: HostRuntime) -> Result<(), Fail> {
    let rows = [
        (
            r#","consistency":"not_bounded","wait":true"#,
            "4 1 2 64 ks| :CREATE INDEX ix ON ks(x) ?ix[]",
        ),
        (
            r#","wait":false"#,
            "4 1 2 64 ks| :CREATE INDEX ix ON ks(x) ?ix[]!",
        ),
        (r#","wait":null"#, "3 Shape"),
        (r#","wait":1"#, "3 Shape"),
        (
            r#","consistency":"request_plus""#,
            "4 1 2 64 ks| :CREATE INDEX ix ON ks(x) ?ix[]@all",
        ),
        (
            r#","wait":false,"spans":[],"consistency":"request_plus""#,
            "4 1 2 64 ks| :CREATE INDEX ix ON ks(x) ?ix@all!",
        ),
        (r#","consistency":"exact""#, "3 Shape"),
        (r#","consistency":null"#, "3 Shape"),
        (r#","at":"mine""#, "3 Shape"),
        (r#","consistency":"not_bounded","at":null"#, "3 Shape"),
        (r#","consistency":"request_plus","at":"mine""#, "3 Shape"),
        (r#","consistency":"at_plus""#, "3 Shape"),
        (
            r#","consistency":"at_plus","at":"mine""#,
            "4 1 2 64 ks| :CREATE INDEX ix ON ks(x) ?ix[]@mine",
        ),
        (r#","consistency":"at_plus","at":"theirs""#, "3 Shape"),
        (r#","consistency":"at_plus","at":[0]"#, "3 Shape"),
        (
            r#","consistency":"at_plus","at":{}"#,
            "4 1 2 64 ks| :CREATE INDEX ix ON ks(x) ?ix[]@ 0 0 0 0",
        ),
    ];
    each_is(
        &rt,
        rt.alloc(),
        "{\"gsi\":1,\"vbuckets\":4,\"clients\":1}\n{\"c\":0,\"do\":\"ddl\",\"q\":\"CREATE INDEX ix ON ks(x)\"}\n{\"c\":0,\"do\":\"scan\",\"index\":\"ix\"",
        &rows,
        "}",
    )
}

#[test]
fn queries(rt: HostRuntime) -> Result<(), Fail> {
    let rows = [
        (r#","q":"SELECT 1""#, "2 Unbuilt"),
        (r#","q":"""#, "2 Unbuilt"),
        (
            r#","q":"","consistency":"at_plus","at":{"3":7}"#,
            "2 Unbuilt",
        ),
        (r#","q":"","consistency":"at_plus","at":{"4":7}"#, "2 Range"),
        (r#","q":"","spans":[]"#, "2 Shape"),
        (r#","q":1"#, "2 Shape"),
        ("", "2 Shape"),
    ];
    each_is(
        &rt,
        rt.alloc(),
        "{\"gsi\":1,\"vbuckets\":4,\"clients\":1}\n{\"c\":0,\"do\":\"query\"",
        &rows,
        "}",
    )
}

#[test]
fn vectors(rt: HostRuntime) -> Result<(), Fail> {
    let rows = [
        (
            r#""0":1,"3":0"#,
            "4 1 2 64 ks| :CREATE INDEX ix ON ks(x) ?ix[]@ 1 0 0 0",
        ),
        (
            r#""3":9223372036854775807,"1":2"#,
            "4 1 2 64 ks| :CREATE INDEX ix ON ks(x) ?ix[]@ 0 2 0 9223372036854775807",
        ),
        (
            r#""2":5,"2":7"#,
            "4 1 2 64 ks| :CREATE INDEX ix ON ks(x) ?ix[]@ 0 0 7 0",
        ),
        (r#""0":9223372036854775808"#, "3 Number"),
        (r#""4":1"#, "3 Range"),
        (r#""0":-1"#, "3 Range"),
        (r#""0":"1""#, "3 Shape"),
        (r#""0":1.0"#, "3 Number"),
        (r#""":1"#, "3 Shape"),
        (r#""01":1"#, "3 Shape"),
        (r#""-1":1"#, "3 Shape"),
        (r#""+1":1"#, "3 Shape"),
        (r#""4":1,"x":1"#, "3 Shape"),
        (r#""99999999999999999999":1"#, "3 Range"),
    ];
    each_is(
        &rt,
        rt.alloc(),
        "{\"gsi\":1,\"vbuckets\":4,\"clients\":1}\n{\"c\":0,\"do\":\"ddl\",\"q\":\"CREATE INDEX ix ON ks(x)\"}\n{\"c\":0,\"do\":\"scan\",\"index\":\"ix\",\"consistency\":\"at_plus\",\"at\":{",
        &rows,
        "}}",
    )
}

// Lines of three clients and of the schedule in any order, each kept among its own.
#[test]
fn several_clients(rt: HostRuntime) -> Result<(), Fail> {
    let rows = [
        (r#"{"c":2,"do":"delete","id":"a"}"#, "4 3 2 64 ks||| -a"),
        (
            "{\"c\":1,\"do\":\"delete\",\"id\":\"a\"}\n{\"c\":0,\"do\":\"delete\",\"id\":\"b\"}\n{\"c\":1,\"do\":\"delete\",\"id\":\"c\"}",
            "4 3 2 64 ks| -b| -a -c|",
        ),
        (
            "{\"s\":\"client\",\"c\":1}\n{\"c\":1,\"do\":\"scan\",\"index\":\"ix\",\"wait\":false}\n{\"s\":\"client\",\"c\":2}\n{\"c\":0,\"do\":\"ddl\",\"q\":\"\"}",
            "4 3 2 64 ks| :| ?ix[]!|; client 1; client 2",
        ),
        (r#"{"c":3,"do":"delete","id":"a"}"#, "2 Range"),
        (r#"{"c":3,"do":"ddl","q":""}"#, "2 Range"),
        (r#"{"c":3,"do":"scan","index":"ix"}"#, "2 Range"),
        (r#"{"c":"1","do":"delete","id":"a"}"#, "2 Shape"),
        (r#"{"do":"delete","id":"a"}"#, "2 Shape"),
        (
            "{\"s\":\"client\",\"c\":2}\n{\"s\":\"client\",\"c\":3}",
            "3 Range",
        ),
        (r#"{"c":2,"do":"query","q":"SELECT 1"}"#, "2 Unbuilt"),
    ];
    each_is(
        &rt,
        rt.alloc(),
        "{\"gsi\":1,\"vbuckets\":4,\"clients\":3}\n",
        &rows,
        "",
    )
}

#[test]
fn schedules(rt: HostRuntime) -> Result<(), Fail> {
    let rows = [
        (r#""client","c":0"#, "4 2 2 64 ks||; client 0"),
        (r#""client","c":1"#, "4 2 2 64 ks||; client 1"),
        (r#""client","c":2"#, "2 Range"),
        (r#""client","c":-1"#, "2 Range"),
        (r#""client""#, "2 Shape"),
        (r#""client","c":0,"index":"ix""#, "2 Shape"),
        (r#""wait""#, "2 Shape"),
        (r#""project","vb":3"#, "4 2 2 64 ks||; project 3"),
        (
            r#""project","vb":0,"index":"ix""#,
            "4 2 2 64 ks||; project 0 of ix",
        ),
        (
            r#""project","vb":1,"index":"""#,
            "4 2 2 64 ks||; project 1 of ",
        ),
        (r#""project","vb":4,"index":"ix""#, "2 Range"),
        (r#""project","vb":-1"#, "2 Range"),
        (r#""project","index":"ix""#, "2 Shape"),
        (r#""project","vb":0,"index":0"#, "2 Shape"),
        (r#""project","vb":0,"index":null"#, "2 Shape"),
        (r#""project","vb":0,"place":0"#, "2 Shape"),
        (
            r#""deliver","index":"ix""#,
            "4 2 2 64 ks||; deliver 0 of ix",
        ),
        (
            r#""deliver","index":"no","place":2"#,
            "4 2 2 64 ks||; deliver 2 of no",
        ),
        (r#""deliver","index":"ix","place":-1"#, "2 Range"),
        (r#""deliver","index":"ix","place":null"#, "2 Shape"),
        (r#""deliver","index":"ix","vb":0"#, "2 Shape"),
        (r#""lose","index":"ix""#, "4 2 2 64 ks||; lose 0 of ix"),
        (
            r#""lose","index":"","place":9223372036854775807"#,
            "4 2 2 64 ks||; lose 9223372036854775807 of ",
        ),
        (r#""lose","index":"ix","place":-1"#, "2 Range"),
        (r#""lose","place":0"#, "2 Shape"),
    ];
    each_is(
        &rt,
        rt.alloc(),
        "{\"gsi\":1,\"vbuckets\":4,\"clients\":2}\n{\"s\":",
        &rows,
        "}",
    )
}

#[test]
fn publications_and_rewinds(rt: HostRuntime) -> Result<(), Fail> {
    let rows = [
        (r#""publish","index":"ix""#, "4 2 2 64 ks||; publish ix"),
        (r#""publish","index":"""#, "4 2 2 64 ks||; publish "),
        (r#""publish","index":"ix","c":0"#, "2 Shape"),
        (r#""publish""#, "2 Shape"),
        (r#""rewind","to":{}"#, "4 2 2 64 ks||; rewind 0 0 0 0"),
        (
            r#""rewind","to":{"3":1,"1":7}"#,
            "4 2 2 64 ks||; rewind 0 7 0 1",
        ),
        (
            r#""rewind","to":{"3":1},"index":"ix""#,
            "4 2 2 64 ks||; rewind 0 0 0 1 of ix",
        ),
        (
            r#""rewind","index":"no","to":{"2":9223372036854775807}"#,
            "4 2 2 64 ks||; rewind 0 0 9223372036854775807 0 of no",
        ),
        (r#""rewind","to":{"4":0}"#, "2 Range"),
        (r#""rewind","to":{"0":-1}"#, "2 Range"),
        (r#""rewind","to":{"00":1}"#, "2 Shape"),
        (r#""rewind","to":"mine""#, "2 Shape"),
        (r#""rewind","to":{},"index":0"#, "2 Shape"),
        (r#""rewind","index":"ix""#, "2 Shape"),
        (r#""rewind""#, "2 Shape"),
        (r#""client","c":0,"do":"delete""#, "2 Shape"),
        (
            "\"publish\",\"index\":\"ix\"}\n{\"s\":\"lose\",\"index\":\"ix\",\"place\":1}\n{\"s\":\"client\",\"c\":1",
            "4 2 2 64 ks||; publish ix; lose 1 of ix; client 1",
        ),
    ];
    each_is(
        &rt,
        rt.alloc(),
        "{\"gsi\":1,\"vbuckets\":4,\"clients\":2}\n{\"s\":",
        &rows,
        "}",
    )
}

/// A line again and again behind others.
fn repeated(alloc: Global, front: &str, line: &str, count: usize) -> Result<Vec<u8>, Fail> {
    let mut input = Vec::from_slice(alloc, front.as_bytes())?;
    for _ in 0..count {
        input.extend_from_slice(line.as_bytes())?;
    }
    Ok(input)
}

#[test]
fn limits(rt: HostRuntime) -> Result<(), Fail> {
    let one = "{\"gsi\":1,\"vbuckets\":1,\"clients\":1}\n";
    let many = "{\"gsi\":1,\"vbuckets\":1024,\"clients\":1}\n";
    let defined =
        "{\"gsi\":1,\"vbuckets\":1,\"clients\":1}\n{\"c\":0,\"do\":\"ddl\",\"q\":\"CREATE INDEX ix ON ks(x)\"}\n";
    let defined_in_many =
        "{\"gsi\":1,\"vbuckets\":1024,\"clients\":1}\n{\"c\":0,\"do\":\"ddl\",\"q\":\"CREATE INDEX ix ON ks(x)\"}\n";
    let delete = "{\"c\":0,\"do\":\"delete\",\"id\":\"a\"}\n";
    let scan = "{\"c\":0,\"do\":\"scan\",\"index\":\"ix\"}\n";
    let client = "{\"s\":\"client\",\"c\":0}\n";
    let past = |what, limit| Some(ScriptFault::TooLarge { what, limit });
    for (front, line, count, want) in [
        (one, delete, 65_537, past(What::Lines, 65_536)),
        (many, delete, 4_096, None),
        (many, delete, 4_097, past(What::Product, 4_194_304)),
        (many, client, 4_096, None),
        (many, client, 4_097, past(What::Product, 4_194_304)),
        (one, client, 65_537, past(What::Lines, 65_536)),
        (defined, scan, 1_024, None),
        (one, scan, 1_025, past(What::Scans, 1_024)),
        (defined, scan, 1_025, past(What::Scans, 1_024)),
        (defined_in_many, scan, 4_096, past(What::Product, 4_194_304)),
    ] {
        let input = repeated(rt.alloc(), front, line, count)?;
        let found = read_script(rt.alloc(), &input).err();
        assert!(rt; found == want, "{front}{count}");
    }
    Ok(())
}

#[test]
fn a_bad_line_goes_before_a_limit(rt: HostRuntime) -> Result<(), Fail> {
    let one = "{\"gsi\":1,\"vbuckets\":1,\"clients\":1}\n";
    let many = "{\"gsi\":1,\"vbuckets\":1024,\"clients\":1}\n";
    let delete = "{\"c\":0,\"do\":\"delete\",\"id\":\"a\"}\n";
    for (front, count, line) in [(one, 65_537, 65_539), (many, 4_097, 4_099)] {
        let mut input = repeated(rt.alloc(), front, delete, count)?;
        input.extend_from_slice(b"{\n")?;
        let found = read_script(rt.alloc(), &input).err();
        let kind = Kind::Syntax;
        assert!(rt;
            found == Some(ScriptFault::Line { line, kind }),
            "{front}{count}"
        );
    }
    Ok(())
}
