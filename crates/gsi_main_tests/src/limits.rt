//! The limits of scripts and of what they make, and inputs that are no scripts.
use crate::replaying::replayed;
use gsi_main::{Kind, Status, What};
use std::alloc::Global;
use std::process::Abort;
use std::test::Fail;

const ONE: &str = "{\"gsi\":1,\"vbuckets\":1,\"clients\":1}\n";

const WIDE: &str = "{\"gsi\":1,\"vbuckets\":1024,\"clients\":1}\n";

const CROWDED: &str = "{\"gsi\":1,\"vbuckets\":1,\"clients\":64}\n";

const CLIENT: &str = "{\"s\":\"client\",\"c\":0}\n";

const SCAN: &str = "{\"c\":0,\"do\":\"scan\",\"index\":\"ix\"}\n";

const CREATE_AND_DROP: &str =
    "{\"c\":0,\"do\":\"ddl\",\"q\":\"CREATE INDEX ix ON ks(x)\"}\n{\"c\":0,\"do\":\"ddl\",\"q\":\"DROP INDEX ix ON ks\"}\n";

/// The report of a script in which nothing happens.
const NOTHING: &str = "{\"e\":\"end\",\"events\":0,\"high\":{},\"indexes\":[]}\n";

/// A text, and so many times another one.
fn repeated(alloc: Global, front: &str, text: &str, times: usize) -> Result<Vec<u8>, Fail> {
    let mut input = Vec::from_slice(alloc, front.as_bytes())?;
    for _ in 0..times {
        input.extend_from_slice(text.as_bytes())?;
    }
    Ok(input)
}

/// A text, and so many lines with their numbers, from 0 on.
fn numbered(
    alloc: Global,
    front: &str,
    before: &str,
    after: &str,
    times: usize,
) -> Result<String, Fail> {
    let mut input = String::from_str(alloc, front)?;
    for number in 0..times {
        input.push_str(format!(in alloc; "{before}{number}{after}\n")?.as_str())?;
    }
    Ok(input)
}

/// That an input ends so, with nothing in its report.
fn ends(rt: &(impl AllocGlobal + Abort), input: &[u8], status: Status) -> Result<(), Fail> {
    let (found, written) = replayed(rt.alloc(), input)?;
    assert_eq!(rt; found, status);
    let report = if status == Status::Done { NOTHING } else { "" };
    assert_eq!(rt; written.as_str(), report, "{status:?}");
    Ok(())
}

/// That a script has a report with these lines.
fn has_lines(rt: &(impl AllocGlobal + Abort), script: &[u8], lines: &str) -> Result<(), Fail> {
    let (found, written) = replayed(rt.alloc(), script)?;
    assert_eq!(rt; found, Status::Done);
    assert!(rt; written.as_str().contains(lines), "{}", written.as_str());
    Ok(())
}

#[test]
fn inputs_that_are_no_scripts(rt: HostRuntime) -> Result<(), Fail> {
    for (line, kind, input) in [
        (1, Kind::Shape, ""),
        (1, Kind::Shape, "\n\t \r\n"),
        (
            2,
            Kind::Syntax,
            "{\"gsi\":1,\"vbuckets\":1,\"clients\":1}\n{\"c\":0,\"do\":\"up",
        ),
    ] {
        ends(&rt, input.as_bytes(), Status::Script { line, kind })?;
    }
    Ok(())
}

fn too_large(what: What, limit: u64) -> Status {
    Status::TooLarge { what, limit }
}

/// Blanks up to the limit, and one more.
#[test]
fn bytes_are_counted(rt: HostRuntime) -> Result<(), Fail> {
    let past = too_large(What::Input, 4_194_304);
    for (len, status) in [(4_194_304usize, Status::Done), (4_194_305, past)] {
        let input = repeated(rt.alloc(), ONE, " ", len.saturating_sub(ONE.len()))?;
        ends(&rt, input.as_slice(), status)?;
    }
    Ok(())
}

/// Lines of the schedule, also of a client that has nothing left, and requests, also of no index.
#[test]
fn lines_are_counted(rt: HostRuntime) -> Result<(), Fail> {
    for (header, line, times, status) in [
        (ONE, CLIENT, 65_536, Status::Done),
        (ONE, CLIENT, 65_537, too_large(What::Lines, 65_536)),
        (WIDE, CLIENT, 4_096, Status::Done),
        (WIDE, CLIENT, 4_097, too_large(What::Product, 4_194_304)),
        (ONE, SCAN, 1_025, too_large(What::Scans, 1_024)),
    ] {
        let input = repeated(rt.alloc(), header, line, times)?;
        ends(&rt, input.as_slice(), status)?;
    }
    Ok(())
}

#[test]
fn the_greatest_number_of_scans(rt: HostRuntime) -> Result<(), Fail> {
    let script = repeated(rt.alloc(), ONE, SCAN, 1_024)?;
    has_lines(
        &rt,
        script.as_slice(),
        "{\"c\":0,\"code\":5,\"e\":\"refuse\",\"k\":1023,\"what\":\"unknown_index\"}\n{\"e\":\"end\",\"events\":1024,",
    )
}

/// Each client deletes a document, one after the other.
#[test]
fn the_greatest_number_of_clients(rt: HostRuntime) -> Result<(), Fail> {
    let script = numbered(
        rt.alloc(),
        CROWDED,
        "{\"c\":",
        ",\"do\":\"delete\",\"id\":\"a\"}",
        64,
    )?;
    has_lines(
        &rt,
        script.as_bytes(),
        "{\"c\":63,\"e\":\"mutate\",\"k\":0,\"seq\":64,\"vb\":0}\n{\"e\":\"end\",\"events\":64,\"high\":{\"0\":64},\"indexes\":[]}\n",
    )
}

#[test]
fn a_seventeenth_index_is_refused(rt: HostRuntime) -> Result<(), Fail> {
    let script = numbered(
        rt.alloc(),
        ONE,
        "{\"c\":0,\"do\":\"ddl\",\"q\":\"CREATE INDEX i",
        " ON ks(x) WITH {\\\"defer_build\\\": true}\"}",
        17,
    )?;
    has_lines(
        &rt,
        script.as_bytes(),
        "{\"c\":0,\"e\":\"define\",\"i\":15,\"k\":15,\"state\":\"deferred\"}\n{\"c\":0,\"code\":7,\"e\":\"refuse\",\"k\":16,\"what\":\"too_many_indexes\"}\n{\"e\":\"end\",\"events\":17,",
    )
}

/// Indexes that were dropped count among the sixteen.
#[test]
fn a_drop_makes_no_room(rt: HostRuntime) -> Result<(), Fail> {
    let script = repeated(rt.alloc(), ONE, CREATE_AND_DROP, 17)?;
    has_lines(
        &rt,
        script.as_slice(),
        "{\"c\":0,\"e\":\"drop\",\"i\":15,\"k\":31}\n{\"c\":0,\"code\":7,\"e\":\"refuse\",\"k\":32,\"what\":\"too_many_indexes\"}\n{\"c\":0,\"code\":5,\"e\":\"refuse\",\"k\":33,\"what\":\"unknown_index\"}\n{\"e\":\"end\",\"events\":50,",
    )
}

/// Each of sixteen indexes is caught up in the end.
#[test]
fn sixteen_indexes_are_kept(rt: HostRuntime) -> Result<(), Fail> {
    let mut script = numbered(
        rt.alloc(),
        ONE,
        "{\"c\":0,\"do\":\"ddl\",\"q\":\"CREATE INDEX i",
        " ON ks(x)\"}",
        16,
    )?;
    script.push_str("{\"c\":0,\"do\":\"upsert\",\"id\":\"a\",\"doc\":{\"x\":1}}\n")?;
    has_lines(
        &rt,
        script.as_bytes(),
        "{\"e\":\"publish\",\"i\":14,\"v\":{\"0\":1}}\n{\"e\":\"publish\",\"i\":15,\"v\":{\"0\":1}}\n{\"e\":\"end\",\"events\":49,\"high\":{\"0\":1},\"indexes\":[{\"i\":0,\"name\":\"i0\",\"rows\":1,\"state\":\"online\",\"v\":{\"0\":1}},",
    )
}
