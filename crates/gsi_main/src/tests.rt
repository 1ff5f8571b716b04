use crate::{
    Kind, MemSink, MemSource, Status, StdSink, StdSource, SureSink, SureSource, What, gsi_replay,
};
use n1ql_value::Text;
use std::alloc::Global;
use std::io;
use std::io::{Read, Write};
use std::process::Abort;
use std::test::Fail;

const HEADER: &str = "{\"gsi\":1,\"vbuckets\":1,\"clients\":1}";

const END: &str = "{\"e\":\"end\",\"events\":0,\"high\":{},\"indexes\":[]}\n";

fn words_of(alloc: Global, word: &str) -> Result<Vec<Text>, Fail> {
    let mut words = Vec::new(alloc);
    words.push(Text::of(alloc, word)?)?;
    Ok(words)
}

/// The status of the input and the bytes that are held, where the source and the sink fail at these calls.
fn answered(
    alloc: Global,
    input: &str,
    source_fails: &[u64],
    sink_fails: &[u64],
) -> Result<(Status, Vec<u8>), Fail> {
    let words = words_of(alloc, "replay")?;
    let bytes = Vec::from_slice(alloc, input.as_bytes())?;
    let mut source = MemSource::new(alloc, bytes, 7, Vec::from_slice(alloc, source_fails)?);
    let mut sink = MemSink::new(alloc, 1, Vec::from_slice(alloc, sink_fails)?);
    let status = gsi_replay(alloc, words.as_slice(), &mut source, &mut sink);
    Ok((status, Vec::from_slice(alloc, sink.bytes())?))
}

/// What a script is answered: its report, or the status alone.
fn check(
    rt: &(impl AllocGlobal + Abort),
    input: &str,
    status: Status,
    report: &str,
) -> Result<(), Fail> {
    let (found, held) = answered(rt.alloc(), input, &[], &[])?;
    assert!(rt; found == status, "{input}");
    assert!(rt; held.as_slice() == report.as_bytes(), "{input}");
    Ok(())
}

fn bad(line: u64, kind: Kind) -> Status {
    Status::Script { line, kind }
}

#[test]
fn scripts(rt: HostRuntime) -> Result<(), Fail> {
    for (before, header, after, status) in [
        ("", HEADER, "", Status::Done),
        ("\n \t\r\n", HEADER, "\r\n \n\n", Status::Done),
        ("", "", "", bad(1, Kind::Shape)),
        ("\n \n", "", "", bad(1, Kind::Shape)),
        ("\n", "{", "", bad(2, Kind::Syntax)),
        ("", HEADER, "\n\n\n{}\n{", bad(4, Kind::Shape)),
        ("", "{\"gsi\":2}", "", bad(1, Kind::Version)),
        (
            "",
            "{\"gsi\":1,\"vbuckets\":1025,\"clients\":1}",
            "",
            bad(1, Kind::Range),
        ),
        (
            "",
            "{\"gsi\":1,\"vbuckets\":1,\"clients\":65}",
            "",
            bad(1, Kind::Range),
        ),
        (
            "",
            "{\"gsi\":1,\"vbuckets\":1,\"clients\":64,\"keyspace\":\"shop\"}",
            "",
            Status::Done,
        ),
        (
            "",
            "{\"gsi\":1,\"keyspace\":\"ks\",\"vbuckets\":1,\"clients\":1,\"workers\":0,\"batch\":1}",
            "",
            Status::Done,
        ),
    ] {
        let input = format!(in rt.alloc(); "{before}{header}{after}")?;
        let report = if status == Status::Done { END } else { "" };
        check(&rt, input.as_str(), status, report)?;
    }
    Ok(())
}

const UPSERT: &str = "{\"c\":0,\"do\":\"upsert\",\"id\":\"a\",\"doc\":{\"x\":-1,\"y\":[null]}}";

const DDL: &str = "{\"c\":0,\"do\":\"ddl\",\"q\":\"CREATE INDEX ix ON ks(x)\"}";

const SCAN: &str = "{\"index\":\"ix\",\"do\":\"scan\",\"c\":0}";

#[test]
fn commands(rt: HostRuntime) -> Result<(), Fail> {
    let delete = "{\"c\":0,\"do\":\"delete\",\"id\":\"\\u00e9\"}";
    for (second, third, status) in [
        (UPSERT, delete, Status::Done),
        (DDL, SCAN, Status::Done),
        (SCAN, DDL, Status::Done),
        (DDL, DDL, Status::Done),
        (
            "{\"c\":0,\"do\":\"ddl\",\"q\":\"nothing that can be read\"}",
            "{\"s\":\"deliver\",\"index\":\"ix\",\"place\":7}",
            Status::Done,
        ),
        ("{\"s\":\"client\",\"c\":0}", SCAN, Status::Done),
        (
            "{\"s\":\"client\",\"c\":0}",
            "{\"s\":\"client\",\"c\":1}",
            bad(3, Kind::Range),
        ),
        (UPSERT, "{\"c\":0,\"do\":\"up", bad(3, Kind::Syntax)),
        (UPSERT, "[]", bad(3, Kind::Shape)),
        (
            "{\"c\":0,\"do\":\"upsert\",\"id\":\"b\",\"doc\":1.5}",
            "{}",
            bad(2, Kind::Number),
        ),
        (
            "{\"c\":1,\"do\":\"delete\",\"id\":\"a\"}",
            "{}",
            bad(2, Kind::Range),
        ),
        (
            "{\"c\":0,\"do\":\"delete\",\"id\":\"a\",\"x\":1}",
            "{}",
            bad(2, Kind::Shape),
        ),
        (
            "{\"c\":0,\"do\":\"query\",\"q\":\"\"}",
            "{}",
            bad(2, Kind::Unbuilt),
        ),
        (
            DDL,
            "{\"c\":0,\"do\":\"query\",\"q\":\"SELECT x FROM ks WHERE x > 1\",\"consistency\":\"request_plus\"}",
            bad(3, Kind::Unbuilt),
        ),
    ] {
        let input = format!(in rt.alloc(); "{HEADER}\n{second}\n{third}")?;
        let (found, _held) = answered(rt.alloc(), input.as_str(), &[], &[])?;
        assert!(rt; found == status, "{input}");
    }
    Ok(())
}

#[test]
fn faults(rt: HostRuntime) -> Result<(), Fail> {
    for (source_fails, sink_fails, status, held_len) in [
        ([1u64, 0], [0u64, 0], Status::ReadFault, 0usize),
        ([3, 4], [0, 0], Status::ReadFault, 0),
        ([6, 0], [1, 0], Status::ReadFault, 0),
        ([0, 0], [3, 0], Status::WriteFault, 2),
        ([0, 0], [1, 2], Status::WriteFault, 0),
    ] {
        let (found, held) = answered(rt.alloc(), HEADER, &source_fails, &sink_fails)?;
        assert!(rt; found == status, "{found:?}");
        assert_eq!(rt; held.len(), held_len);
        assert!(rt; END.as_bytes().starts_with(held.as_slice()));
    }
    Ok(())
}

/// The header and spaces, of so many bytes in all.
fn padded(alloc: Global, len: usize) -> Result<Vec<u8>, Fail> {
    let mut bytes = Vec::from_slice(alloc, HEADER.as_bytes())?;
    bytes.push(b'\n')?;
    for _ in bytes.len()..len {
        bytes.push(b' ')?;
    }
    Ok(bytes)
}

/// A script of a header, a line, and many times the same line.
fn repeated(
    alloc: Global,
    header: &str,
    line: &str,
    again: &str,
    times: usize,
) -> Result<Vec<u8>, Fail> {
    let mut bytes = Vec::from_slice(alloc, header.as_bytes())?;
    bytes.push(b'\n')?;
    bytes.extend_from_slice(line.as_bytes())?;
    bytes.push(b'\n')?;
    for _ in 0..times {
        bytes.extend_from_slice(again.as_bytes())?;
        bytes.push(b'\n')?;
    }
    Ok(bytes)
}

/// How the replay of these bytes ends.
fn ended(alloc: Global, bytes: Vec<u8>) -> Result<Status, Fail> {
    let words = words_of(alloc, "replay")?;
    let mut source = SureSource::new(alloc, bytes);
    Ok(gsi_replay(alloc, words.as_slice(), &mut source, &mut SureSink::new()))
}

fn too_large(what: What, limit: u64) -> Status {
    Status::TooLarge { what, limit }
}

#[test]
fn limits(rt: HostRuntime) -> Result<(), Fail> {
    let input = too_large(What::Input, 4_194_304);
    for (len, status) in [(4_194_304, Status::Done), (4_194_305, input)] {
        let found = ended(rt.alloc(), padded(rt.alloc(), len)?)?;
        assert!(rt; found == status, "{len}");
    }
    Ok(())
}

#[test]
fn limits_of_lines(rt: HostRuntime) -> Result<(), Fail> {
    let wide = "{\"gsi\":1,\"vbuckets\":1024,\"clients\":1}";
    let delete = "{\"c\":0,\"do\":\"delete\",\"id\":\"a\"}";
    for (header, line, again, times, status) in [
        (HEADER, "", delete, 65_537, too_large(What::Lines, 65_536)),
        (wide, "", delete, 4_097, too_large(What::Product, 4_194_304)),
        (wide, "", delete, 4_096, Status::Done),
        (HEADER, DDL, SCAN, 1_025, too_large(What::Scans, 1_024)),
    ] {
        let bytes = repeated(rt.alloc(), header, line, again, times)?;
        let found = ended(rt.alloc(), bytes)?;
        assert!(rt; found == status, "{header} {times} {again}");
    }
    Ok(())
}

#[test]
fn over_a_reader_and_a_writer(rt: HostRuntime) -> Result<(), Fail> {
    let mut written = Vec::new(rt.alloc());
    let words = words_of(rt.alloc(), "replay")?;
    let mut source = StdSource::new(HEADER.as_bytes());
    let mut sink = StdSink::new(&mut written);
    let status = gsi_replay(rt.alloc(), words.as_slice(), &mut source, &mut sink);
    drop(sink);
    assert_eq!(rt; status.code(), 0);
    assert!(rt; written.as_slice() == END.as_bytes());
    Ok(())
}

#[test]
fn wrong_words(rt: HostRuntime) -> Result<(), Fail> {
    let words = words_of(rt.alloc(), "run")?;
    let mut source = SureSource::new(rt.alloc(), Vec::new(rt.alloc()));
    let status = gsi_replay(
        rt.alloc(),
        words.as_slice(),
        &mut source,
        &mut SureSink::new(),
    );
    assert_eq!(rt; status, Status::Words);
    Ok(())
}

/// How a reader or a writer fails.
#[derive(Clone, Copy, PartialEq, Eq)]
enum Fault {
    Error,
    TakesNothing,
    Flush,
}

/// A reader and a writer that fails once, and works from then on.
#[derive(Drop)]
struct FailsOnce {
    fault: Fault,
    failed: bool,
}

impl FailsOnce {
    fn fails_by(&mut self, fault: Fault) -> bool {
        let fails = self.fault == fault && !self.failed;
        self.failed |= fails;
        fails
    }
}

impl Read for FailsOnce {
    fn read(&mut self, _buf: &mut [u8]) -> io::Result<usize> {
        if self.fails_by(Fault::Error) {
            return Err(io::Error::from(io::ErrorKind::Other));
        }
        Ok(0)
    }
}

impl Write for FailsOnce {
    fn write(&mut self, buf: &[u8]) -> io::Result<usize> {
        if self.fails_by(Fault::Error) {
            return Err(io::Error::from(io::ErrorKind::Other));
        }
        if self.fails_by(Fault::TakesNothing) {
            return Ok(0);
        }
        Ok(buf.len())
    }

    fn flush(&mut self) -> io::Result<()> {
        if self.fails_by(Fault::Flush) {
            return Err(io::Error::from(io::ErrorKind::Other));
        }
        Ok(())
    }
}

/// A fault is neither tried again nor passed over.
#[test]
fn over_what_fails_once(rt: HostRuntime) -> Result<(), Fail> {
    let words = words_of(rt.alloc(), "replay")?;
    let mut source = StdSource::new(FailsOnce {
        fault: Fault::Error,
        failed: false,
    });
    let status = gsi_replay(
        rt.alloc(),
        words.as_slice(),
        &mut source,
        &mut SureSink::new(),
    );
    assert_eq!(rt; status.code(), 4);
    for fault in [Fault::Error, Fault::TakesNothing, Fault::Flush] {
        let bytes = Vec::from_slice(rt.alloc(), HEADER.as_bytes())?;
        let mut source = SureSource::new(rt.alloc(), bytes);
        let mut sink = StdSink::new(FailsOnce {
            fault,
            failed: false,
        });
        let status = gsi_replay(rt.alloc(), words.as_slice(), &mut source, &mut sink);
        assert_eq!(rt; status.code(), 5);
    }
    Ok(())
}

const FOUR_DOCUMENTS: &str =
    "{\"gsi\":1,\"vbuckets\":1,\"clients\":1}\n{\"c\":0,\"do\":\"upsert\",\"id\":\"b\",\"doc\":{\"x\":1}}\n{\"c\":0,\"do\":\"upsert\",\"id\":\"a\",\"doc\":{\"x\":1}}\n{\"c\":0,\"do\":\"upsert\",\"id\":\"c\",\"doc\":{\"x\":2}}\n{\"c\":0,\"do\":\"upsert\",\"id\":\"d\",\"doc\":{\"x\":3}}\n{\"c\":0,\"do\":\"ddl\",\"q\":\"CREATE INDEX ix ON ks(x)\"}\n{\"c\":0,\"do\":\"scan\",\"index\":\"ix\",\"spans\":";

const BEFORE_THE_ROWS: &str =
    "{\"c\":0,\"e\":\"mutate\",\"k\":0,\"seq\":1,\"vb\":0}\n{\"c\":0,\"e\":\"mutate\",\"k\":1,\"seq\":2,\"vb\":0}\n{\"c\":0,\"e\":\"mutate\",\"k\":2,\"seq\":3,\"vb\":0}\n{\"c\":0,\"e\":\"mutate\",\"k\":3,\"seq\":4,\"vb\":0}\n{\"c\":0,\"e\":\"define\",\"i\":0,\"k\":4,\"state\":\"building\"}\n{\"e\":\"publish\",\"i\":0,\"v\":{\"0\":4}}\n{\"c\":0,\"e\":\"online\",\"indexes\":[0],\"k\":4}\n{\"c\":0,\"d\":{},\"e\":\"start\",\"i\":0,\"k\":5}\n{\"c\":0,\"e\":\"answer\",\"k\":5,\"rows\":";

const AFTER_THE_ROWS: &str =
    ",\"v\":{\"0\":4}}\n{\"e\":\"end\",\"events\":9,\"high\":{\"0\":4},\"indexes\":[{\"i\":0,\"name\":\"ix\",\"rows\":4,\"state\":\"online\",\"v\":{\"0\":4}}]}\n";

/// Four documents, two of them with one key, under several spans.
#[test]
fn spans(rt: HostRuntime) -> Result<(), Fail> {
    for (spans, rows) in [
        (
            "[[]]",
            "[{\"id\":\"a\",\"keys\":[[1]]},{\"id\":\"b\",\"keys\":[[1]]},{\"id\":\"c\",\"keys\":[[2]]},{\"id\":\"d\",\"keys\":[[3]]}]",
        ),
        (
            "[[{\"low\":1,\"high\":3,\"incl\":1}]]",
            "[{\"id\":\"a\",\"keys\":[[1]]},{\"id\":\"b\",\"keys\":[[1]]},{\"id\":\"c\",\"keys\":[[2]]}]",
        ),
        (
            "[[{\"low\":1,\"high\":3,\"incl\":2}]]",
            "[{\"id\":\"c\",\"keys\":[[2]]},{\"id\":\"d\",\"keys\":[[3]]}]",
        ),
        (
            "[[{\"low\":1,\"high\":3,\"incl\":0}]]",
            "[{\"id\":\"c\",\"keys\":[[2]]}]",
        ),
        (
            "[[{\"low\":1,\"high\":3}]]",
            "[{\"id\":\"a\",\"keys\":[[1]]},{\"id\":\"b\",\"keys\":[[1]]},{\"id\":\"c\",\"keys\":[[2]]},{\"id\":\"d\",\"keys\":[[3]]}]",
        ),
        (
            "[[{\"low\":3}],[{\"high\":1}]]",
            "[{\"id\":\"a\",\"keys\":[[1]]},{\"id\":\"b\",\"keys\":[[1]]},{\"id\":\"d\",\"keys\":[[3]]}]",
        ),
        ("[]", "[]"),
        ("[[{\"low\":null,\"high\":1,\"incl\":0}]]", "[]"),
    ] {
        let input = format!(in rt.alloc(); "{FOUR_DOCUMENTS}{spans}}}\n")?;
        let report = format!(in rt.alloc(); "{BEFORE_THE_ROWS}{rows}{AFTER_THE_ROWS}")?;
        check(&rt, input.as_str(), Status::Done, report.as_str())?;
    }
    Ok(())
}

/// A document that is indexed and scanned; and the same where it is deleted before the scan, which still answers from the
/// newest publication; and four documents, each in a vBucket of its own.
#[test]
fn reports(rt: HostRuntime) -> Result<(), Fail> {
    for (input, report) in [
        (
            "{\"gsi\":1,\"vbuckets\":1,\"clients\":1}\n{\"c\":0,\"do\":\"upsert\",\"id\":\"a\",\"doc\":{\"x\":5}}\n{\"c\":0,\"do\":\"ddl\",\"q\":\"CREATE INDEX ix ON ks(x)\"}\n{\"c\":0,\"do\":\"scan\",\"index\":\"ix\"}\n",
            "{\"c\":0,\"e\":\"mutate\",\"k\":0,\"seq\":1,\"vb\":0}\n{\"c\":0,\"e\":\"define\",\"i\":0,\"k\":1,\"state\":\"building\"}\n{\"e\":\"publish\",\"i\":0,\"v\":{\"0\":1}}\n{\"c\":0,\"e\":\"online\",\"indexes\":[0],\"k\":1}\n{\"c\":0,\"d\":{},\"e\":\"start\",\"i\":0,\"k\":2}\n{\"c\":0,\"e\":\"answer\",\"k\":2,\"rows\":[{\"id\":\"a\",\"keys\":[[5]]}],\"v\":{\"0\":1}}\n{\"e\":\"end\",\"events\":6,\"high\":{\"0\":1},\"indexes\":[{\"i\":0,\"name\":\"ix\",\"rows\":1,\"state\":\"online\",\"v\":{\"0\":1}}]}\n",
        ),
        (
            "{\"gsi\":1,\"vbuckets\":1,\"clients\":1}\n{\"c\":0,\"do\":\"upsert\",\"id\":\"a\",\"doc\":{\"x\":5}}\n{\"c\":0,\"do\":\"ddl\",\"q\":\"CREATE INDEX ix ON ks(x)\"}\n{\"c\":0,\"do\":\"delete\",\"id\":\"a\"}\n{\"c\":0,\"do\":\"scan\",\"index\":\"ix\"}\n",
            "{\"c\":0,\"e\":\"mutate\",\"k\":0,\"seq\":1,\"vb\":0}\n{\"c\":0,\"e\":\"define\",\"i\":0,\"k\":1,\"state\":\"building\"}\n{\"e\":\"publish\",\"i\":0,\"v\":{\"0\":1}}\n{\"c\":0,\"e\":\"online\",\"indexes\":[0],\"k\":1}\n{\"c\":0,\"e\":\"mutate\",\"k\":2,\"seq\":2,\"vb\":0}\n{\"c\":0,\"d\":{},\"e\":\"start\",\"i\":0,\"k\":3}\n{\"c\":0,\"e\":\"answer\",\"k\":3,\"rows\":[{\"id\":\"a\",\"keys\":[[5]]}],\"v\":{\"0\":1}}\n{\"e\":\"publish\",\"i\":0,\"v\":{\"0\":2}}\n{\"e\":\"end\",\"events\":8,\"high\":{\"0\":2},\"indexes\":[{\"i\":0,\"name\":\"ix\",\"rows\":0,\"state\":\"online\",\"v\":{\"0\":2}}]}\n",
        ),
        (
            "{\"gsi\":1,\"vbuckets\":4,\"clients\":1}\n{\"c\":0,\"do\":\"upsert\",\"id\":\"d\",\"doc\":{\"x\":0}}\n{\"c\":0,\"do\":\"upsert\",\"id\":\"c\",\"doc\":{\"x\":0}}\n{\"c\":0,\"do\":\"upsert\",\"id\":\"b\",\"doc\":{\"x\":0}}\n{\"c\":0,\"do\":\"upsert\",\"id\":\"a\",\"doc\":{\"x\":0}}\n",
            "{\"c\":0,\"e\":\"mutate\",\"k\":0,\"seq\":1,\"vb\":3}\n{\"c\":0,\"e\":\"mutate\",\"k\":1,\"seq\":1,\"vb\":2}\n{\"c\":0,\"e\":\"mutate\",\"k\":2,\"seq\":1,\"vb\":1}\n{\"c\":0,\"e\":\"mutate\",\"k\":3,\"seq\":1,\"vb\":0}\n{\"e\":\"end\",\"events\":4,\"high\":{\"0\":1,\"1\":1,\"2\":1,\"3\":1},\"indexes\":[]}\n",
        ),
    ] {
        check(&rt, input, Status::Done, report)?;
    }
    Ok(())
}
