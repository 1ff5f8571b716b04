//! What the replay of a script comes to.
use gsi_main::{MemSink, Status, SureSource, gsi_replay};
use n1ql_value::{Memory, Text};
use std::alloc::Global;
use std::process::Abort;
use std::test::Fail;

/// The word that asks for a replay.
pub fn replay_word(alloc: Global) -> Result<Vec<Text>, Memory> {
    let mut words = Vec::new(alloc);
    words.push(Text::of(alloc, "replay")?)?;
    Ok(words)
}

/// How the replay of a script ends, and what it writes.
pub fn replayed(alloc: Global, script: &[u8]) -> Result<(Status, String), Fail> {
    let words = replay_word(alloc)?;
    let mut source = SureSource::new(alloc, Vec::from_slice(alloc, script)?);
    let mut sink = MemSink::new(alloc, 65_536, Vec::new(alloc));
    let status = gsi_replay(alloc, words.as_slice(), &mut source, &mut sink);
    Ok((status, String::from_utf8_lossy(alloc, sink.bytes())?))
}

/// That a script has this report.
pub fn check(rt: &(impl AllocGlobal + Abort), script: &str, report: &str) -> Result<(), Fail> {
    let (status, found) = replayed(rt.alloc(), script.as_bytes())?;
    assert_eq!(rt; status, Status::Done, "{script}");
    assert_eq!(rt; found.as_str(), report, "{script}");
    Ok(())
}

/// That the script of two clients and these lines has a report with this line.
pub fn has_line(rt: &(impl AllocGlobal + Abort), lines: &str, line: &str) -> Result<(), Fail> {
    let script = format!(in rt.alloc(); "{{\"gsi\":1,\"vbuckets\":1,\"clients\":2}}\n{lines}\n")?;
    let (status, found) = replayed(rt.alloc(), script.as_bytes())?;
    assert_eq!(rt; status, Status::Done, "{script}");
    let line = format!(in rt.alloc(); "{line}\n")?;
    assert!(rt; found.as_str().contains(line.as_str()), "{script}{found}");
    Ok(())
}
