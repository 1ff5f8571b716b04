use crate::run::run;
use gsi_main::{MemSink, MemSource};
use std::alloc::Global;
use std::env::Args;
use std::io;
use std::process::ExitCode;
use std::test::Fail;

/// The program's name and one word.
fn arguments(alloc: Global, word: &str) -> Result<Args, Fail> {
    let mut all = Vec::new(alloc);
    all.push(String::from_str(alloc, "gsi")?)?;
    all.push(String::from_str(alloc, word)?)?;
    Ok(all.into_iter())
}

#[test]
fn exit_codes(rt: HostRuntime) -> Result<(), Fail> {
    let alloc = rt.alloc();
    let header = "{\"gsi\":1,\"vbuckets\":1,\"clients\":1}";
    let faults = [io::ErrorKind::InvalidData, io::ErrorKind::OutOfMemory];
    for (given, input, fails, code) in [
        (Ok(arguments(alloc, "replay")?), header, 0, 0),
        (Ok(arguments(alloc, "run")?), header, 0, 2),
        (Err(io::Error::from(faults[0])), header, 0, 2),
        (Ok(arguments(alloc, "replay")?), "{", 0, 3),
        (Ok(arguments(alloc, "replay")?), header, 1, 4),
        (Err(io::Error::from(faults[1])), header, 0, 6),
    ] {
        let bytes = Vec::from_slice(alloc, input.as_bytes())?;
        let mut source = MemSource::new(alloc, bytes, 64, Vec::from_slice(alloc, &[fails])?);
        let mut sink = MemSink::new(alloc, 64, Vec::new(alloc));
        assert_eq!(rt;
            run(alloc, given, &mut source, &mut sink),
            ExitCode::from(code)
        );
    }
    Ok(())
}
