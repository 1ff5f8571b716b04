//! The program `gsi`: the top call over the arguments, standard input and standard output.
#![tactic(auto)]

mod run;
#[cfg(test)]
mod tests;
mod words;

use gsi_main::{StdSink, StdSource};
use run::run;
use std::env;
use std::process::ExitCode;

fn main(rt: HostRuntime) -> ExitCode {
    let mut source = StdSource::new(rt.stdin());
    let mut sink = StdSink::new(rt.stdout());
    run(rt.alloc(), env::args(&rt), &mut source, &mut sink)
}
