//! The program `ekhad`: standard input, output and error, handed to `ekhad_cli::main`.
#![tactic(auto)]

use ek_io::{StdSink, StdSource};
use std::process::ExitCode;

fn main(rt: HostRuntime) -> ExitCode {
    let mut input = StdSource::new(rt.stdin());
    let mut out = StdSink::new(rt.stdout());
    let mut err = StdSink::new(rt.stderr());
    ekhad_cli::main(&rt, &mut input, &mut out, &mut err)
}
