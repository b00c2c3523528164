//! ACR: runs a job in two replicas, compares their checkpoints and reports.
//!
//! `main` makes the adapters over standard input and output and ends with the status of the top call, whose
//! clause is the program's theorem.
#![tactic(auto)]

use outside_io::std_sink::StdSink;
use outside_io::std_source::StdSource;
use std::process::ExitCode;
use top_call::process::{arguments, serve};

fn main(rt: HostRuntime) -> ExitCode {
    let mut source = StdSource::start(rt.stdin());
    let mut sink = StdSink::start(rt.stdout());
    serve(rt.alloc(), arguments(&rt), &mut source, &mut sink)
}
