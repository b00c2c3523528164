//! The main of `acr`, which the gate runs on words that are no command: it ends with a status other than 0.
#![tactic(auto)]

use outside_io::std_sink::StdSink;
use outside_io::std_source::StdSource;
use std::process::ExitCode;
use top_call::process::{arguments, serve};

fn main(rt: HostRuntime) -> ExitCode {
    let mut source = StdSource::start(rt.stdin());
    let mut sink = StdSink::start(rt.stdout());
    serve(rt.alloc(), arguments(&rt), &mut source, &mut sink)
}
