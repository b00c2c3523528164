//! The call as a process makes it: words that may not have come, and a status that it ends with.

ghost use Rattle.std.specs.Prelude.{[], MatchResult};
ghost use Rattle.top_call.specs.Due.{Ends};

use crate::status::Status;
use crate::top::acr_quiet;
use outside_io::edge::{Sink, Source};
use std::alloc::Global;
use std::env::{self, Env, FillError};
use std::io;
use std::process::ExitCode;

// A process's arguments without the first, the program's name, which isn't read: so a name that is no text is no fault.
#[derive(Drop)]
struct AfterName<'a> {
    rt: &'a HostRuntime,
}

impl Env for AfterName<'_> {
    fn arg(&self, i: usize, buf: &mut [u8]) -> Result<usize, FillError> {
        self.rt.arg(i.saturating_add(1), buf)
    }

    fn var(&self, name: &str, buf: &mut [u8]) -> Result<usize, FillError> {
        self.rt.var(name, buf)
    }

    fn var_at(&self, i: usize, buf: &mut [u8]) -> Result<usize, FillError> {
        self.rt.var_at(i, buf)
    }
}

/// The words after the program's name.
///
/// `OutOfMemory` is want of memory, and any other error a word that isn't text.
pub fn arguments(rt: &HostRuntime) -> io::Result<Vec<String>> {
    let mut words = Vec::new(rt.alloc());
    for word in env::args(&(AfterName { rt }, rt.alloc()))? {
        words.push(word)?;
    }
    Ok(words)
}

/// Serves a process that was started with these words, and tells what it ends with. Where the words have not
/// come, an argument was no text, so that they are no command; or there was no memory for them.
pub fn serve<S: Source, K: Sink>(
    alloc: Global,
    words: io::Result<Vec<String>>,
    source: &mut S,
    sink: &mut K,
) -> ExitCode
    ensures { MatchResult words
        (λ list. Ends list.items (S.left source.old) (S.left source.new) (S.faults source.old) (S.faults source.new) (K.given sink.old) (K.given sink.new) (K.faults sink.old) (K.faults sink.new) result)
        (λ _. Ends [] (S.left source.old) (S.left source.new) (S.faults source.old) (S.faults source.new) (K.given sink.old) (K.given sink.new) (K.faults sink.old) (K.faults sink.new) result) }
{
    match words {
        Ok(list) => acr_quiet(alloc, &list, source, sink).exit_code(),
        Err(fault) if fault.kind() == io::ErrorKind::OutOfMemory => Status::Memory.exit_code(),
        Err(_) => acr_quiet(alloc, &[], source, sink).exit_code(),
    }
}
