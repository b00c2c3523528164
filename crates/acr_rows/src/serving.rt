//! Serves a case and compares what came with what is due.

use crate::case::{Case, InTurn};
use anyhow::Result;
use chare_bytes::bytes::Bytes;
use outside_io::calls::Calls;
use outside_io::memory_sink::MemorySink;
use outside_io::memory_source::MemorySource;
use std::alloc::Global;
use top_call::top::acr_quiet;

// What fails while a case is served.
#[derive(Clone, Copy)]
struct Faults {
    take: Option<u64>,
    give: Option<u64>,
    room: usize,
}

// What one call of the program did.
#[derive(Drop)]
struct Served {
    status: u8,
    given: Bytes,
    takes: u64,
    gives: u64,
}

/// What a case is answered that isn't due, if anything.
pub(crate) fn difference(alloc: Global, case: &Case) -> Result<Option<String>> {
    let faults = Faults {
        take: case.failing_take,
        give: case.failing_give,
        room: case.room,
    };
    let served = serve(alloc, case, faults)?;
    let status = served.status;
    if status != case.status || served.given.as_slice() != case.output.as_slice() {
        return Ok(Some(told(alloc, &served, case.status, case.output.as_slice())?));
    }
    if let Some(takes) = case.takes
        && takes != served.takes
    {
        let found = served.takes;
        return Ok(Some(format!(in alloc; "{found} takes, due {takes}")?));
    }
    match case.in_turn {
        InTurn::Nothing => Ok(None),
        InTurn::Take => each_take(alloc, case, faults, served.takes),
        InTurn::Give => each_give(alloc, case, faults, served.gives),
        InTurn::Room => each_room(alloc, case, faults),
    }
}

// Serves a case once, with these faults.
fn serve(alloc: Global, case: &Case, faults: Faults) -> Result<Served> {
    let bytes = Bytes::from_slice(alloc, case.input.as_slice())?;
    let mut source = MemorySource::start(bytes, calls(alloc, faults.take)?);
    let mut sink = MemorySink::start(alloc, faults.room, calls(alloc, faults.give)?)?;
    let status = acr_quiet(alloc, case.words.as_slice(), &mut source, &mut sink);
    Ok(Served {
        status: status.code(),
        given: Bytes::from_slice(alloc, sink.given())?,
        takes: source.calls,
        gives: sink.calls,
    })
}

fn calls(alloc: Global, failing: Option<u64>) -> Result<Calls> {
    match failing {
        None => Ok(Calls::none(alloc)),
        Some(call) => Ok(Calls::from_slice(alloc, &[call])?),
    }
}

// The case again with each of its `takes` reads failing in turn.
fn each_take(alloc: Global, case: &Case, faults: Faults, takes: u64) -> Result<Option<String>> {
    for call in 0..takes {
        let take = Some(call);
        let served = serve(alloc, case, Faults { take, ..faults })?;
        if served.status != 6 || served.given.as_slice() != b"read\n".as_slice() {
            return Ok(Some(told(alloc, &served, 6, b"read\n")?));
        }
    }
    Ok(None)
}

// The same with each of its `gives` writes.
fn each_give(alloc: Global, case: &Case, faults: Faults, gives: u64) -> Result<Option<String>> {
    for call in 0..gives {
        let give = Some(call);
        let served = serve(alloc, case, Faults { give, ..faults })?;
        if served.status != 7 || !case.output.as_slice().starts_with(served.given.as_slice()) {
            return Ok(Some(told(alloc, &served, 7, case.output.as_slice())?));
        }
    }
    Ok(None)
}

// The same with each room that is too small.
fn each_room(alloc: Global, case: &Case, faults: Faults) -> Result<Option<String>> {
    for (room, _) in case.output.iter().enumerate() {
        let served = serve(alloc, case, Faults { room, ..faults })?;
        let due = case.output.as_slice().get(..room).unwrap_or_default();
        if served.status != 7 || served.given.as_slice() != due {
            return Ok(Some(told(alloc, &served, 7, due)?));
        }
    }
    Ok(None)
}

// What came, and what is due.
fn told(alloc: Global, served: &Served, status: u8, output: &[u8]) -> Result<String> {
    let found = served.status;
    let given = String::from_utf8_lossy(alloc, served.given.as_slice())?;
    let due = String::from_utf8_lossy(alloc, output)?;
    Ok(format!(in alloc; "status {found} {given:?}, due status {status} {due:?}")?)
}
