//! Reads a checkpoint back, whole and spoiled, and prints what each reading answers. `stdout` is what is due: it was
//! worked out from the format of checkpoints by another program, never by this one.
//!
//! The job is a ring of three elements. Its checkpoint after the last iteration has 116 bytes: `ACR1` and the number of
//! elements (8), then three records of 36 bytes each. It is read whole; its second record alone; each of its proper
//! prefixes; with a byte more; and with the lowest bit of each byte before the second record changed.
#![tactic(auto)]

use anyhow::{Result, bail};
use chare_base::bytes::Bytes;
use chare_base::cells::Cells;
use chare_base::plan::{ElementId, Plan};
use chare_checker::check::check;
use chare_eval::plain::plain_run;
use chare_syntax::parse::parse;
use pup_state::fault::PupFault;
use pup_state::pack::pack_all;
use pup_state::unpack::{unpack_all, unpack_element};
use std::alloc::Global;

const RING: &str = "job ring
iterate 2
array A[3] {
  state t: int = index
  entry left from A[-1] wrap
  step { send A.left(t) }
  step when left(x) { t = t + x }
}
answer sum A.t
";

fn main(rt: HostRuntime) -> Result<()> {
    let alloc = rt.alloc();
    let plan = check(alloc, &parse(alloc, RING.as_bytes())?)?;
    let Ok(all) = plain_run(alloc, &plan) else {
        bail!("out of memory");
    };
    let Ok(bytes) = pack_all(alloc, &plan, plan.iterations(), &all) else {
        bail!("out of memory");
    };
    let whole = told(alloc, &plan, bytes.as_slice())?;
    println!(rt; "whole: {whole}")?;
    let record = told_record(alloc, &plan, bytes.as_slice())?;
    println!(rt; "record of element 1 at 44: {record}")?;
    try_prefixes(&rt, alloc, &plan, bytes.as_slice())?;
    try_longer(&rt, alloc, &plan, bytes.as_slice())?;
    try_changed(&rt, alloc, &plan, bytes.as_slice())
}

// Reads each proper prefix.
fn try_prefixes(rt: &impl Print, alloc: Global, plan: &Plan, bytes: &[u8]) -> Result<()> {
    for n in 0..bytes.len() {
        let answer = told(alloc, plan, bytes.split_at(n).0)?;
        println!(rt; "first {n} bytes: {answer}")?;
    }
    Ok(())
}

// Reads it with a byte more.
fn try_longer(rt: &impl Print, alloc: Global, plan: &Plan, bytes: &[u8]) -> Result<()> {
    let mut longer = Vec::new(alloc);
    longer.extend_from_slice(bytes)?;
    longer.push(0)?;
    let answer = told(alloc, plan, longer.as_slice())?;
    println!(rt; "a byte more: {answer}")?;
    Ok(())
}

// Reads it with one byte changed, for each byte before the second record.
fn try_changed(rt: &impl Print, alloc: Global, plan: &Plan, bytes: &[u8]) -> Result<()> {
    let mut changed = Vec::new(alloc);
    changed.extend_from_slice(bytes)?;
    for i in 0..44 {
        flip(&mut changed, i);
        let answer = told(alloc, plan, changed.as_slice())?;
        println!(rt; "byte {i} changed: {answer}")?;
        flip(&mut changed, i);
    }
    Ok(())
}

// Changes the lowest bit of a byte, if there is one at this place.
fn flip(bytes: &mut Vec<u8>, at: usize) {
    if let Some(byte) = bytes.get_mut(at) {
        *byte ^= 1;
    }
}

// What reading bytes as a checkpoint answers.
fn told(alloc: Global, plan: &Plan, bytes: &[u8]) -> Result<String> {
    if bytes.len() > 1000 {
        bail!("a checkpoint that is too long");
    }
    match unpack_all(alloc, plan, bytes) {
        Ok(image) => {
            let done = image.done;
            let mut text = format!(in alloc; "{done} iterations, cells")?;
            for cells in image.all.as_slice() {
                put_cells(alloc, &mut text, cells)?;
            }
            Ok(text)
        }
        Err(fault) => told_fault(alloc, fault),
    }
}

// What reading the record of element 1 at place 44 answers.
fn told_record(alloc: Global, plan: &Plan, bytes: &[u8]) -> Result<String> {
    if bytes.len() > 1000 || bytes.len() < 44 || plan.elements() < 2 {
        bail!("no such record");
    }
    match unpack_element(alloc, plan, ElementId(1), bytes, 44) {
        Ok(read) => {
            let (done, next) = (read.done, read.next);
            let mut text = format!(in alloc; "{done} iterations, next at {next}, cells")?;
            put_cells(alloc, &mut text, &read.cells)?;
            Ok(text)
        }
        Err(fault) => told_fault(alloc, fault),
    }
}

fn put_cells(alloc: Global, text: &mut String, cells: &Cells) -> Result<()> {
    for number in cells.numbers.as_slice() {
        text.push_str(" ")?;
        text.push_str(number.to_string(alloc)?.as_str())?;
    }
    Ok(())
}

fn told_fault(alloc: Global, fault: PupFault) -> Result<String> {
    Ok(match fault {
        PupFault::Short { at } => format!(in alloc; "short at {at}")?,
        PupFault::Magic => "magic".to_string(alloc)?,
        PupFault::Count { found } => format!(in alloc; "count {found}")?,
        PupFault::Order { at } => format!(in alloc; "order at {at}")?,
        PupFault::Iteration { at } => format!(in alloc; "iteration at {at}")?,
        PupFault::SlipKind { at } => format!(in alloc; "slip kind at {at}")?,
        PupFault::Layout { at } => format!(in alloc; "layout at {at}")?,
        PupFault::Trailing { at } => format!(in alloc; "trailing at {at}")?,
        PupFault::Memory => bail!("out of memory"),
    })
}
