//! Runs the cases of `data/` over sources and sinks in memory, and prints a line for each: its name and `ok`, or its
//! name and what differs. `stdout` is the list of names with `ok`.
//!
//! Each case is a call of `acr_quiet`, as the program's `main` makes it, with what it must answer. What is due comes
//! from the manual of the language by hand, or from an independent program, never from this one. Cases are data, so
//! adding one costs no proof: add it to a file, and its line to `stdout`.
//!
//! # How a case is written
//!
//! It begins with a line `== NAME`; what stands before a file's first case tells what its cases have in common. Then
//! come, in any order, those of these lines that the case needs:
//!
//! | line | tells | where it is left out |
//! |---|---|---|
//! | `words: drill` | the words after the program's name, separated by spaces | `drill` |
//! | `status: 3` | the status that is due | 0 |
//! | `takes: 0` | how many times the source is read | any number of times |
//! | `room: 10` | how many bytes the sink has room for | as many as come |
//! | `failing take: 1` | the read that fails, from 0 | none |
//! | `failing give: 0` | the write that fails, from 0 | none |
//! | `in turn: take` | the case is served again with each of its reads failing in turn; status 6 and `read` are due | |
//! | `in turn: give` | the same with each write: status 7, and a part of the text from its front | |
//! | `in turn: room` | the same with each room that is too small: status 7, and as much of the text as there is room for | |
//!
//! then a line `input:` with the input's lines, and a line `output:` with the lines of the text that is due. Empty
//! lines and lines that begin with `#` are comments in a case, but within its input. Each line ends with LF. In input
//! and output
//!
//! - `\r`, `\t` and `\xC3` are CR, tab and the byte of these two hexadecimal digits; `\` at a line's end is no byte, and
//!   that line has no LF. No other `\` may stand there: write `\x5C`;
//! - a line `\repeat 30 "if 1 { "` is the text between its quotes 30 times, with no LF behind; `\#` in that text is the
//!   number of the turn, from 1;
//! - a line `\pad 65536` is a comment that fills the input up to that many bytes, with no LF behind.
//!
//! A line that would begin with `== ` begins with `\x3D= `.
#![tactic(auto)]

mod case;
mod serving;

use crate::case::Case;
use crate::serving::difference;
use anyhow::{Context, Result};
use std::alloc::Global;
use std::fs;

/// The files of cases, in the order in which they are run.
const FILES: [&str; 12] = [
    "calls.rows",
    "jobs.rows",
    "grammar.rows",
    "rules.rows",
    "limits.rows",
    "nodes.rows",
    "scripts.rows",
    "random_jobs.rows",
    "random_faults.rows",
    "random_nodes.rows",
    "random_rounds.rows",
    "random_flips.rows",
];

fn main(rt: HostRuntime) -> Result<()> {
    let mut rows = 0u64;
    let mut differing = 0u64;
    for name in FILES {
        let text = fs::read_to_string(&rt, name).context(name)?;
        let (new, wrong) = run_file(&rt, rt.alloc(), text.as_str())?;
        rows = rows.saturating_add(new);
        differing = differing.saturating_add(wrong);
    }
    println!(rt; "{rows} rows, {differing} differ")?;
    Ok(())
}

// Runs the cases of a file, and tells how many there are and how many differ.
fn run_file(rt: &impl Print, alloc: Global, text: &str) -> Result<(u64, u64)> {
    let mut rows = 0u64;
    let mut differing = 0u64;
    for lines in text.split("\n== ").skip(1) {
        rows = rows.saturating_add(1);
        let case = Case::read(alloc, lines)?;
        let name = case.name.as_str();
        match difference(alloc, &case)? {
            None => println!(rt; "{name} ok")?,
            Some(found) => {
                differing = differing.saturating_add(1);
                println!(rt; "{name}: {found}")?;
            }
        }
    }
    Ok((rows, differing))
}
