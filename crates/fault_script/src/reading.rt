//! A text, read as a fault script.

ghost use Rattle.std.specs.Prelude.{◌≡◌, ◌<◌, ◌≤◌, length};
ghost use Rattle.fault_script.specs.declared.reading.ScriptFault.TheVariants as faults;
ghost use Rattle.fault_script.specs.Reading.{Reads, script_of};
ghost use Rattle.fault_script.specs.Wording.{line_told, word_told};
ghost use Rattle.fault_script.specs.OneLine.{Adds, added};

use crate::fault::FaultLine;
use crate::meaning::{LineFault, fault_in};
use crate::script::Script;
use crate::text::{first_line, is_fault_line};
use chare_base::memory::Memory;
use chare_base::plan::Plan;
use std::alloc::{AllocError, AllocFailed, Global};
use thiserror::Error;

/// Fault lines of a script, at most.
pub const LINES: usize = 64;

/// Why a text is no script for a plan and nodes. `line` is the number of a line of the text, from 1.
#[derive(Clone, Copy, Debug, PartialEq, Eq, Error)]
pub enum ScriptFault {
    /// The 65th fault line.
    #[error("line {line} is one fault line too many")]
    Lines { line: u32 },
    /// The words of a line are of no form.
    #[error("line {line} is of no form")]
    Form { line: u32 },
    /// A line names an array or a state that the plan doesn't have, gives an element more or fewer coordinates than its
    /// array has, gives a cell of a state `int` an index, or gives a cell of a state `int[n]` none.
    #[error("line {line} names what the job doesn't have")]
    NoSuch { line: u32 },
    /// A number of a line is out of range: a replica above 1, a node, a coordinate, a cell of a state or an iteration
    /// that there isn't, or a mask that is 0 or above 2^64 - 1.
    #[error("a number of line {line} is out of range")]
    Range { line: u32 },
    /// An allocation was refused.
    #[error("out of memory")]
    Memory,
}

impl From<AllocError> for ScriptFault {
    ghost from_gives = { λ _ e. e ≡ faults.Memory };

    fn from(_e: AllocError) -> ScriptFault {
        ScriptFault::Memory
    }
}

impl<T: Drop> From<AllocFailed<T>> for ScriptFault {
    ghost from_gives = { λ _ e. e ≡ faults.Memory };

    fn from(_e: AllocFailed<T>) -> ScriptFault {
        ScriptFault::Memory
    }
}

impl ScriptFault {
    /// The number of the line, 0 where memory ran out.
    pub fn line(self) -> u32
        ensures { result ≡ line_told self }
    {
        match self {
            ScriptFault::Lines { line }
            | ScriptFault::Form { line }
            | ScriptFault::NoSuch { line }
            | ScriptFault::Range { line } => line,
            ScriptFault::Memory => 0,
        }
    }

    /// The word of the fault, empty where memory ran out.
    pub fn word(self) -> &'static [u8]
        ensures { result.now ≡ word_told self }
    {
        match self {
            ScriptFault::Lines { .. } => b"lines".as_slice(),
            ScriptFault::Form { .. } => b"form".as_slice(),
            ScriptFault::NoSuch { .. } => b"no-such".as_slice(),
            ScriptFault::Range { .. } => b"range".as_slice(),
            ScriptFault::Memory => b"".as_slice(),
        }
    }
}

/// The script of a text for a plan and a number of nodes in each replica.
///
/// Errors: the fault of the first faulty line. Within a line `Lines` goes first, then `Form`, `NoSuch` and `Range`. Or
/// `Memory`, where an allocation was refused.
pub fn read_script(
    alloc: Global,
    bytes: &[u8],
    plan: &Plan,
    nodes: u16,
) -> Result<Script, ScriptFault>
    requires { length bytes.now < 4294967295 }
    ensures { Reads (script_of plan.now nodes bytes.now) result }
{
    let mut lines = Vec::with_capacity(alloc, LINES)?;
    let mut rest = bytes;
    let mut number = 1;
    'lines: while let Some((line, more)) = first_line(rest) {
        add_line(&mut lines, number, line, plan, nodes)?;
        rest = more;
        number += 1;
    }
    Ok(Script::from_vec(lines))
}

// Reads one line more.
fn add_line(
    lines: &mut Vec<FaultLine>,
    number: u32,
    line: &[u8],
    plan: &Plan,
    nodes: u16,
) -> Result<(), ScriptFault>
    requires { length lines.old.items ≤ 64 }
    ensures exact { Adds (added plan.now nodes number line.now lines.old.items) result
        lines.new.items }
    ensures few { length lines.new.items ≤ 64 }
{
    if !is_fault_line(line) {
        return Ok(());
    }
    if lines.len() >= LINES {
        return Err(ScriptFault::Lines { line: number });
    }
    match fault_in(line, plan, nodes) {
        Ok(fault) => {
            lines.push(FaultLine {
                line: number,
                fault,
            })?;
            Ok(())
        }
        Err(LineFault::Form) => Err(ScriptFault::Form { line: number }),
        Err(LineFault::NoSuch) => Err(ScriptFault::NoSuch { line: number }),
        Err(LineFault::Range) => Err(ScriptFault::Range { line: number }),
    }
}
