//! A job with the text of a script.

ghost use Rattle.std.specs.Prelude.{◌≡◌, ◌≤◌, codes, length, IfOk, []};
ghost use Rattle.std.specs.List.{list_any};
ghost use Rattle.chare_base.specs.declared.options.Mode.TheVariants.{Strong};
ghost use Rattle.fault_script.specs.Wording.{word_told};
ghost use Rattle.top_call.specs.Due.{DueJob, has_crash, is_crash, script_line};

use crate::answer::Answer;
use crate::drill::drilled;
use crate::refusal::script_line;
use crate::status::Status;
use chare_base::bytes::Bytes;
use chare_base::memory::Memory;
use chare_base::options::Options;
use chare_base::plan::Plan;
use fault_script::fault::{Fault, FaultLine};
use fault_script::reading::{ScriptFault, read_script};
use std::alloc::Global;

/// The answer to a job with a script's text: `script` where it is no script for the job and the nodes, `unbuilt` where it
/// has a crash line, else that to the job drilled under it.
///
/// `Memory`: an allocation was refused.
pub(crate) fn scripted(
    alloc: Global,
    plan: &Plan,
    options: &Options,
    schedule: u64,
    text: &[u8],
) -> Result<Answer, Memory>
    requires some { 1 ≤ options.now.nodes }
    requires bounded { options.now.nodes ≤ 32 }
    requires every { 1 ≤ options.now.every }
    requires strong { options.now.mode ≡ Strong }
    requires short { length text.now ≤ 262144 }
    ensures { IfOk result (λ answer. DueJob options.now schedule plan.now text.now answer.status
        answer.text) }
{
    let script = match read_script(alloc, text, plan, options.nodes) {
        Ok(script) => script,
        Err(fault) => return no_script(alloc, fault),
    };
    if has_crash(script.as_slice()) {
        return unbuilt(alloc);
    }
    drilled(alloc, plan, &script, options, schedule)
}

// The answer to a text that is no script, for its fault. The fault without a word is that memory ran out.
fn no_script(alloc: Global, fault: ScriptFault) -> Result<Answer, Memory>
    ensures status { IfOk result (λ answer. answer.status ≡ Status.Script) }
    ensures text { IfOk result (λ answer. answer.text ≡ script_line fault) }
    ensures real { IfOk result (λ answer. word_told fault ≡ [] → ⊥) }
{
    if fault.word().is_empty() {
        return Err(Memory);
    }
    Ok(Answer {
        status: Status::Script,
        text: script_line(alloc, fault)?,
    })
}

// The answer to a script with a crash line.
fn unbuilt(alloc: Global) -> Result<Answer, Memory>
    ensures status { IfOk result (λ answer. answer.status ≡ Status.Script) }
    ensures text { IfOk result (λ answer. answer.text ≡ codes "unbuilt\n") }
{
    Ok(Answer {
        status: Status::Script,
        text: Bytes::from_slice(alloc, b"unbuilt\n")?,
    })
}

// Whether a line of a script is a crash.
fn has_crash(lines: &[FaultLine]) -> bool
    ensures { result ≡ has_crash lines.now }
{
    lines.iter().any(|line| is_crash(line.fault))
}

fn is_crash(fault: Fault) -> bool
    ensures { result ≡ is_crash fault }
{
    match fault {
        Fault::Flip { .. } => false,
        Fault::Crash { .. } => true,
    }
}
