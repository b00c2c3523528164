//! What an input is answered.

ghost use Rattle.std.specs.Prelude.{◌≡◌, ◌≤◌, codes, length, IfOk};
ghost use Rattle.chare_checker.specs.Wording.{wording};
ghost use Rattle.command_words.specs.Grammar.{Bounded};
ghost use Rattle.chare_base.specs.declared.options.Mode.TheVariants.{Strong};
ghost use Rattle.top_call.specs.Due.{Due, DueDrill, DueTexts, job_line};

use crate::refusal::job_line;
use crate::script::scripted;
use crate::split::split;
use crate::status::Status;
use chare_base::bytes::Bytes;
use chare_base::memory::Memory;
use chare_base::options::Options;
use chare_checker::check::check;
use chare_checker::laws::refused_has_none;
use chare_checker::wording::{fault_code, parse_code, parse_place};
use chare_syntax::parse::parse;
use command_words::command::Command;
use std::alloc::Global;

/// The longest input that is looked at, in bytes.
pub const INPUT_LIMIT: usize = 262_144;

/// A status, and the text that goes with it.
#[derive(Drop)]
pub struct Answer {
    pub status: Status,
    pub text: Bytes,
}

/// The answer that is due to an input after a command. For a drill: the report of its run under the input's script; `still`
/// where the run stands still before its end; `nodes` where there are more nodes than elements; `script` with a line and a
/// word where the script isn't one for the job and the nodes, and `unbuilt` where it has a crash line; `job` with the line,
/// the column and the word of the first fault, where the job's text is no job; or `long` where the input has more than
/// 262,144 bytes.
///
/// `Memory`: an allocation was refused.
pub fn answer_to(alloc: Global, command: Command, input: &[u8]) -> Result<Answer, Memory>
    requires { Bounded command }
    ensures { IfOk result (λ answer. Due command input.now answer.status answer.text) }
{
    let Command::Drill { options, schedule } = command;
    answer_to_drill(alloc, options, schedule, input)
}

// The same for a drill.
fn answer_to_drill(
    alloc: Global,
    options: Options,
    schedule: u64,
    input: &[u8],
) -> Result<Answer, Memory>
    requires some { 1 ≤ options.nodes }
    requires bounded { options.nodes ≤ 32 }
    requires every { 1 ≤ options.every }
    requires strong { options.mode ≡ Strong }
    ensures { IfOk result (λ answer. DueDrill options schedule input.now answer.status
        answer.text) }
{
    if input.len() > INPUT_LIMIT {
        return too_long(alloc);
    }
    let (job, script) = split(input);
    answer_to_texts(alloc, &options, schedule, job, script)
}

// The answer to the two texts of an input: the job's and the script's.
fn answer_to_texts(
    alloc: Global,
    options: &Options,
    schedule: u64,
    job: &[u8],
    script: &[u8],
) -> Result<Answer, Memory>
    requires some { 1 ≤ options.now.nodes }
    requires bounded { options.now.nodes ≤ 32 }
    requires every { 1 ≤ options.now.every }
    requires strong { options.now.mode ≡ Strong }
    requires short_job { length job.now ≤ 262144 }
    requires short_script { length script.now ≤ 262144 }
    ensures { IfOk result (λ answer. DueTexts options.now schedule job.now script.now answer.status
        answer.text) }
{
    // So a text that is refused has no plan.
    refused_has_none();
    let ast = match parse(alloc, job) {
        Ok(ast) => ast,
        Err(fault) => return no_job(alloc, job, parse_place(fault), parse_code(fault)),
    };
    let plan = match check(alloc, &ast) {
        Ok(plan) => plan,
        Err(fault) => return no_job(alloc, job, fault.place(), fault_code(fault)),
    };
    scripted(alloc, &plan, options, schedule, script)
}

// The answer to a text that is no job, for the fault at this place with the word of this code. The code 0 is
// that of no word: memory ran out.
fn no_job(alloc: Global, text: &[u8], at: u32, code: u8) -> Result<Answer, Memory>
    requires { length text.now ≤ 262144 }
    ensures status { IfOk result (λ answer. answer.status ≡ Status.Job) }
    ensures text { IfOk result (λ answer. answer.text ≡ job_line (wording text.now at code)) }
    ensures real { IfOk result (λ answer. code ≡ 0 → ⊥) }
{
    if code == 0 {
        return Err(Memory);
    }
    Ok(Answer {
        status: Status::Job,
        text: job_line(alloc, text, at, code)?,
    })
}

// The answer to an input that is too long.
fn too_long(alloc: Global) -> Result<Answer, Memory>
    ensures status { IfOk result (λ answer. answer.status ≡ Status.Long) }
    ensures text { IfOk result (λ answer. answer.text ≡ codes "long\n") }
{
    Ok(Answer {
        status: Status::Long,
        text: Bytes::from_slice(alloc, b"long\n")?,
    })
}
