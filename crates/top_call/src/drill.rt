//! The drill of a job: both replicas on their nodes, on one thread.

ghost use Rattle.std.specs.Prelude.{◌≡◌, ◌≤◌, ◌<◌, codes, IfOk};
ghost use Rattle.chare_base.specs.declared.options.Mode.TheVariants.{Strong};
ghost use Rattle.chare_base.specs.Elements.{elements};
ghost use Rattle.top_call.specs.Due.{DueRun, nodes_line};

use crate::answer::Answer;
use crate::refusal::nodes_line;
use crate::status::Status;
use chare_base::bytes::Bytes;
use chare_base::memory::Memory;
use chare_base::options::Options;
use chare_base::plan::Plan;
use fault_script::script::Script;
use run_report::laws::{reports_are_fault_free, reports_are_right};
use run_report::report::report;
use std::alloc::Global;
use world_core::drill::drill;
use world_core::fault::DrillFault;
use world_core::laws::agreed_waits;

/// Runs a job under a script in both replicas on their nodes, its events picked by a schedule, and reports the records that
/// the conductor made. They are lawful. Each checkpoint and answer in the report is that of the fault-free run on one
/// thread, where no flips of the two replicas make equal checkpoints that are wrong. Where there are more nodes than
/// elements nothing is run, and `nodes` is answered; `still` where the drill doesn't come to the run's end.
///
/// `Memory`: an allocation was refused.
pub fn drilled(
    alloc: Global,
    plan: &Plan,
    script: &Script,
    options: &Options,
    schedule: u64,
) -> Result<Answer, Memory>
    requires some { 1 ≤ options.now.nodes }
    requires bounded { options.now.nodes ≤ 32 }
    requires every { 1 ≤ options.now.every }
    requires strong { options.now.mode ≡ Strong }
    ensures { IfOk result (λ answer. DueRun options.now schedule plan.now script.now answer.status
        answer.text) }
{
    if plan.elements() < u32::from(options.nodes) {
        return too_many_nodes(alloc, options.nodes, plan.elements());
    }
    run(alloc, plan, script, options, schedule)
}

// The same, where each node can have an element.
fn run(
    alloc: Global,
    plan: &Plan,
    script: &Script,
    options: &Options,
    schedule: u64,
) -> Result<Answer, Memory>
    requires some { 1 ≤ options.now.nodes }
    requires bounded { options.now.nodes ≤ 32 }
    requires every { 1 ≤ options.now.every }
    requires strong { options.now.mode ≡ Strong }
    requires few { options.now.nodes ≤ elements plan.now }
    ensures { IfOk result (λ answer. DueRun options.now schedule plan.now script.now answer.status
        answer.text) }
{
    agreed_waits();
    reports_are_fault_free();
    reports_are_right();
    match drill(alloc, plan, script, options, schedule) {
        Ok(ending) => Ok(Answer {
            status: Status::Done,
            text: report(alloc, plan, script, options, &ending)?,
        }),
        Err(DrillFault::Still) => still(alloc),
        Err(DrillFault::Memory) => Err(Memory),
    }
}

// The answer where a drill doesn't come to the run's end.
fn still(alloc: Global) -> Result<Answer, Memory>
    ensures status { IfOk result (λ answer. answer.status ≡ Status.Still) }
    ensures text { IfOk result (λ answer. answer.text ≡ codes "still\n") }
{
    Ok(Answer {
        status: Status::Still,
        text: Bytes::from_slice(alloc, b"still\n")?,
    })
}

// The answer where some node would have no element.
fn too_many_nodes(alloc: Global, nodes: u16, elements: u32) -> Result<Answer, Memory>
    ensures status { IfOk result (λ answer. answer.status ≡ Status.Usage) }
    ensures text { IfOk result (λ answer. answer.text ≡ nodes_line nodes elements) }
{
    Ok(Answer {
        status: Status::Usage,
        text: nodes_line(alloc, nodes, elements)?,
    })
}
