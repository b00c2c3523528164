//! The plan of a tree, or the first rule that it breaks.

ghost use Rattle.std.specs.Prelude.{◌≡◌, IfOk, IsTrue};
ghost use Rattle.chare_base.specs.Elements.{fields_of};
ghost use Rattle.job_rules.specs.Checked.{Checks, classes_found, rules_of};
ghost use Rattle.chare_checker.specs.Gathered.{fields_in};

use crate::answers::answers_fault;
use crate::bounds::bounds_fault;
use crate::declarations::declarations_fault;
use crate::limits::limits_fault;
use crate::planning::{PlannedJob, plan_job};
use crate::ports::ports_fault;
use crate::steps::walk_job;
use crate::tables::names_of;
use chare_base::memory::Memory;
use chare_base::plan::Plan;
use job_rules::fault::CheckFault;
use job_rules::laws::unbroken_is_sealed;
use job_rules::notes::Notes;
use job_rules::tables::JobNames;
use job_tree::tree::{Ast, Job};
use std::alloc::Global;

/// The plan of a tree that breaks no rule, or the first rule that it breaks: of the first class that has one, at
/// its least place.
///
/// The plan of a tree that breaks no rule keeps the rules of its type, so a tree is refused for a broken rule alone.
///
/// `Memory`: an allocation was refused.
pub fn check(alloc: Global, ast: &Ast) -> Result<Plan, CheckFault>
    ensures { Checks ast.now.text ast.now.job result }
{
    // So the plan of a tree that breaks no rule is sealed.
    unbroken_is_sealed();
    let text = ast.text.as_slice();
    let names = names_of(alloc, text, &ast.job)?;
    match classes_fault(alloc, text, &names, &ast.job)? {
        Some(fault) => Err(fault),
        None => Ok(sealed(plan_job(alloc, text, &names, &ast.job)?)),
    }
}

// The plan of these fields, which keep the rules of its type.
fn sealed(planned: PlannedJob) -> Plan
    requires { IsTrue (rules_of (fields_in planned)) }
    ensures { fields_of result ≡ fields_in planned }
{
    Plan::sealed(
        planned.name,
        planned.iterations,
        planned.arrays,
        planned.entries,
        planned.reductions,
        planned.answers,
    )
    .unwrap()
}

// Of all rules that a tree breaks, the one that is named.
#[tactic(auto, unfolding(job_rules::specs::Checked::classes_found))]
fn classes_fault(
    alloc: Global,
    text: &[u8],
    names: &JobNames,
    job: &Job,
) -> Result<Option<CheckFault>, Memory>
    ensures { IfOk result (λ found. found ≡ classes_found text.now names.now job.now) }
{
    let mut notes = Notes::new(alloc);
    walk_job(alloc, text, names, job, &mut notes)?;
    let found = declarations_fault(text, names, job, notes.found);
    let found = ports_fault(job, &notes, found);
    let found = answers_fault(text, names, job, found);
    let found = bounds_fault(job, found);
    Ok(limits_fault(job, found))
}
