//! The plan of a job's tree. It is total: a tree that breaks a rule has one too, which may break none, and no number
//! wraps.

ghost use Rattle.std.specs.Prelude.{◌≡◌, IfOk};
ghost use Rattle.job_rules.specs.Planned.{planned};
ghost use Rattle.chare_checker.specs.Gathered.{fields_in};

use crate::planning::answers::plan_answers;
use crate::planning::arrays::plan_arrays;
use crate::planning::members::{plan_entries, plan_reductions};
use chare_base::bytes::Name;
use chare_base::memory::Memory;
use chare_base::plan::{Answer, Array, Entry, Reduction};
use job_rules::names::bytes_at;
use job_rules::tables::JobNames;
use job_tree::tree::Job;
use sqlite_items::Items;
use std::alloc::Global;

mod answers;
mod arrays;
mod expressions;
mod lookups;
mod members;
mod statements;
mod steps;

/// The fields of a plan, before it is known that they keep the rules.
#[derive(Drop)]
pub struct PlannedJob {
    pub name: Name,
    pub iterations: u64,
    pub arrays: Items<Array>,
    pub entries: Items<Entry>,
    pub reductions: Items<Reduction>,
    pub answers: Items<Answer>,
}

/// The plan of a job, whose names are these.
///
/// `Memory`: an allocation was refused.
#[tactic(auto, unfolding(job_rules::specs::Planned::planned))]
pub(crate) fn plan_job(
    alloc: Global,
    text: &[u8],
    names: &JobNames,
    job: &Job,
) -> Result<PlannedJob, Memory>
    ensures { IfOk result (λ p. fields_in p ≡ planned text.now names.now job.now) }
{
    let declared = job.arrays.as_slice();
    let name = Name::from_slice(alloc, bytes_at(text, job.name))?;
    let arrays = plan_arrays(alloc, text, names, declared)?;
    let entries = plan_entries(alloc, text, &names.arrays, declared)?;
    let reductions = plan_reductions(alloc, text, declared)?;
    let answers = plan_answers(
        alloc,
        text,
        names,
        arrays.as_slice(),
        job.answers.as_slice(),
    )?;
    Ok(PlannedJob {
        name,
        iterations: job.iterations.value,
        arrays,
        entries,
        reductions,
        answers,
    })
}
