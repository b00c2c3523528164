//! The plan of a step.

ghost use Rattle.std.specs.Prelude.{◌≡◌, ◌∷◌, [], IfOk, map};
ghost use Rattle.job_rules.specs.PlannedSteps.{body_planned, free_part, part_planned, step_planned};

use crate::planning::lookups::port_meant;
use crate::planning::statements::plan_block;
use crate::walk::Scope;
use chare_base::memory::Memory;
use chare_base::message::Need;
use chare_base::plan::{Part, Step};
use job_rules::names::{Names, bytes_at, names_listed};
use job_rules::tables::JobNames;
use job_tree::token::Span;
use job_tree::tree::{Block, PartDecl, StepBody, StepDecl};
use sqlite_items::Items;
use std::alloc::Global;

/// The plans of an array's steps, whose names are those of the job and of the array's table.
pub(crate) fn plan_steps(
    alloc: Global,
    text: &[u8],
    names: &JobNames,
    table: &Names,
    steps: &[StepDecl],
) -> Result<Items<Step>, Memory>
    ensures { IfOk result (λ planned. planned
        ≡ map (step_planned text.now names.now table.now) steps.now) }
{
    let mut planned = Items::new(alloc);
    for step in steps {
        let parts = plan_body(alloc, text, names, table, &step.body)?;
        planned.push(Step { parts })?;
    }
    Ok(planned)
}

fn plan_body(
    alloc: Global,
    text: &[u8],
    names: &JobNames,
    table: &Names,
    body: &StepBody,
) -> Result<Items<Part>, Memory>
    ensures { IfOk result (λ planned. planned
        ≡ body_planned text.now names.now table.now body.now) }
{
    match body {
        StepBody::Block(block) => {
            let part = plan_free_part(alloc, text, names, table, block)?;
            let parts = one_part(alloc, part)?;
            Ok(parts)
        }
        StepBody::Part(part) => {
            let part = plan_part(alloc, text, names, table, part)?;
            let parts = one_part(alloc, part)?;
            Ok(parts)
        }
        StepBody::Overlap { parts, .. } => {
            plan_parts(alloc, text, names, table, parts.as_slice())
        }
    }
}

fn one_part(alloc: Global, part: Part) -> Result<Items<Part>, Memory>
    ensures { IfOk result (λ parts. parts ≡ part ∷ []) }
{
    let mut parts = Items::new(alloc);
    parts.push(part)?;
    Ok(parts)
}

fn plan_parts(
    alloc: Global,
    text: &[u8],
    names: &JobNames,
    table: &Names,
    parts: &[PartDecl],
) -> Result<Items<Part>, Memory>
    ensures { IfOk result (λ planned. planned
        ≡ map (part_planned text.now names.now table.now) parts.now) }
{
    let mut planned = Items::new(alloc);
    for part in parts {
        planned.push(plan_part(alloc, text, names, table, part)?)?;
    }
    Ok(planned)
}

// The plan of a block that waits for nothing.
fn plan_free_part(
    alloc: Global,
    text: &[u8],
    names: &JobNames,
    table: &Names,
    block: &Block,
) -> Result<Part, Memory>
    ensures { IfOk result (λ part. part ≡ free_part text.now names.now table.now block.now) }
{
    let scope = Scope {
        text,
        names,
        table,
        params: &[],
    };
    let mut loops = Vec::new(alloc);
    let block = plan_block(alloc, &scope, &mut loops, block)?;
    Ok(Part {
        need: Need::Nothing,
        block,
    })
}

// The plan of a block that waits for a message or a total.
fn plan_part(
    alloc: Global,
    text: &[u8],
    names: &JobNames,
    table: &Names,
    part: &PartDecl,
) -> Result<Part, Memory>
    ensures { IfOk result (λ planned. planned
        ≡ part_planned text.now names.now table.now part.now) }
{
    let port = port_meant(table.get(bytes_at(text, part.port)));
    let params = names_listed(alloc, &part.names)?;
    let scope = Scope {
        text,
        names,
        table,
        params: params.as_slice(),
    };
    let mut loops = Vec::new(alloc);
    let block = plan_block(alloc, &scope, &mut loops, &part.block)?;
    Ok(Part {
        need: Need::Port(port),
        block,
    })
}
