//! What steps cost.

ghost use Rattle.std.specs.Prelude.{◌≡◌, ◌-ℤ◌};
ghost use Rattle.chare_base.specs.Costs.{numbers_below, sum_from};
ghost use Rattle.job_rules.specs.Costs.{block_costs, body_cost, parts_cost, step_cost, stmt_cost};

use crate::numbers::signed64;
use job_tree::tree::{Block, PartDecl, StepBody, StepDecl, StmtDecl};

/// What a step costs: 1 for each statement, in both blocks of an `if`; a loop's turn costs 1 and its block.
pub(crate) fn step_cost(step: &StepDecl) -> u64
    ensures { result ≡ step_cost step.now }
{
    body_cost(&step.body)
}

fn body_cost(body: &StepBody) -> u64
    ensures { result ≡ body_cost body.now }
{
    match body {
        StepBody::Block(block) => block_cost(0, block),
        StepBody::Part(part) => block_cost(0, &part.block),
        StepBody::Overlap { parts, .. } => parts_cost(parts.as_slice()),
    }
}

fn parts_cost(parts: &[PartDecl]) -> u64
    ensures { result ≡ parts_cost 0 parts.now }
{
    let mut total = 0;
    for part in parts {
        total = block_cost(total, &part.block);
    }
    total
}

// What a block costs, beside a total.
#[cycle(cost)]
fn block_cost(total: u64, block: &Block) -> u64
    ensures { result ≡ sum_from total (block_costs block.now) }
{
    let mut cost = total;
    for stmt in block.statements.as_slice() {
        cost = cost.saturating_add(stmt_cost(stmt));
    }
    cost
}

#[cycle(cost)]
fn stmt_cost(stmt: &StmtDecl) -> u64
    ensures { result ≡ stmt_cost stmt.now }
{
    match stmt {
        StmtDecl::Assign { .. } | StmtDecl::Send { .. } | StmtDecl::Contribute { .. } => 1,
        StmtDecl::If { yes, no, .. } => {
            let cost = block_cost(1, yes);
            match no {
                Some(no) => block_cost(cost, no),
                None => cost,
            }
        }
        StmtDecl::For {
            low,
            high,
            block,
            ..
        } => {
            let turn = block_cost(1, block);
            turns(signed64(*low), signed64(*high))
                .saturating_mul(turn)
                .saturating_add(1)
        }
    }
}

// How many turns a loop takes.
fn turns(low: i64, high: i64) -> u64
    ensures { result ≡ numbers_below (high -ℤ low) }
{
    if low < high { high.abs_diff(low) } else { 0 }
}
