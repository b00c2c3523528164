//! What steps cost.

ghost use Rattle.std.specs.Prelude.{◌≡◌, ◌-ℤ◌, map};
ghost use Rattle.std.specs.List.{list_all};
ghost use Rattle.chare_base.specs.Costs.{costs_hold, array_costs, numbers_below, parts_cost, step_cost, stmt_cost, sum_from};

use crate::limits;
use crate::plan::{Array, Part, Step, Stmt};

#[tactic(auto, unfolding(crate::specs::Costs::costs_hold))]
pub(crate) fn costs_hold(arrays: &[Array]) -> bool
    ensures { result ≡ costs_hold arrays.now }
{
    arrays.iter().all(array_costs)
}

fn array_costs(array: &Array) -> bool
    ensures { result ≡ array_costs array.now }
{
    array
        .steps
        .as_slice()
        .iter()
        .all(|step| step_cost(step) <= limits::COST)
}

fn step_cost(step: &Step) -> u64
    ensures { result ≡ step_cost step.now }
{
    parts_cost(step.parts.as_slice())
}

fn parts_cost(parts: &[Part]) -> u64
    ensures { result ≡ parts_cost 0 parts.now }
{
    let mut total = 0;
    for part in parts {
        total = block_cost(total, part.block.as_slice());
    }
    total
}

// What a block costs, beside a total.
#[cycle(cost)]
fn block_cost(total: u64, block: &[Stmt]) -> u64
    ensures { result ≡ sum_from total (map stmt_cost block.now) }
{
    let mut cost = total;
    for stmt in block {
        cost = cost.saturating_add(stmt_cost(stmt));
    }
    cost
}

#[cycle(cost)]
fn stmt_cost(stmt: &Stmt) -> u64
    ensures { result ≡ stmt_cost stmt.now }
{
    match stmt {
        Stmt::Set { .. } | Stmt::SetAt { .. } | Stmt::Send { .. } | Stmt::Contribute { .. } => 1,
        Stmt::If { yes, no, .. } => {
            let cost = block_cost(1, yes.as_slice());
            block_cost(cost, no.as_slice())
        }
        Stmt::For {
            low,
            high,
            block,
            ..
        } => {
            let turn = block_cost(1, block.as_slice());
            turns(*low, *high).saturating_mul(turn).saturating_add(1)
        }
    }
}

// How many turns a loop takes.
fn turns(low: i64, high: i64) -> u64
    ensures { result ≡ numbers_below (high -ℤ low) }
{
    if low < high { high.abs_diff(low) } else { 0 }
}
