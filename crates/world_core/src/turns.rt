//! How many turns a schedule has.

ghost use Rattle.std.specs.Prelude.{◌≡◌, ◌≤◌, ◌<◌, ◌+◌, ◌*◌, ◌^◌, ℕ, length};
ghost use Rattle.chare_base.specs.Elements.{elements, steps_of};
ghost use Rattle.world_core.specs.Bounds.{capped, entries_of, parts_below, reductions_of, turns_bound, width_below, width_of};

use chare_base::plan::{ElementId, Entry, Plan, Reduction};

/// The number of turns of a schedule, for a script of `lines` fault lines and `nodes` nodes of each replica; where it
/// is greater than 64 bits hold, the greatest number that they do.
#[tactic(auto, unfolding(crate::specs::Bounds::turns_bound))]
pub fn turns(plan: &Plan, lines: usize, nodes: u16) -> u64
    requires { lines ≤ 64 }
    ensures { result ≡ capped (turns_bound plan.now lines nodes) }
{
    let slots = 2 * u64::from(nodes);
    let reductions = plan.reductions.as_slice().len() as u64;
    let factor = (lines as u64 + 1) * 32 * (plan.iterations() + 130);
    let width = joined(
        joined(widths(plan), times(slots, reductions)),
        slots * slots,
    );
    times(factor, width)
}

fn times(a: u64, b: u64) -> u64
    ensures { result ≡ capped (a * b) }
{
    a.saturating_mul(b)
}

fn joined(a: u64, b: u64) -> u64
    ensures { result ≡ capped (a + b) }
{
    a.saturating_add(b)
}

// The widths of all elements.
fn widths(plan: &Plan) -> u64
    ensures { result ≡ capped (width_below plan.now (elements plan.now)) }
{
    let mut sum = 0;
    for e in 0..plan.elements() {
        sum = joined(sum, width(plan, ElementId(e)));
    }
    sum
}

#[tactic(auto, unfolding(crate::specs::Bounds::width_of))]
fn width(plan: &Plan, e: ElementId) -> u64
    requires { e.0 < elements plan.now }
    ensures { result ≡ capped (width_of plan.now e.0) }
{
    let array = plan.place(e).array;
    let entries = entries_of(array, plan.entries.as_slice());
    let reductions = reductions_of(array, plan.reductions.as_slice());
    joined(parts(plan, e), joined(entries, reductions))
}

fn parts(plan: &Plan, e: ElementId) -> u64
    requires { e.0 < elements plan.now }
    ensures { result ≡ parts_below plan.now e.0 (length (steps_of plan.now e.0)) }
{
    let mut sum = 0;
    for step in 0..plan.steps_of(e) {
        sum += u64::from(plan.parts(e, step));
    }
    sum
}

fn entries_of(array: u16, entries: &[Entry]) -> u64
    ensures { result ≡ entries_of array entries.now }
{
    let mut count = 0;
    for entry in entries {
        if entry.owner == array {
            count += 1;
        }
    }
    count
}

fn reductions_of(array: u16, reductions: &[Reduction]) -> u64
    ensures { result ≡ reductions_of array reductions.now }
{
    let mut count = 0;
    for reduction in reductions {
        if reduction.owner == array {
            count += 1;
        }
    }
    count
}
