//! Which move on the agreement is due to a slot.

ghost use Rattle.std.specs.Prelude.{◌≡◌, ◌==◌, ◌&&◌, false, nat_lt};
ghost use Rattle.node_core.specs.Nodes.{all_at, next_begin, rests};
ghost use Rattle.world_core.specs.Moves.{begin_due, begin_if, goes_to, is_below, is_resumed, limit_of, limit_seen, may_go_back, move_by, move_of, move_on, pack_due, release_due, report_due, same_round};
ghost use Rattle.world_core.specs.Worlds.{seats_of};

use crate::doing::{Since, SlotMove};
use crate::seats::SeatStates;
use chare_base::plan::Plan;
use iteration_agree::round::{Round, Standing};
use node_core::node::Node;

/// The first move that is due to a slot, in the agreement's round: it sees the round where it hasn't; it goes back where
/// it was ordered to; and unless it waits for Resume it is released, reports, packs, or lets its elements begin their
/// next iteration. None of a slot whose node is spent.
pub fn move_of(
    plan: &Plan,
    round: &Round,
    node: &Node,
    standing: &Standing,
    back: Option<u64>,
    since: Since,
    seats: &SeatStates,
) -> Option<SlotMove>
    requires seats { seats.now ≡ seats_of plan.now standing.now.top node.now }
    requires roster { node.now.roster.iterations ≡ plan.now.iterations }
    ensures { result ≡ move_of plan.now round.now node.now standing.now back since }
{
    if node.spent() {
        return None;
    }
    if !same_round(standing.seen, *round) {
        return Some(SlotMove::See);
    }
    move_by(plan, node, standing, back, since, seats)
}

// A slot that has to go back does that before anything else.
fn move_by(
    plan: &Plan,
    node: &Node,
    standing: &Standing,
    back: Option<u64>,
    since: Since,
    seats: &SeatStates,
) -> Option<SlotMove>
    requires seats { seats.now ≡ seats_of plan.now standing.now.top node.now }
    requires roster { node.now.roster.iterations ≡ plan.now.iterations }
    ensures { result ≡ move_by plan.now node.now standing.now back since }
{
    match back {
        Some(base) => {
            if may_go_back(base, standing) {
                Some(SlotMove::Rewind { base })
            } else {
                None
            }
        }
        None => {
            if node.rests() {
                None
            } else {
                move_on(plan, node, standing, since, seats)
            }
        }
    }
}

fn same_round(a: Round, b: Round) -> bool
    ensures { result ≡ same_round a b }
{
    match (a, b) {
        (Round::Quiet { round: a }, Round::Quiet { round: b }) => a == b,
        (Round::Gather { round: a, floor: f }, Round::Gather { round: b, floor: g }) => {
            a == b && f == g
        }
        (Round::Agreed { round: a, k: j }, Round::Agreed { round: b, k }) => a == b && j == k,
        _ => false,
    }
}

// To the base that it was ordered back to, where the agreement lets it.
fn may_go_back(base: u64, standing: &Standing) -> bool
    ensures { result ≡ may_go_back base standing.now }
{
    base <= 1_000_000 && (standing.cap.is_none() || goes_to(base, &standing.seen))
}

// A slot that reported goes back to the floor or the agreed iteration that it saw at most.
fn goes_to(base: u64, seen: &Round) -> bool
    ensures { result ≡ goes_to base seen.now }
{
    match seen {
        Round::Quiet { .. } => true,
        Round::Gather { floor, .. } => base <= *floor,
        Round::Agreed { k, .. } => base <= *k,
    }
}

// Those moves that a slot makes unless it waits for Resume.
fn move_on(
    plan: &Plan,
    node: &Node,
    standing: &Standing,
    since: Since,
    seats: &SeatStates,
) -> Option<SlotMove>
    requires alive { rests node.now ≡ false }
    requires seats { seats.now ≡ seats_of plan.now standing.now.top node.now }
    requires roster { node.now.roster.iterations ≡ plan.now.iterations }
    ensures { result ≡ move_on plan.now node.now standing.now since }
{
    if release_due(standing, since) {
        return Some(SlotMove::Release);
    }
    if report_due(standing, &standing.seen) {
        return Some(SlotMove::Report);
    }
    match pack_due(plan, node, standing, &standing.seen, seats) {
        Some(k) => Some(SlotMove::Pack { k }),
        None => begin_due(plan, node, standing, seats),
    }
}

fn release_due(standing: &Standing, since: Since) -> bool
    ensures { result ≡ release_due standing.now since }
{
    is_resumed(since) && !standing.free && standing.cap.is_none()
}

fn is_resumed(since: Since) -> bool
    ensures { result ≡ is_resumed since }
{
    match since {
        Since::Nothing => false,
        Since::Ordered => false,
        Since::Resumed => true,
    }
}

fn report_due(standing: &Standing, seen: &Round) -> bool
    ensures { result ≡ report_due standing.now seen.now }
{
    match seen {
        Round::Quiet { .. } => false,
        Round::Gather { .. } => standing.free && standing.cap.is_none(),
        Round::Agreed { .. } => false,
    }
}

// The agreed iteration, where all its elements have completed it and none has begun it.
fn pack_due(
    plan: &Plan,
    node: &Node,
    standing: &Standing,
    seen: &Round,
    seats: &SeatStates,
) -> Option<u64>
    requires alive { rests node.now ≡ false }
    requires seats { seats.now ≡ seats_of plan.now standing.now.top node.now }
    ensures { result ≡ pack_due plan.now node.now standing.now seen.now }
{
    match seen {
        Round::Quiet { .. } => None,
        Round::Gather { .. } => None,
        Round::Agreed { k, .. } => {
            if standing.top == *k
                && *k <= plan.iterations()
                && !standing.packed
                && all_level(plan, standing.top, node, seats)
            {
                Some(*k)
            } else {
                None
            }
        }
    }
}

// Whether all elements of a node are at the top: none is behind it, and none has begun it.
#[tactic(auto, using(crate::proofs::Counting::all_level))]
fn all_level(plan: &Plan, top: u64, node: &Node, seats: &SeatStates) -> bool
    requires alive { rests node.now ≡ false }
    requires seats { seats.now ≡ seats_of plan.now top node.now }
    ensures { result ≡ all_at top node.now }
{
    let _ = plan;
    let _ = top;
    let _ = node;
    seats.level() == seats.len()
}

// The next iteration of its elements, where that is its top and no limit holds it: none of them would begin one before it,
// and one would begin it.
#[tactic(auto, using(crate::proofs::Counting::begins_at_top))]
fn begin_due(plan: &Plan, node: &Node, standing: &Standing, seats: &SeatStates) -> Option<SlotMove>
    requires seats { seats.now ≡ seats_of plan.now standing.now.top node.now }
    requires roster { node.now.roster.iterations ≡ plan.now.iterations }
    ensures { result ≡ begin_due standing.now (next_begin node.now) }
{
    let _ = node;
    let next = begins_by(
        seats.behind(),
        seats.level(),
        standing.top,
        plan.iterations(),
    );
    begin_if(next, standing)
}

// Whether the top is the least of the `iterations` that an object would begin.
fn begins_by(behind: usize, level: usize, top: u64, iterations: u64) -> bool
    ensures { result ≡ (behind == 0 && nat_lt 0 level && nat_lt top iterations) }
{
    behind == 0 && level > 0 && top < iterations
}

fn begin_if(next: bool, standing: &Standing) -> Option<SlotMove>
    ensures { result ≡ begin_if next standing.now }
{
    let k = standing.top;
    if next && k < 1_000_000 && is_below(k, limit_of(standing)) {
        Some(SlotMove::Begin { k })
    } else {
        None
    }
}

fn is_below(k: u64, limit: Option<u64>) -> bool
    ensures { result ≡ is_below k limit }
{
    match limit {
        None => true,
        Some(limit) => k < limit,
    }
}

// The iteration from which on a slot begins nothing, if there is one.
fn limit_of(standing: &Standing) -> Option<u64>
    ensures { result ≡ limit_of standing.now }
{
    if !standing.free && standing.cap.is_none() {
        return Some(standing.top);
    }
    limit_seen(standing, &standing.seen)
}

fn limit_seen(standing: &Standing, seen: &Round) -> Option<u64>
    ensures { result ≡ limit_seen standing.now seen.now }
{
    match seen {
        Round::Quiet { .. } => None,
        Round::Gather { .. } => Some(standing.cap.unwrap_or(standing.top)),
        Round::Agreed { k, .. } => Some(*k),
    }
}
