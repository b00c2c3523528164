//! Contributions to reductions, as a node gathers them.

ghost use Rattle.std.specs.Prelude.{◌≡◌, ◌≤◌, ◌<◌, length, IfSome, IfOk};
ghost use Rattle.std.specs.List.{filter};
ghost use Rattle.node_core.specs.Nodes.{is_from};
ghost use Rattle.node_core.specs.Gatherings.{gathering, gathering_at, given_to, is_of, settled_in, tallied};
ghost use Rattle.object_steps.specs.Partial.{whole};

use chare_base::memory::Memory;
use chare_base::message::ReductionId;
use chare_base::plan::How;
use object_steps::partial::Partial;
use std::alloc::Global;
use std::marker::Model;

/// What the members of a reduction contributed in an iteration so far.
#[derive(Drop)]
pub(crate) struct Tally {
    reduction: ReductionId,
    iteration: u64,
    members: u32,
    partial: Partial,
}

impl Model for Tally {
    ghost use Rattle.std.specs.Prelude.{◌≡◌, length};
    ghost use Rattle.node_core.specs.Gatherings.{Gathering};

    ghost Value = { Gathering };

    ghost view = { λ t. record { reduction = t.reduction; iteration = t.iteration; gathered = t.partial } };

    ghost invariant = { λ t. t.members ≡ length t.partial.given };
}

impl Tally {
    fn start(
        alloc: Global,
        how: How,
        members: u32,
        reduction: ReductionId,
        iteration: u64,
    ) -> Result<Tally, Memory>
        requires { 1 ≤ members }
        ensures { IfOk result (λ t. t ≡ gathering how members reduction iteration) }
    {
        let partial = Partial::start(alloc, how, members)?;
        Ok(Tally {
            reduction,
            iteration,
            members,
            partial,
        })
    }

    // Takes a member's contribution. A second one of a member changes nothing.
    fn give(&mut self, rank: u32, value: i64)
        ensures { self.new ≡ given_to rank value self.old }
    {
        if rank < self.members {
            let _ = self.partial.add(rank, value);
        }
    }

    // What all members contributed makes this, once none is missing.
    fn whole(&self) -> Option<i64>
        ensures { result ≡ whole self.now.gathered }
    {
        self.partial.whole()
    }

    fn is_from(&self, k: u64) -> bool
        ensures { result ≡ is_from k self.now }
    {
        k <= self.iteration
    }

    fn is_of(&self, reduction: ReductionId, iteration: u64) -> bool
        ensures { result ≡ is_of reduction iteration self.now }
    {
        self.reduction.0 == reduction.0 && self.iteration == iteration
    }
}

// Takes the contribution of one of `members` members. Where it is the last, what all contributed is gathered no longer,
// and what they make is the answer.
#[tactic(auto, using(crate::proofs::Counting::counted_by_place), unfolding(crate::specs::Gatherings::tallied))]
pub(crate) fn count_in(
    alloc: Global,
    how: How,
    members: u32,
    rank: u32,
    reduction: ReductionId,
    iteration: u64,
    value: i64,
    all: &mut Vec<Tally>,
) -> Result<Option<i64>, Memory>
    ensures { IfOk result (λ total. record { gatherings = all.new.items; total = total }
        ≡ tallied how members rank reduction iteration value all.old.items) }
{
    if rank >= members {
        return Ok(None);
    }
    match find(all.as_slice(), reduction, iteration) {
        Some(at) => Ok(settle(all, at, rank, value)),
        None => {
            let at = all.len();
            all.push(Tally::start(alloc, how, members, reduction, iteration)?)?;
            Ok(settle(all, at, rank, value))
        }
    }
}

// The place of what is gathered of a reduction in an iteration.
fn find(all: &[Tally], reduction: ReductionId, iteration: u64) -> Option<usize>
    ensures exact { result ≡ gathering_at reduction iteration 0 all.now }
    ensures there { IfSome result (λ i. i < length all.now) }
{
    for i in 0..all.len() {
        if all[i].is_of(reduction, iteration) {
            return Some(i);
        }
    }
    None
}

fn settle(all: &mut Vec<Tally>, at: usize, rank: u32, value: i64) -> Option<i64>
    requires { at < length all.old.items }
    ensures { record { gatherings = all.new.items; total = result }
        ≡ settled_in at rank value all.old.items }
{
    all[at].give(rank, value);
    let total = all[at].whole();
    if total.is_some() {
        all.remove(at);
    }
    total
}

// What is gathered of iterations before this one is over.
pub(crate) fn drop_before(k: u64, all: &mut Vec<Tally>)
    ensures { all.new.items ≡ filter (is_from k) all.old.items }
{
    all.retain(|tally| tally.is_from(k));
}
