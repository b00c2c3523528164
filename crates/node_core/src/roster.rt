//! Where a node's elements are.

ghost use Rattle.std.specs.Prelude.{◌≡◌, ◌+◌, ◌<◌, ◌≤◌, ◌==◌, ◌&&◌, ◌++◌, ◌∷◌, [], nat_lt, if◌then◌else◌, length, replicate, slice_index_or, slice_set, None, Some, IfOk, IfSome, OnOk};
ghost use Rattle.chare_base.specs.Elements.{elements, place_of};
ghost use Rattle.chare_base.specs.Placing.{members};
ghost use Rattle.node_core.specs.Rosters.{FewNodes, count_of, counts_to, node_count, nodes_with, number_in, rank_of, ranks_after, roster_of, seat_of, seats_from, sharers_of, sharers_to, shares, with_ranked};

use chare_base::memory::Memory;
use chare_base::placement::Placement;
use chare_base::plan::{ElementId, Plan};
use sqlite_items::Items;
use std::alloc::Global;
use std::marker::Model;

/// Which elements live on a node, fixed at its start, so that no event looks for one among all elements.
#[derive(Drop)]
pub(crate) struct Seats {
    iterations: u64,
    seats: Vec<Option<u32>>,
    ranks: Vec<u32>,
    counts: Vec<u32>,
    sharers: Vec<Items<u16>>,
}

impl Model for Seats {
    ghost use Rattle.node_core.specs.Rosters.{FewNodes, Roster};

    ghost Value = { Roster };

    ghost view = { λ s. record { iterations = s.iterations; seats = s.seats.items; ranks = s.ranks.items; counts = s.counts.items; sharers = s.sharers.items } };

    ghost invariant = { λ s. FewNodes s.sharers.items };
}

impl Seats {
    // The roster of a node.
    #[tactic(auto, unfolding(crate::specs::Rosters::roster_of))]
    pub(crate) fn start<M: Placement>(
        alloc: Global,
        plan: &Plan,
        map: &M,
        node: u16,
    ) -> Result<Seats, Memory>
        requires { length (M.place map.now) ≡ elements plan.now }
        ensures { IfOk result (λ s. s ≡ roster_of plan.now (M.place map.now) node) }
    {
        let seats = seat_all(alloc, plan, map, node)?;
        let mut ranks = Vec::new(alloc);
        let mut counts = Vec::new(alloc);
        counts.resize(plan.arrays.len(), 0)?;
        rank_all(plan, map, node, &mut ranks, &mut counts)?;
        let sharers = all_sharers(alloc, plan, map, node)?;
        Ok(Seats {
            iterations: plan.iterations(),
            seats,
            ranks,
            counts,
            sharers,
        })
    }

    // How often each element runs its steps.
    pub(crate) fn iterations(&self) -> u64
        ensures { result ≡ self.now.iterations }
    {
        self.iterations
    }

    // The number of an element's object, where it lives here.
    pub(crate) fn seat(&self, e: ElementId) -> Option<u32>
        ensures { result ≡ seat_of self.now e.0 }
    {
        seat_at(self.seats.as_slice(), e.0)
    }

    // The number of an object's element among those of its array.
    pub(crate) fn rank(&self, i: u32) -> u32
        ensures { result ≡ rank_of self.now i }
    {
        number_at(self.ranks.as_slice(), i)
    }

    // How many elements of an array live here.
    pub(crate) fn count(&self, array: u16) -> u32
        ensures { result ≡ count_of self.now array }
    {
        number_at(self.counts.as_slice(), u32::from(array))
    }

    // The nodes on which elements of an array live.
    pub(crate) fn sharers(&self, array: u16) -> &[u16]
        ensures exact { result.now ≡ sharers_of self.now array }
        ensures few { length result.now ≤ 65535 }
    {
        sharers_at(self.sharers.as_slice(), array)
    }
}

fn seat_at(seats: &[Option<u32>], e: u32) -> Option<u32>
    ensures { result ≡ slice_index_or seats.now e None }
{
    seats.get(e as usize).copied().unwrap_or(None)
}

fn number_at(numbers: &[u32], i: u32) -> u32
    ensures { result ≡ slice_index_or numbers.now i 0 }
{
    numbers.get(i as usize).copied().unwrap_or(0)
}

#[tactic(auto, using(crate::proofs::Seats::few_at))]
fn sharers_at(all: &[Items<u16>], array: u16) -> &[u16]
    requires { FewNodes all.now }
    ensures exact { result.now ≡ slice_index_or all.now array [] }
    ensures few { length result.now ≤ 65535 }
{
    if (array as usize) < all.len() {
        all[array as usize].as_slice()
    } else {
        &[]
    }
}

/// The place of a node in a list.
pub(crate) fn number_in(nodes: &[u16], node: u16) -> Option<u32>
    requires { length nodes.now ≤ 65535 }
    ensures { result ≡ number_in 0 nodes.now node }
{
    for i in 0..nodes.len() {
        if nodes[i] == node {
            return Some(i as u32);
        }
    }
    None
}

// ---- the start

fn seat_all<M: Placement>(
    alloc: Global,
    plan: &Plan,
    map: &M,
    node: u16,
) -> Result<Vec<Option<u32>>, Memory>
    requires { length (M.place map.now) ≡ elements plan.now }
    ensures { IfOk result (λ seats. seats.items ≡ seats_from 0 (M.place map.now) node) }
{
    let mut seats = Vec::new(alloc);
    let mut next = 0u32;
    for e in 0..plan.elements() {
        let here = map.node_of(ElementId(e)) == node;
        seats.push(seat_if(here, next))?;
        next = after(here, next);
    }
    Ok(seats)
}

fn seat_if(here: bool, next: u32) -> Option<u32>
    ensures { result ≡ (if here then Some next else None) }
{
    if here { Some(next) } else { None }
}

fn after(here: bool, next: u32) -> u32
    requires { next < 4294967295 }
    ensures { result ≡ (if here then next + 1 else next) }
{
    if here { next + 1 } else { next }
}

fn rank_all<M: Placement>(
    plan: &Plan,
    map: &M,
    node: u16,
    ranks: &mut Vec<u32>,
    counts: &mut Vec<u32>,
) -> Result<(), Memory>
    requires place { length (M.place map.now) ≡ elements plan.now }
    requires none { ranks.old.items ≡ [] }
    requires zero { counts.old.items ≡ replicate (length plan.now.arrays) 0 }
    ensures ranks { OnOk result
        (ranks.new.items ≡ ranks_after plan.now [] (members (M.place map.now) node)) }
    ensures counts { OnOk result
        (counts.new.items ≡ counts_to plan.now (members (M.place map.now) node)
        (length plan.now.arrays)) }
{
    for e in 0..plan.elements() {
        let here = map.node_of(ElementId(e)) == node;
        rank_if(plan, ElementId(e), here, ranks, counts)?;
    }
    Ok(())
}

#[tactic(auto, using(chare_base::proofs::Facts::place_in_range))]
fn rank_if(
    plan: &Plan,
    e: ElementId,
    here: bool,
    ranks: &mut Vec<u32>,
    counts: &mut Vec<u32>,
) -> Result<(), Memory>
    requires element { e.0 < elements plan.now }
    requires counts { length counts.old.items ≡ length plan.now.arrays }
    requires few { slice_index_or counts.old.items (place_of plan.now e.0).array 0 ≤ e.0 }
    ensures ranks { OnOk result
        (ranks.new.items ≡ (with_ranked plan.now e.0 here ranks.old.items counts.old.items).0) }
    ensures counts { OnOk result
        (counts.new.items ≡ (with_ranked plan.now e.0 here ranks.old.items counts.old.items).1) }
{
    if here {
        let array = plan.place(e).array;
        let rank = number_at(counts.as_slice(), u32::from(array));
        ranks.push(rank)?;
        set_at(counts, array, rank + 1);
    }
    Ok(())
}

fn set_at(counts: &mut [u32], array: u16, count: u32)
    requires { array < length counts.old }
    ensures { counts.new ≡ slice_set counts.old array count }
{
    counts[array as usize] = count;
}

// For each array the nodes on which elements of it live; node 0 alone has this list.
fn all_sharers<M: Placement>(
    alloc: Global,
    plan: &Plan,
    map: &M,
    node: u16,
) -> Result<Vec<Items<u16>>, Memory>
    requires { length (M.place map.now) ≡ elements plan.now }
    ensures exact { IfOk result
        (λ all. all.items ≡ (if node == 0
        then sharers_to plan.now (M.place map.now) (node_count (M.place map.now))
        (length plan.now.arrays)
        else [])) }
    ensures few { IfOk result (λ all. FewNodes all.items) }
{
    if node == 0 {
        sharers(alloc, plan, map)
    } else {
        Ok(Vec::new(alloc))
    }
}

#[tactic(auto, using(crate::proofs::Seats::few_more, crate::proofs::Seats::count_covered, chare_base::proofs::Facts::arrays_few))]
fn sharers<M: Placement>(alloc: Global, plan: &Plan, map: &M) -> Result<Vec<Items<u16>>, Memory>
    requires { length (M.place map.now) ≡ elements plan.now }
    ensures exact { IfOk result
        (λ all. all.items ≡ sharers_to plan.now (M.place map.now) (node_count (M.place map.now))
        (length plan.now.arrays)) }
    ensures few { IfOk result (λ all. FewNodes all.items) }
{
    let nodes = map.nodes();
    let mut all = Vec::new(alloc);
    for array in 0..plan.arrays.len() {
        all.push(array_sharers(alloc, plan, map, array as u16, nodes)?)?;
    }
    Ok(all)
}

fn array_sharers<M: Placement>(
    alloc: Global,
    plan: &Plan,
    map: &M,
    array: u16,
    nodes: u16,
) -> Result<Items<u16>, Memory>
    requires { length (M.place map.now) ≡ elements plan.now }
    ensures exact { IfOk result (λ all. all ≡ nodes_with plan.now (M.place map.now) array nodes) }
    ensures few { IfOk result (λ all. length all ≤ 65535) }
{
    let mut all = Vec::new(alloc);
    for node in 0..nodes {
        push_if(shares(plan, map, array, node), node, &mut all)?;
    }
    Ok(Items::from_vec(all))
}

fn push_if(shares: bool, node: u16, all: &mut Vec<u16>) -> Result<(), Memory>
    ensures { OnOk result (all.new.items ≡ all.old.items ++ (if shares then node ∷ [] else [])) }
{
    if shares {
        all.push(node)?;
    }
    Ok(())
}

// Whether elements of an array live on a node.
fn shares<M: Placement>(plan: &Plan, map: &M, array: u16, node: u16) -> bool
    requires { length (M.place map.now) ≡ elements plan.now }
    ensures { result ≡ shares plan.now (M.place map.now) array node }
{
    for e in 0..plan.elements() {
        let here = map.node_of(ElementId(e)) == node;
        let own = plan.place(ElementId(e)).array == array;
        if both(here, own) {
            return true;
        }
    }
    false
}

fn both(a: bool, b: bool) -> bool
    ensures { result ≡ (a && b) }
{
    a && b
}
