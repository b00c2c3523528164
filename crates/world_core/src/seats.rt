//! How the objects of a slot's node stand, kept from event to event: an event touches one object or few, and looking at
//! all of them each time would make a run quadratic in the elements of a node.

ghost use Rattle.std.specs.Prelude.{◌≡◌, ◌≤◌, ◌<◌, ◌+◌, ◌^◌, ◌==◌, ◌&&◌, [], ◌∷◌, ◌++◌, IfSome, OnOk, None, Some, if◌then◌else◌, length, min, nat_lt, slice_get, slice_set, take};
ghost use Rattle.node_core.specs.Keeps.{Fitted};
ghost use Rattle.node_core.specs.Rosters.{seat_of};
ghost use Rattle.world_core.specs.Steps.{count, first_able, is_able, is_awaiting, is_behind, is_level, marked, marked_by, reach_of, readiness_at, woken};
ghost use Rattle.world_core.specs.Worlds.{seats_of};

use crate::doing::{Reach, Readiness};
use chare_base::memory::Memory;
use chare_base::message::EntryId;
use chare_base::plan::{ElementId, Plan};
use letter_post::letter::Letter;
use letter_post::stamp::Stamp;
use node_core::node::Node;
use std::alloc::Global;
use std::marker::Model;

/// Of each seat how its object stands, which contracts see as a list. How many are behind and how many are level is
/// counted, and the first that can run is found without looking at those before it that are known not to.
#[derive(Drop)]
pub struct SeatStates {
    states: Vec<Readiness>,
    // No seat before this one can run.
    from: usize,
    behind: usize,
    level: usize,
    ghost clear: { first_able 0 (take from states.items) ≡ None },
    ghost within: { from ≤ length states.items },
    ghost counts_behind: { behind ≡ count is_behind states.items },
    ghost counts_level: { level ≡ count is_level states.items },
}

impl Model for SeatStates {
    ghost use Rattle.std.specs.Prelude.{List};
    ghost use Rattle.world_core.specs.declared.doing.Readiness.{Readiness};

    ghost Value = { List Readiness };

    ghost view = { λ s. s.states.items };
}

impl SeatStates {
    /// Of no seat.
    pub fn new(alloc: Global) -> SeatStates
        ensures { result ≡ [] }
    {
        SeatStates {
            states: Vec::new(alloc),
            from: 0,
            behind: 0,
            level: 0,
        }
    }

    /// Forgets all.
    pub fn clear(&mut self)
        ensures { self.new ≡ [] }
    {
        self.from = 0;
        self.behind = 0;
        self.level = 0;
        self.states.clear();
    }

    /// One seat more.
    ///
    /// `Memory`: an allocation was refused.
    #[tactic(auto, using(crate::proofs::Counting::count_push, crate::proofs::Counting::count_few))]
    pub fn push(&mut self, state: Readiness) -> Result<(), Memory>
        ensures { OnOk result (self.new ≡ self.old ++ state ∷ []) }
    {
        self.states.push(state)?;
        self.from = 0;
        self.behind += one_if(is_behind(state));
        self.level += one_if(is_level(state));
        Ok(())
    }

    /// Replaces a seat's state; a seat that isn't there changes nothing.
    #[tactic(auto, using(crate::proofs::Counting::count_set, crate::proofs::Counting::count_one, crate::proofs::Counting::count_few, crate::proofs::Prefixes::set_nowhere))]
    pub fn set(&mut self, seat: usize, state: Readiness)
        ensures { self.new ≡ slice_set self.old seat state }
    {
        if seat < self.states.len() {
            let old = self.states[seat];
            self.behind = recounted(self.behind, is_behind(old), is_behind(state));
            self.level = recounted(self.level, is_level(old), is_level(state));
            self.from = searched_from(self.from, seat, is_able(state));
            self.states[seat] = state;
        }
    }

    /// The first seat that can run. The list stays.
    pub fn first_able(&mut self) -> Option<usize>
        ensures found { result ≡ first_able 0 self.old }
        ensures stays { self.new ≡ self.old }
    {
        match next_able(self.from, self.states.as_slice()) {
            Some(seat) => {
                self.from = seat;
                Some(seat)
            }
            None => None,
        }
    }

    /// Whether the object of a seat waits for a message.
    pub fn is_awaiting(&self, seat: usize) -> bool
        ensures { result ≡ is_awaiting (slice_get self.now seat) }
    {
        is_awaiting(self.states.get(seat).copied())
    }

    /// How many seats there are.
    pub fn len(&self) -> usize
        ensures { result ≡ length self.now }
    {
        self.states.len()
    }

    /// How many are behind.
    pub fn behind(&self) -> usize
        ensures { result ≡ count is_behind self.now }
    {
        self.behind
    }

    /// How many are level.
    pub fn level(&self) -> usize
        ensures { result ≡ count is_level self.now }
    {
        self.level
    }
}

fn one_if(test: bool) -> usize
    ensures { result ≡ (if test then 1 else 0) }
{
    if test { 1 } else { 0 }
}

// A count after one of the states that were looked at is replaced.
fn recounted(count: usize, before: bool, after: bool) -> usize
    requires counted { (if before then 1 else 0) ≤ count }
    requires few { count < 2 ^ 63 }
    ensures { result + (if before then 1 else 0) ≡ count + (if after then 1 else 0) }
{
    count - one_if(before) + one_if(after)
}

// Where the search begins after a seat's state is replaced: only one that can run leads it back.
fn searched_from(from: usize, seat: usize, able: bool) -> usize
    ensures { result ≡ (if able then min from seat else from) }
{
    if able { from.min(seat) } else { from }
}

fn is_able(state: Readiness) -> bool
    ensures { result ≡ is_able state }
{
    match state {
        Readiness::Behind => true,
        Readiness::Ready => true,
        Readiness::Awaits => false,
        Readiness::Level => false,
        Readiness::Past => false,
    }
}

fn is_awaiting(state: Option<Readiness>) -> bool
    ensures { result ≡ is_awaiting state }
{
    match state {
        Some(Readiness::Awaits) => true,
        _ => false,
    }
}

fn is_behind(state: Readiness) -> bool
    ensures { result ≡ is_behind state }
{
    match state {
        Readiness::Behind => true,
        Readiness::Ready => false,
        Readiness::Awaits => false,
        Readiness::Level => false,
        Readiness::Past => false,
    }
}

fn is_level(state: Readiness) -> bool
    ensures { result ≡ is_level state }
{
    match state {
        Readiness::Behind => false,
        Readiness::Ready => false,
        Readiness::Awaits => false,
        Readiness::Level => true,
        Readiness::Past => false,
    }
}

// The first seat that can run, where none before this one can.
#[tactic(auto, using(crate::proofs::Prefixes::next_none, crate::proofs::Prefixes::found_at, crate::proofs::Prefixes::found_nowhere))]
fn next_able(from: usize, states: &[Readiness]) -> Option<usize>
    requires within { from ≤ length states.now }
    requires clear { first_able 0 (take from states.now) ≡ None }
    ensures found { result ≡ first_able 0 states.now }
    ensures clear { IfSome result (λ seat. first_able 0 (take seat states.now) ≡ None) }
    ensures within { IfSome result (λ seat. seat ≤ length states.now) }
{
    for seat in from..states.len() {
        if is_able(states[seat]) {
            return Some(seat);
        }
    }
    None
}

/// Which elements a letter may touch that comes to a node of this stamp.
pub fn reach_of(own: Stamp, letter: &Letter) -> Reach
    ensures { result ≡ reach_of own letter.now }
{
    match letter {
        Letter::Parcel {
            stamp,
            entry,
            iteration,
            to,
            ..
        } => Reach::Message {
            own: stamp.is_same(own),
            to: *to,
            iteration: *iteration,
            entry: *entry,
        },
        Letter::Partial { .. } => Reach::Nobody,
        Letter::Total { .. } => Reach::Everybody,
        Letter::Piece { .. } => Reach::Nobody,
        Letter::VerdictOf { .. } => Reach::Nobody,
        Letter::Lend { .. } => Reach::Nobody,
        Letter::Take { .. } => Reach::Everybody,
        Letter::Restore { .. } => Reach::Everybody,
        Letter::Commit { .. } => Reach::Everybody,
        Letter::Resume { .. } => Reach::Everybody,
        Letter::Died { .. } => Reach::Nobody,
        Letter::Stop => Reach::Nobody,
    }
}

/// Of each object of a node how it stands to a top.
///
/// `Memory`: an allocation was refused.
pub fn start_seats(plan: &Plan, top: u64, node: &Node, seats: &mut SeatStates) -> Result<(), Memory>
    requires fits { Fitted plan.now node.now }
    requires empty { seats.old ≡ [] }
    ensures { OnOk result (seats.new ≡ seats_of plan.now top node.now) }
{
    for seat in 0..node.count() {
        seats.push(readiness_at(plan, top, node, seat))?;
    }
    Ok(())
}

/// Those that a letter may have touched are looked at again.
///
/// `Memory`: an allocation was refused; what is kept is of no further use.
pub fn mark_by(
    plan: &Plan,
    top: u64,
    node: &Node,
    reach: Reach,
    seats: &mut SeatStates,
) -> Result<(), Memory>
    requires { Fitted plan.now node.now }
    ensures { OnOk result (seats.new ≡ marked_by plan.now top node.now reach seats.old) }
{
    match reach {
        Reach::Nobody => Ok(()),
        Reach::Message {
            own,
            to,
            iteration,
            entry,
        } => {
            if own {
                wake(plan, node, to, iteration, entry, seats);
            }
            Ok(())
        }
        Reach::Everybody => {
            seats.clear();
            start_seats(plan, top, node, seats)
        }
    }
}

/// A message came to an element: only one that waits can have become able to run.
pub fn wake(
    plan: &Plan,
    node: &Node,
    to: ElementId,
    iteration: u64,
    entry: EntryId,
    seats: &mut SeatStates,
)
    requires { Fitted plan.now node.now }
    ensures { seats.new ≡ woken plan.now node.now iteration entry (seat_of node.now.roster to.0)
        seats.old }
{
    if let Some(seat) = node.seat(to) {
        let seat = seat as usize;
        if seats.is_awaiting(seat) && node.awaits_seat(plan, iteration, entry, seat) {
            seats.set(seat, Readiness::Ready);
        }
    }
}

/// An element is looked at again.
pub fn mark(plan: &Plan, top: u64, node: &Node, e: ElementId, seats: &mut SeatStates)
    requires { Fitted plan.now node.now }
    ensures { seats.new ≡ marked plan.now top node.now (seat_of node.now.roster e.0) seats.old }
{
    if let Some(seat) = node.seat(e) {
        let seat = seat as usize;
        seats.set(seat, readiness_at(plan, top, node, seat));
    }
}

// How the object of a seat stands to a top.
#[tactic(auto, using(crate::proofs::Seating::told_at))]
fn readiness_at(plan: &Plan, top: u64, node: &Node, seat: usize) -> Readiness
    requires { Fitted plan.now node.now }
    ensures { result ≡ readiness_at plan.now top node.now seat }
{
    match node.completed_seat(seat) {
        Some(done) => between(plan, top, done),
        None => inside(node.can_run_seat(plan, top, seat), seat < node.count()),
    }
}

// Between two iterations, `done` of which are completed.
fn between(plan: &Plan, top: u64, done: u64) -> Readiness
    ensures { result ≡ (if nat_lt done plan.now.iterations
        && nat_lt done top then Readiness.Behind
        else (if done == top then Readiness.Level else Readiness.Past)) }
{
    if done < plan.iterations() && done < top {
        Readiness::Behind
    } else if done == top {
        Readiness::Level
    } else {
        Readiness::Past
    }
}

fn inside(can_run: bool, there: bool) -> Readiness
    ensures { result ≡ (if there then (if can_run then Readiness.Ready else Readiness.Awaits)
        else Readiness.Past) }
{
    if !there {
        Readiness::Past
    } else if can_run {
        Readiness::Ready
    } else {
        Readiness::Awaits
    }
}
