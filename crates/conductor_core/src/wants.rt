//! What the conductor wants of the agreement.

ghost use Rattle.std.specs.Prelude.{◌≡◌, ◌==◌, if◌then◌else◌};
ghost use Rattle.std.specs.List.{list_any};
ghost use Rattle.iteration_agree.specs.Cuts.{slot_place};
ghost use Rattle.run_ledger.specs.Conditions.{due};
ghost use Rattle.conductor_core.specs.Moves.{first_unnoted, gather_move, is_noted, quiet_move, reaches, slot_after, slot_or, unnoted_from};

use chare_base::slots::SlotId;
use iteration_agree::round::{Sight, Taking};
use run_ledger::ledger::Ledger;

/// A move on the agreement.
#[derive(Clone, Copy, Debug, PartialEq, Eq)]
pub enum CutMove {
    /// No move.
    None,
    /// See how this slot stands.
    Look { slot: SlotId },
    /// Open a round with this floor.
    OpenRound { floor: u64 },
    /// See whether this slot reported a cap in the round, and note it.
    Note { slot: SlotId },
    /// Agree on an iteration, where these replicas take part.
    Agree { taking: Taking },
    /// Make the round quiet.
    Quiet,
}

/// What the agreement answers.
#[derive(Clone, Copy, Debug, PartialEq, Eq)]
pub enum CutAnswer {
    /// To OpenRound and Quiet.
    Nothing,
    /// To Look and Note: how the slot stands.
    Seen(Sight),
    /// To Agree: the iteration, or None where it can't be agreed on yet.
    Agreed(Option<u64>),
}

/// How far the conductor brought the round.
#[derive(Clone, Copy, Debug, PartialEq, Eq)]
pub enum Phase {
    /// No round is open.
    Quiet,
    /// Slots are to report their caps.
    Gather,
    /// All slots pack after this many iterations.
    Agreed { k: u64 },
}

// What it wants in a quiet round.
pub(crate) fn quiet_move(floor: u64, sights: &[Option<Sight>], next: SlotId) -> CutMove
    ensures { result ≡ quiet_move floor sights.now next }
{
    if any_reaches(sights, floor) {
        CutMove::OpenRound { floor }
    } else {
        CutMove::Look { slot: next }
    }
}

// What it wants in a round that gathers caps, where this is the first slot that isn't noted.
pub(crate) fn gather_move(unnoted: Option<SlotId>) -> CutMove
    ensures { result ≡ gather_move unnoted }
{
    match unnoted {
        None => CutMove::Agree {
            taking: Taking::Both,
        },
        Some(slot) => CutMove::Note { slot },
    }
}

// The floor of the next round.
pub(crate) fn floor(ledger: &Ledger) -> u64
    ensures { result ≡ due ledger.now.ledger }
{
    ledger
        .base()
        .saturating_add(ledger.options().every)
        .min(ledger.iterations())
}

fn any_reaches(sights: &[Option<Sight>], k: u64) -> bool
    ensures { result ≡ list_any (reaches k) sights.now }
{
    sights.iter().any(|sight| reaches(*sight, k))
}

fn reaches(sight: Option<Sight>, k: u64) -> bool
    ensures { result ≡ reaches k sight }
{
    match sight {
        None => false,
        Some(sight) => k <= sight.top,
    }
}

// The first slot that isn't noted.
pub(crate) fn first_unnoted(noted: &[bool], nodes: u16) -> Option<SlotId>
    ensures { result ≡ first_unnoted noted.now nodes }
{
    slot_or(unnoted_of(noted, nodes, 0), unnoted_of(noted, nodes, 1))
}

fn slot_or(first: Option<SlotId>, other: Option<SlotId>) -> Option<SlotId>
    ensures { result ≡ slot_or first other }
{
    match first {
        None => other,
        Some(slot) => Some(slot),
    }
}

// The first slot of a replica that isn't noted.
fn unnoted_of(noted: &[bool], nodes: u16, replica: u8) -> Option<SlotId>
    ensures { result ≡ unnoted_from noted.now nodes replica 0 nodes }
{
    for node in 0..nodes {
        let slot = SlotId { replica, node };
        if !is_noted(noted, nodes, slot) {
            return Some(slot);
        }
    }
    None
}

fn is_noted(noted: &[bool], nodes: u16, slot: SlotId) -> bool
    ensures { result ≡ is_noted noted.now nodes slot }
{
    noted.get(slot_place(nodes, slot)).copied().unwrap_or(false)
}

// The place of a slot in lists that have replica 0's first.
pub(crate) fn slot_place(nodes: u16, slot: SlotId) -> usize
    ensures { result ≡ slot_place nodes slot }
{
    let node = usize::from(slot.node);
    if slot.replica == 0 {
        node
    } else {
        usize::from(nodes) + node
    }
}

// The slot behind one, round.
pub(crate) fn slot_after(nodes: u16, slot: SlotId) -> SlotId
    ensures { result ≡ slot_after nodes slot }
{
    if u32::from(slot.node) + 1 < u32::from(nodes) {
        SlotId {
            replica: slot.replica,
            node: slot.node + 1,
        }
    } else {
        SlotId {
            replica: other(slot.replica),
            node: 0,
        }
    }
}

fn other(replica: u8) -> u8
    ensures { result ≡ (if replica == 0 then 1 else 0) }
{
    if replica == 0 { 1 } else { 0 }
}
