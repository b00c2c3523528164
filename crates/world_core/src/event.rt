//! Actors and events.

use chare_base::plan::ElementId;
use chare_base::slots::SlotId;

/// Who makes events.
#[derive(Clone, Copy, Debug, PartialEq, Eq)]
pub enum Actor {
    /// The slot of this name.
    Slot(SlotId),
    /// The conductor.
    Conductor,
}

/// One event of a run.
#[derive(Clone, Copy, Debug, PartialEq, Eq)]
pub enum Event {
    /// A slot runs a part of a step of an element that can run; an element between two iterations begins the next.
    Run { slot: SlotId, element: ElementId },
    /// A slot hears the first letter of its inbox.
    Hear { slot: SlotId },
    /// A slot makes the first of the moves on the agreement that is due: it sees the round, goes back to the base, is
    /// released, reports its cap, packs, or lets its elements begin the next iteration (`SlotMove`).
    Move { slot: SlotId },
    /// The conductor hears the first letter of its inbox.
    ConductorHear,
    /// The conductor makes the move on the agreement that it wants: it looks at a slot, opens a round, notes a cap,
    /// agrees on an iteration, or makes the round quiet and records what the verdicts say.
    ConductorMove,
}

/// How a drill goes on to choose actors. They are numbered: the slots of replica 0 by node, those of replica 1, the
/// conductor.
#[derive(Clone, Copy, Debug, PartialEq, Eq)]
pub enum Chooser {
    /// Round the actors, from the one after this one.
    Round { last: usize },
    /// By the generator, from this number on.
    Draw { random: u64 },
}
