//! Letters, and where they go.

use crate::stamp::Stamp;
use chare_base::message::{EntryId, Payload, ReductionId};
use chare_base::plan::ElementId;
use chare_base::slots::{LineSet, SlotId};
use pup_state::compare::Verdict;
use pup_state::piece::Piece;

/// What is sent from box to box. Iterations count completed ones; `live` is the set of all fault lines that aren't spent.
/// `Lend`, `Take` and `Died` have their form here, and nothing sends them.
#[derive(Drop)]
pub enum Letter {
    /// From a slot to a slot of its replica: the message that an element finds at an entry in an iteration.
    Parcel {
        stamp: Stamp,
        entry: EntryId,
        iteration: u64,
        to: ElementId,
        payload: Payload,
    },
    /// From a slot to node 0 of its replica: what the node's elements contributed to a reduction in an iteration, all
    /// of them. A node without elements of the reduction's array sends none.
    Partial {
        stamp: Stamp,
        reduction: ReductionId,
        iteration: u64,
        node: u16,
        value: i64,
    },
    /// From node 0 to each slot of its replica that has elements of the reduction's array: the total.
    Total {
        stamp: Stamp,
        reduction: ReductionId,
        iteration: u64,
        value: i64,
    },
    /// From a slot of replica 1 to its buddy: its piece of the checkpoint that both replicas take.
    Piece {
        stamp: Stamp,
        piece: Piece,
    },
    /// From a slot of replica 0 to the conductor: how its piece and its buddy's compare, and its own piece.
    VerdictOf {
        first: Stamp,
        second: Stamp,
        node: u16,
        iteration: u64,
        verdict: Verdict,
        piece: Piece,
    },
    /// From the conductor to a slot: send a copy of the piece at this iteration once it is held; where `fresh` is
    /// true, of the fresh piece alone.
    Lend {
        iteration: u64,
        fresh: bool,
    },
    /// From a slot to the conductor: the copy that was asked for. From the conductor to a slot: become a node at this
    /// iteration, with this piece as its base.
    Take {
        stamp: Stamp,
        iteration: u64,
        live: LineSet,
        piece: Piece,
    },
    /// From the conductor to a slot: go back to your own base piece, which is at this iteration.
    Restore {
        stamp: Stamp,
        iteration: u64,
        live: LineSet,
    },
    /// From the conductor to a slot: the fresh piece at this iteration is the base.
    Commit {
        stamp: Stamp,
        iteration: u64,
        live: LineSet,
    },
    /// From the conductor to a slot: go on.
    Resume {
        stamp: Stamp,
    },
    /// From a slot to the conductor: its node, whose stamp this is, died by the fault line at this place in the script,
    /// from 0.
    Died {
        stamp: Stamp,
        slot: SlotId,
        line: u32,
    },
    /// From the conductor to a slot: the run has ended.
    Stop,
}

/// Whose inbox a letter goes to.
#[derive(Clone, Copy, Debug, PartialEq, Eq)]
pub enum BoxId {
    Slot(SlotId),
    Conductor,
}

/// A letter on its way.
#[derive(Drop)]
pub struct Sent {
    pub to: BoxId,
    pub letter: Letter,
}
