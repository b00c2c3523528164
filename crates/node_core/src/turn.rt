//! What a turn of a node was.

use chare_base::plan::{ElementId, Spot};
use chare_base::slots::SlotId;
use letter_post::outbox::Outbox;
use letter_post::stamp::Stamp;

/// A turn of a node, or why there was none.
#[derive(Drop)]
pub enum Turn {
    /// The element ran this part of its step; if it was between two iterations, it began one first. The letters that
    /// this sent are in the outbox.
    Ran {
        element: ElementId,
        spot: Spot,
        outbox: Outbox,
    },
    /// No part can run, and each element that would begin an iteration would begin the limit or a later one.
    Held,
    /// No part can run, and no element is before an iteration of the plan.
    Awaits,
    /// The node died by this fault line as an element was about to begin an iteration.
    Dies {
        line: u32,
    },
}

/// What a turn of a node was, without what it sent.
#[derive(Clone, Copy, Debug, PartialEq, Eq)]
pub enum TurnKind {
    /// The element ran this part of its step; if it was between two iterations, it began one first.
    Ran { element: ElementId, spot: Spot },
    /// No part can run, and each element that would begin an iteration would begin the limit or a later one.
    Held,
    /// No part can run, and no element is before an iteration of the plan.
    Awaits,
    /// The node died by this fault line as an element was about to begin an iteration.
    Dies { line: u32 },
}

/// An element of a node as it sends.
#[derive(Clone, Copy, Debug, PartialEq, Eq)]
pub struct Sender {
    pub slot: SlotId,
    pub stamp: Stamp,
    pub iteration: u64,
    /// The number of its array.
    pub array: u16,
    /// Its number among the elements of that array on this node.
    pub rank: u32,
}
