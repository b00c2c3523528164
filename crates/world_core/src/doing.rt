//! What a slot would do next, and its moves on the agreement.

use chare_base::message::EntryId;
use chare_base::plan::ElementId;

/// What a slot would do next.
#[derive(Clone, Copy, Debug, PartialEq, Eq)]
pub enum Doing {
    /// It hears the first letter of its inbox.
    Hear,
    /// It makes the first move on the agreement that is due.
    Move,
    /// It runs this element.
    Run(ElementId),
}

/// A move of a slot on the agreement.
#[derive(Clone, Copy, Debug, PartialEq, Eq)]
pub enum SlotMove {
    /// It sees the round as it stands.
    See,
    /// It goes back to this base, as it was ordered.
    Rewind { base: u64 },
    /// It is free again: what it packed was taken or dropped, and it was told to go on.
    Release,
    /// It reports its top as its cap.
    Report,
    /// It packs at this iteration, which all its elements have completed and none has begun.
    Pack { k: u64 },
    /// Its elements may begin this iteration.
    Begin { k: u64 },
}

/// Which of a node's elements a letter may touch.
#[derive(Clone, Copy, Debug, PartialEq, Eq)]
pub enum Reach {
    Nobody,
    /// The element that a message of an entry is for, where the letter's stamp is the node's own.
    Message {
        own: bool,
        to: ElementId,
        iteration: u64,
        entry: EntryId,
    },
    Everybody,
}

/// How an object stands to its slot's top, the least iteration that the slot hasn't begun.
#[derive(Clone, Copy, Debug, PartialEq, Eq)]
pub enum Readiness {
    /// Between two iterations, of which it would begin one below the top.
    Behind,
    /// Inside an iteration, where one of its parts can run.
    Ready,
    /// Inside an iteration, where each part that isn't done waits for a message.
    Awaits,
    /// It has completed the iterations below the top, and not begun the top.
    Level,
    /// None of these: it is past the top, or past the job's last iteration.
    Past,
}

/// Which orders a slot has heard since it last packed.
#[derive(Clone, Copy, Debug, PartialEq, Eq)]
pub enum Since {
    /// None to commit, to go back or to take a piece.
    Nothing,
    /// One of these.
    Ordered,
    /// One of these, and then to resume.
    Resumed,
}
