//! The lines of a fault script.

use chare_base::plan::ElementId;
use chare_base::slots::SlotId;

/// What a line of a script does.
#[derive(Clone, Copy, Debug, PartialEq, Eq)]
pub enum Fault {
    /// A cell of an element of a replica changes as the element begins iteration `at`: the bits of `mask` are inverted.
    Flip {
        /// 0 or 1.
        replica: u8,
        element: ElementId,
        /// The cell's number within its element, from 0.
        cell: u32,
        mask: u64,
        at: u64,
    },
    /// The node of a slot dies as the first of its elements is about to begin iteration `at`.
    Crash {
        slot: SlotId,
        at: u64,
    },
}

/// A fault line.
#[derive(Clone, Copy, Debug, PartialEq, Eq)]
pub struct FaultLine {
    /// The number of the line in the script's text, from 1. Lines that are no fault lines count.
    pub line: u32,
    pub fault: Fault,
}
