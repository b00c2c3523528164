//! The plan of a job: what its elements hold, run and answer.

ghost use Rattle.std.specs.Prelude.{IsTrue};
ghost use Rattle.chare_base.specs.Limits.{limits_hold};
ghost use Rattle.chare_base.specs.Layout.{layout_holds};
ghost use Rattle.chare_base.specs.Ranges.{ranges_hold};
ghost use Rattle.chare_base.specs.Names.{names_hold};
ghost use Rattle.chare_base.specs.Ports.{ports_hold};
ghost use Rattle.chare_base.specs.Costs.{costs_hold};
ghost use Rattle.chare_base.specs.Overlap.{overlaps_hold};

use crate::bytes::Name;
use crate::expression::Expr;
use crate::message::{EntryId, Need, ReductionId};
use sqlite_items::Items;

/// An element's number in element order: arrays in text order, then row by row.
#[derive(Clone, Copy, Debug, PartialEq, Eq)]
pub struct ElementId(pub u32);

/// A step of an element, and a part of that step. Numbers count from 0.
#[derive(Clone, Copy, Debug, PartialEq, Eq)]
pub struct Spot {
    pub step: u8,
    pub part: u8,
}

/// Where an element stands: the number of its array, and its index there, row by row.
#[derive(Clone, Copy, Debug, PartialEq, Eq)]
pub struct Place {
    pub array: u16,
    pub index: u32,
}

/// A statement of a block. `Send` and `Contribute` stand directly in a part's block alone.
#[derive(Drop)]
pub enum Stmt {
    /// Writes the cell of this number, which is a state's only one.
    Set {
        cell: u32,
        value: Expr,
    },
    /// Writes the cell at a place, counted from 0, of the state whose `cells` cells begin at `at`. Outside of them
    /// nothing is written, and it is a write out of range.
    SetAt {
        at: u32,
        cells: u32,
        place: Expr,
        value: Expr,
    },
    /// Runs `yes` where the test isn't 0, and `no` elsewhere.
    If {
        test: Expr,
        yes: Items<Stmt>,
        no: Items<Stmt>,
    },
    /// Runs the block with the loop's variable at `low`, `low + 1` and so on, below `high`. `slot` is how many loops
    /// are around this one.
    For {
        slot: u8,
        low: i64,
        high: i64,
        block: Items<Stmt>,
    },
    /// Sends values, as they are then, to the element whose source at this entry is the one that runs.
    Send {
        entry: EntryId,
        values: Items<Expr>,
    },
    /// Gives a value, as it is then, to a reduction of the element's array.
    Contribute {
        reduction: ReductionId,
        value: Expr,
    },
}

/// A part of a step: a block that runs to its end once what it needs is there.
#[derive(Drop)]
pub struct Part {
    pub need: Need,
    pub block: Items<Stmt>,
}

/// A step of an iteration: its parts, which run in any order.
#[derive(Drop)]
pub struct Step {
    pub parts: Items<Part>,
}

/// A state of an array's elements: some cells of each, beside one another.
#[derive(Drop)]
pub struct State {
    pub name: Name,
    /// Whether it is named without an index. Then it has one cell.
    pub plain: bool,
    /// The number of its first cell in the element.
    pub at: u32,
    /// How many cells it has.
    pub cells: u32,
    /// What each cell is before iteration 0. It reads no cell.
    pub start: Expr,
}

/// An array of elements, which all hold the same states and run the same steps.
#[derive(Drop)]
pub struct Array {
    pub name: Name,
    /// Whether it has one dimension. Then it has one row.
    pub flat: bool,
    pub rows: u32,
    pub cols: u32,
    /// The number of its first element.
    pub first: u32,
    pub states: Items<State>,
    pub steps: Items<Step>,
}

/// What an entry gives where no element stands at the offset.
#[derive(Clone, Copy, Debug, PartialEq, Eq)]
pub enum Edge {
    /// Opposite edges of the array meet, so that one always does.
    Wrap,
    /// This number, in each value.
    Else(i64),
}

/// An entry: what an array's elements are sent once in each iteration.
#[derive(Drop)]
pub struct Entry {
    pub name: Name,
    /// The array whose elements receive.
    pub owner: u16,
    /// The array whose elements send, of the owner's shape.
    pub source: u16,
    /// How many rows below the receiver the sender stands, from -8 to 8; 0 in an array of one dimension.
    pub down: i8,
    /// How many columns right of the receiver the sender stands, from -8 to 8.
    pub across: i8,
    pub edge: Edge,
    /// How many values a message has: from 1 to 8.
    pub values: u8,
}

/// How several numbers make one.
#[derive(Clone, Copy, Debug, PartialEq, Eq)]
pub enum How {
    /// Their sum, in 64 bits that wrap.
    Sum,
    /// The least of them.
    Min,
    /// The greatest of them.
    Max,
}

/// A reduction: what each element of an array contributes to once in each iteration, and whose total each receives.
#[derive(Drop)]
pub struct Reduction {
    pub name: Name,
    /// The array whose elements contribute and receive.
    pub owner: u16,
    pub how: How,
}

/// What a job answers at its end.
#[derive(Clone, Copy, Debug, PartialEq, Eq)]
pub enum Answer {
    /// One number of all cells of a state in all elements: its array's number, and its place in that array.
    Over { how: How, array: u16, state: u16 },
    /// One cell of one element, by its number in the element.
    At { element: ElementId, cell: u32 },
}

/// A job that was accepted.
#[derive(Drop)]
pub struct Plan {
    pub name: Name,
    /// How often each element runs its steps.
    pub iterations: u64,
    pub arrays: Items<Array>,
    /// The entries of all arrays, numbered in text order.
    pub entries: Items<Entry>,
    /// The reductions of all arrays, numbered in text order.
    pub reductions: Items<Reduction>,
    pub answers: Items<Answer>,
    /// Each count and each written number is within its limits.
    pub ghost limits: { IsTrue (limits_hold name iterations arrays entries reductions answers) },
    /// Elements and cells are numbered in text order, without gaps.
    pub ghost layout: { IsTrue (layout_holds arrays) },
    /// Each number of an array, an entry, a reduction, a state, a cell, a loop and a value names one that is there,
    /// and an entry's two arrays have one shape.
    pub ghost ranges: { IsTrue (ranges_hold arrays entries reductions answers) },
    /// No name is declared twice.
    pub ghost names: { IsTrue (names_hold arrays entries reductions) },
    /// Each entry is sent once in an iteration and each reduction contributed to once, directly in a part's block,
    /// and received once, in a later step.
    pub ghost ports: { IsTrue (ports_hold arrays entries reductions) },
    /// No step costs more than the limit.
    pub ghost costs: { IsTrue (costs_hold arrays) },
    /// No part of a step uses a state that another part writes.
    pub ghost overlaps: { IsTrue (overlaps_hold arrays) },
}
