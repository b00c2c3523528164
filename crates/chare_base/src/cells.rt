//! An element's cells, and those of all elements.

ghost use Rattle.std.specs.Prelude.{◌≡◌, ◌==◌, ◌<◌, length, slice_get, slice_set, Some, IfOk};

use crate::memory::Memory;
use sqlite_items::Items;
use std::alloc::Global;
use std::marker::Model;

/// What went wrong first in an element, and where: its kind, and the step and the iteration, both counted from 0. The
/// kind is 1 for a division by zero, 2 for a read out of range and 3 for a write out of range. All 0 is nothing.
#[derive(Clone, Copy, Debug, PartialEq, Eq)]
pub struct Slip {
    pub kind: u8,
    pub step: u8,
    pub iteration: u64,
}

impl Slip {
    /// Nothing went wrong.
    pub const NONE: Slip = Slip {
        kind: 0,
        step: 0,
        iteration: 0,
    };
}

/// An element's state: its cells, states in text order, and its slip.
#[derive(Drop)]
pub struct Cells {
    pub numbers: Items<i64>,
    pub slip: Slip,
}

impl Cells {
    /// How many cells there are.
    pub fn len(&self) -> usize
        ensures { result ≡ length self.now.numbers }
    {
        self.numbers.len()
    }

    /// Whether there are none.
    pub fn is_empty(&self) -> bool
        ensures { result ≡ (length self.now.numbers == 0) }
    {
        self.numbers.len() == 0
    }

    /// The cell at a place.
    pub fn get(&self, at: usize) -> i64
        requires { at < length self.now.numbers }
        ensures { slice_get self.now.numbers at ≡ Some result }
    {
        self.numbers.as_slice()[at]
    }

    /// Writes the cell at a place; the others and the slip stay.
    pub fn set(&mut self, at: usize, value: i64)
        requires { at < length self.old.numbers }
        ensures { self.new ≡ record self.old { numbers = slice_set self.old.numbers at value } }
    {
        self.numbers.set(at, value);
    }

    /// An equal value in memory of its own.
    pub fn copy(&self, alloc: Global) -> Result<Cells, Memory>
        ensures { IfOk result (λ copy. copy ≡ self.now) }
    {
        Ok(Cells {
            numbers: Items::from_slice(alloc, self.numbers.as_slice())?,
            slip: self.slip,
        })
    }
}

/// The states of all elements, in element order, which contracts see as a list.
#[derive(Drop)]
pub struct CellsList {
    all: Vec<Cells>,
}

impl Model for CellsList {
    ghost use Rattle.std.specs.Prelude.{List};
    ghost use Rattle.chare_base.specs.declared.cells.Cells.{Cells};

    ghost Value = { List Cells };

    ghost view = { λ l. l.all.items };
}

impl CellsList {
    /// The list of a vector, which takes no memory.
    pub fn from_vec(all: Vec<Cells>) -> CellsList
        ensures { result ≡ all.items }
    {
        CellsList { all }
    }

    /// The states as a slice.
    pub fn as_slice(&self) -> &[Cells]
        ensures { result.now ≡ self.now }
    {
        self.all.as_slice()
    }

    /// How many elements there are.
    pub fn len(&self) -> usize
        ensures { result ≡ length self.now }
    {
        self.all.len()
    }

    /// Whether there are none.
    pub fn is_empty(&self) -> bool
        ensures { result ≡ (length self.now == 0) }
    {
        self.all.is_empty()
    }
}
