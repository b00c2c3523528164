//! A plan's elements: how many there are, where each stands, and what it holds and runs.

ghost use Rattle.std.specs.Prelude.{◌≡◌, ◌+◌, ◌-◌, ◌<◌, ◌≤◌, nat_lt, length, Some};
ghost use Rattle.chare_base.specs.Sizes.{size_of, elements_in, cells_in};
ghost use Rattle.chare_base.specs.Elements.{elements, place_of, array_of, cells_of, cols_at, steps_of, parts_at, need_at, block_at, steps_in_round, most_steps};

use crate::message::Need;
use crate::plan::{Array, ElementId, Part, Place, Plan, Spot, State};

/// A part of an element's step, with what else of its array a run of it reads.
#[derive(Clone, Copy)]
pub struct StepPart<'a> {
    /// How many columns the element's array has.
    pub cols: u32,
    /// How many steps the element runs in each iteration.
    pub steps: u8,
    /// How many parts the step has.
    pub parts: u8,
    pub part: &'a Part,
}

impl Plan {
    /// How many elements there are: from 1 to 4,096.
    #[tactic(auto, using(crate::proofs::Facts::elements_few, crate::proofs::Facts::elements_some))]
    pub fn elements(&self) -> u32
        ensures exact { result ≡ elements self.now }
        ensures some { 1 ≤ result }
        ensures few { result ≤ 4096 }
    {
        elements_in(self.arrays.as_slice())
    }

    /// How often each element runs its steps: from 1 to 1,000,000.
    pub fn iterations(&self) -> u64
        ensures exact { result ≡ self.now.iterations }
        ensures some { 1 ≤ result }
        ensures few { result ≤ 1000000 }
    {
        self.iterations
    }

    /// Where an element stands. For a number that no element has, `array` is the number of arrays.
    #[tactic(auto, unfolding(crate::specs::Elements::place_of), using(crate::proofs::Facts::arrays_few))]
    pub fn place(&self, e: ElementId) -> Place
        ensures { result ≡ place_of self.now e.0 }
    {
        let arrays = self.arrays.as_slice();
        for (number, array) in arrays.iter().enumerate() {
            if is_before_end(e.0, array) {
                return place_in(number as u16, e.0, array);
            }
        }
        Place {
            array: arrays.len() as u16,
            index: e.0,
        }
    }

    /// The array of an element.
    #[tactic(auto, using(crate::proofs::Facts::place_in_range))]
    pub fn array_of(&self, e: ElementId) -> &Array
        requires { e.0 < elements self.now }
        ensures { array_of self.now e.0 ≡ Some result.now }
    {
        &self.arrays.as_slice()[self.place(e).array as usize]
    }

    /// How many cells an element has: those of its array's states.
    #[tactic(auto, using(crate::proofs::Facts::states_are, crate::proofs::Facts::cells_few))]
    pub fn cells_of(&self, e: ElementId) -> u32
        requires { e.0 < elements self.now }
        ensures exact { result ≡ cells_of self.now e.0 }
        ensures few { result ≤ 4096 }
    {
        cells_in(self.array_of(e).states.as_slice())
    }

    /// How many steps an element runs in each iteration: from 1 to 32.
    #[tactic(auto, using(crate::proofs::Facts::steps_are, crate::proofs::Facts::steps_few))]
    pub fn steps_of(&self, e: ElementId) -> u8
        requires { e.0 < elements self.now }
        ensures exact { result ≡ length (steps_of self.now e.0) }
        ensures few { result ≤ 32 }
    {
        self.array_of(e).steps.len() as u8
    }

    /// How many parts a step of an element has: from 1 to 8.
    #[tactic(auto)]
    pub fn parts(&self, e: ElementId, step: u8) -> u8
        requires element { e.0 < elements self.now }
        requires step { step < length (steps_of self.now e.0) }
        ensures exact { result ≡ length (parts_at self.now e.0 step) }
        ensures few { result ≤ 8 }
    {
        let step = &self.array_of(e).steps.as_slice()[step as usize];
        step.parts.len() as u8
    }

    /// What a part of an element's step needs.
    pub fn needs(&self, e: ElementId, spot: Spot) -> Need
        requires element { e.0 < elements self.now }
        requires step { spot.step < length (steps_of self.now e.0) }
        requires part { spot.part < length (parts_at self.now e.0 spot.step) }
        ensures { result ≡ need_at self.now e.0 spot.step spot.part }
    {
        let step = &self.array_of(e).steps.as_slice()[spot.step as usize];
        step.parts.as_slice()[spot.part as usize].need
    }

    /// A part of a step of the element that stands at a place, found once for all that a run of it reads.
    pub fn part_at(&self, e: ElementId, place: Place, spot: Spot) -> StepPart<'_>
        requires element { e.0 < elements self.now }
        requires place { place ≡ place_of self.now e.0 }
        requires step { spot.step < length (steps_of self.now e.0) }
        requires part { spot.part < length (parts_at self.now e.0 spot.step) }
        ensures cols { result.cols ≡ cols_at self.now e.0 }
        ensures steps { result.steps ≡ length (steps_of self.now e.0) }
        ensures few { result.steps ≤ 32 }
        ensures parts { result.parts ≡ length (parts_at self.now e.0 spot.step) }
        ensures few_parts { result.parts ≤ 8 }
        ensures need { result.part.now.need ≡ need_at self.now e.0 spot.step spot.part }
        ensures block { result.part.now.block ≡ block_at self.now e.0 spot.step spot.part }
    {
        let array = self.array_at(e, place);
        let step = &array.steps.as_slice()[spot.step as usize];
        StepPart {
            cols: array.cols,
            steps: array.steps.len() as u8,
            parts: step.parts.len() as u8,
            part: &step.parts.as_slice()[spot.part as usize],
        }
    }

    /// The array of the element that stands at a place.
    #[tactic(auto, using(crate::proofs::Facts::place_in_range))]
    pub fn array_at(&self, e: ElementId, place: Place) -> &Array
        requires element { e.0 < elements self.now }
        requires place { place ≡ place_of self.now e.0 }
        ensures { array_of self.now e.0 ≡ Some result.now }
    {
        &self.arrays.as_slice()[place.array as usize]
    }

    /// How many steps an iteration has: as many as the array with the most.
    #[tactic(auto, using(crate::proofs::Facts::most_steps_few))]
    pub fn steps_in_round(&self) -> u8
        ensures exact { result ≡ steps_in_round self.now }
        ensures few { result ≤ 32 }
    {
        most_steps(self.arrays.as_slice()) as u8
    }
}

// How many elements an array has.
pub(crate) fn size_of(array: &Array) -> u32
    requires { size_of array.now ≤ 4096 }
    ensures { result ≡ size_of array.now }
{
    array.rows * array.cols
}

// How many elements the arrays have.
fn elements_in(arrays: &[Array]) -> u32
    requires { elements_in arrays.now ≤ 4096 }
    ensures { result ≡ elements_in arrays.now }
{
    let mut elements = 0;
    for array in arrays {
        elements += size_of(array);
    }
    elements
}

// How many cells the states have.
pub(crate) fn cells_in(states: &[State]) -> u32
    requires { cells_in states.now ≤ 4096 }
    ensures { result ≡ cells_in states.now }
{
    let mut cells = 0;
    for state in states {
        cells += state.cells;
    }
    cells
}

// The greatest number of steps of an array.
fn most_steps(arrays: &[Array]) -> usize
    ensures { result ≡ most_steps arrays.now }
{
    let mut most = 0;
    for array in arrays {
        most = array.steps.len().max(most);
    }
    most
}

// Whether an element comes before the end of an array.
fn is_before_end(e: u32, array: &Array) -> bool
    ensures { result ≡ nat_lt e (array.now.first + size_of array.now) }
{
    u128::from(e) < u128::from(array.first) + u128::from(array.rows) * u128::from(array.cols)
}

// The place of an element from an array's first on.
fn place_in(number: u16, e: u32, array: &Array) -> Place
    ensures { result ≡ record { array = number; index = e - array.now.first } }
{
    Place {
        array: number,
        index: e.saturating_sub(array.first),
    }
}
