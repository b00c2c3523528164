//! What a line does, by the plan and the number of nodes.

ghost use Rattle.std.specs.Bool.{OnTrue};
ghost use Rattle.std.specs.Prelude.{◌≡◌, ◌≤◌, ◌<◌, ◌+◌, ◌*◌};
ghost use Rattle.std.specs.Option.{option_map};
ghost use Rattle.chare_base.specs.Sizes.{size_of};
ghost use Rattle.fault_script.specs.Held.{cell_held, crash_held, element_held, flip_held};
ghost use Rattle.fault_script.specs.Meaning.{CrashInRange, InRange, array_called, col, crash_fault, crash_within, crashed, fault_in, flip_fault, flip_within, flipped, is_indexed, is_named, is_there, place, row, state_called};

use crate::fault::Fault;
use crate::form::{CellForm, CrashForm, ElementForm, FlipForm, Form, form_of};
use crate::name::same;
use crate::number::TOO_LARGE;
use chare_base::plan::{Array, ElementId, Plan, State};
use chare_base::slots::SlotId;

/// Why a line is no fault.
#[derive(Clone, Copy, Debug, PartialEq, Eq)]
pub enum LineFault {
    /// Its words are of no form.
    Form,
    /// It names what isn't in the plan, or names an element or a cell in another form than the plan's.
    NoSuch,
    /// One of its numbers is out of range.
    Range,
}

/// What a line does, or why it is no fault.
#[tactic(auto, unfolding(crate::specs::Meaning::fault_in))]
pub(crate) fn fault_in(text: &[u8], plan: &Plan, nodes: u16) -> Result<Fault, LineFault>
    ensures { result ≡ fault_in plan.now nodes text.now }
{
    match form_of(text) {
        Some(Form::Flip(flip)) => flip_fault(&flip, plan),
        Some(Form::Crash(crash)) => crash_fault(&crash, plan, nodes),
        None => Err(LineFault::Form),
    }
}

// What a crash does.
fn crash_fault(crash: &CrashForm, plan: &Plan, nodes: u16) -> Result<Fault, LineFault>
    ensures { result ≡ crash_fault plan.now nodes (crash_held crash.now) }
{
    if crash_within(crash, plan.iterations, nodes) {
        Ok(crashed(crash))
    } else {
        Err(LineFault::Range)
    }
}

// Whether each number of a crash is in range.
#[tactic(auto, unfolding(crate::specs::Meaning::crash_within))]
fn crash_within(crash: &CrashForm, iterations: u64, nodes: u16) -> bool
    ensures exact { result ≡ crash_within iterations nodes (crash_held crash.now) }
    ensures within { OnTrue result (CrashInRange (crash_held crash.now)) }
{
    crash.replica < 2 && crash.node < u128::from(nodes) && crash.at < u128::from(iterations)
}

// The fault of a crash whose numbers are in range.
fn crashed(crash: &CrashForm) -> Fault
    requires { CrashInRange (crash_held crash.now) }
    ensures { result ≡ crashed (crash_held crash.now) }
{
    Fault::Crash {
        slot: SlotId {
            replica: crash.replica as u8,
            node: crash.node as u16,
        },
        at: crash.at as u64,
    }
}

// What a flip does.
fn flip_fault(flip: &FlipForm<'_>, plan: &Plan) -> Result<Fault, LineFault>
    ensures { result ≡ flip_fault plan.now (flip_held flip.now) }
{
    let Some(array) = array_called(flip.element.array, plan.arrays.as_slice()) else {
        return Err(LineFault::NoSuch);
    };
    let Some(state) = state_called(flip.cell.state, array.states.as_slice()) else {
        return Err(LineFault::NoSuch);
    };
    if !is_there(flip, array, state) {
        return Err(LineFault::NoSuch);
    }
    if flip_within(flip, array, state, plan.iterations) {
        Ok(flipped(flip, array, state))
    } else {
        Err(LineFault::Range)
    }
}

// The array of this name.
fn array_called<'a>(name: &[u8], arrays: &'a [Array]) -> Option<&'a Array>
    ensures { option_map (λ a. a.now) result ≡ array_called name.now arrays.now }
{
    arrays
        .iter()
        .find(|array| same(name, array.name.as_slice()))
}

// The state of this name.
fn state_called<'a>(name: &[u8], states: &'a [State]) -> Option<&'a State>
    ensures { option_map (λ s. s.now) result ≡ state_called name.now states.now }
{
    states
        .iter()
        .find(|state| same(name, state.name.as_slice()))
}

// Whether a flip names its element and its cell as the array and the state want them named.
fn is_there(flip: &FlipForm<'_>, array: &Array, state: &State) -> bool
    ensures { result ≡ is_there (flip_held flip.now) array.now state.now }
{
    is_named(array.flat, &flip.element) && is_indexed(state.plain, &flip.cell)
}

// Whether an element has as many coordinates as an array of one dimension, or of two.
fn is_named(flat: bool, element: &ElementForm<'_>) -> bool
    ensures { result ≡ is_named flat (element_held element.now) }
{
    if flat {
        element.second.is_none()
    } else {
        element.second.is_some()
    }
}

// Whether a cell is given by its number exactly where its state isn't named without one.
fn is_indexed(plain: bool, cell: &CellForm<'_>) -> bool
    ensures { result ≡ is_indexed plain (cell_held cell.now) }
{
    if plain {
        cell.place.is_none()
    } else {
        cell.place.is_some()
    }
}

// Whether each number of a flip is in range.
#[tactic(auto, unfolding(crate::specs::Meaning::flip_within))]
fn flip_within(flip: &FlipForm<'_>, array: &Array, state: &State, iterations: u64) -> bool
    ensures exact { result ≡ flip_within iterations (flip_held flip.now) array.now state.now }
    ensures within { OnTrue result (InRange (flip_held flip.now) array.now state.now) }
{
    flip.replica < 2
        && row(&flip.element) < u128::from(array.rows)
        && col(&flip.element) < u128::from(array.cols)
        && place(&flip.cell) < u128::from(state.cells)
        && 0 < flip.mask
        && flip.mask < TOO_LARGE
        && flip.at < u128::from(iterations)
}

// The row of an element, which is 0 where it has one coordinate.
fn row(element: &ElementForm<'_>) -> u128
    ensures { result ≡ row (element_held element.now) }
{
    match element.second {
        Some(_) => element.first,
        None => 0,
    }
}

// The column of an element.
fn col(element: &ElementForm<'_>) -> u128
    ensures { result ≡ col (element_held element.now) }
{
    element.second.unwrap_or(element.first)
}

// The number of a cell within its state, which is 0 where none is given.
fn place(cell: &CellForm<'_>) -> u128
    ensures { result ≡ place (cell_held cell.now) }
{
    cell.place.unwrap_or(0)
}

// The fault of a flip whose numbers are in range.
fn flipped(flip: &FlipForm<'_>, array: &Array, state: &State) -> Fault
    requires within { InRange (flip_held flip.now) array.now state.now }
    requires cell { state.now.at + state.now.cells ≤ 4096 }
    requires element { array.now.first + size_of array.now ≤ 4096 }
    ensures { result ≡ flipped (flip_held flip.now) array.now state.now }
{
    Fault::Flip {
        replica: flip.replica as u8,
        element: element_at(array, row(&flip.element), col(&flip.element)),
        cell: state.at + place(&flip.cell) as u32,
        mask: flip.mask as u64,
        at: flip.at as u64,
    }
}

// The element of an array at a row and a column.
#[tactic(auto, using(chare_base::proofs::Grid::index_within))]
fn element_at(array: &Array, row: u128, col: u128) -> ElementId
    requires row { row < array.now.rows }
    requires col { col < array.now.cols }
    requires element { array.now.first + size_of array.now ≤ 4096 }
    ensures { result ≡ record { 0 = array.now.first + row * array.now.cols + col } }
{
    ElementId(array.first + row as u32 * array.cols + col as u32)
}
