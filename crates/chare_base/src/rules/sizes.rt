//! The limits: counts, sizes and written numbers.

ghost use Rattle.std.specs.Prelude.{◌≡◌, ◌+◌, ◌*◌, ◌≤◌, IsTrue, nat_le, length};
ghost use Rattle.std.specs.List.{list_all};
ghost use Rattle.chare_base.specs.Sizes.{size_of, elements_in, cells_in, all_cells_in};
ghost use Rattle.chare_base.specs.Limits.{limits_hold, between, name_fits, state_fits, step_fits, shape_fits, states_fit, steps_fit, array_fits, arrays_fit, offset_fits, entry_fits, reduction_fits, entries_of, reductions_of, ports_fit, members_fit};

use crate::bytes::Name;
use crate::elements::{cells_in, size_of};
use crate::limits;
use crate::plan::{Answer, Array, Entry, Reduction, State, Step};

#[tactic(auto, unfolding(crate::specs::Limits::limits_hold))]
pub(crate) fn limits_hold(
    name: &Name,
    iterations: u64,
    arrays: &[Array],
    entries: &[Entry],
    reductions: &[Reduction],
    answers: &[Answer],
) -> bool
    ensures { result ≡ limits_hold name.now iterations arrays.now entries.now reductions.now
        answers.now }
{
    name_fits(name)
        && 1 <= iterations
        && iterations <= limits::ITERATIONS
        && arrays_fit(arrays)
        && between(1, limits::ANSWERS, answers.len())
        && members_fit(entries, reductions)
}

fn between(low: usize, high: usize, count: usize) -> bool
    ensures { result ≡ between low high count }
{
    low <= count && count <= high
}

fn name_fits(name: &Name) -> bool
    ensures { result ≡ name_fits name.now }
{
    between(1, limits::NAME_BYTES, name.as_slice().len())
}

fn arrays_fit(arrays: &[Array]) -> bool
    ensures { result ≡ arrays_fit arrays.now }
{
    between(1, limits::ARRAYS, arrays.len())
        && each_array_fits(arrays)
        && elements_fit(arrays)
        && all_cells_fit(arrays)
}

fn each_array_fits(arrays: &[Array]) -> bool
    ensures { result ≡ list_all array_fits arrays.now }
{
    arrays.iter().all(array_fits)
}

fn array_fits(array: &Array) -> bool
    ensures { result ≡ array_fits array.now }
{
    name_fits(&array.name)
        && shape_fits(array)
        && states_fit(array.states.as_slice())
        && steps_fit(array.steps.as_slice())
}

fn shape_fits(array: &Array) -> bool
    ensures { result ≡ shape_fits array.now }
{
    let most = limits::ELEMENTS as usize;
    between(1, most, array.rows as usize)
        && between(1, most, array.cols as usize)
        && (!array.flat || array.rows == 1)
        && array.rows.saturating_mul(array.cols) <= limits::ELEMENTS
}

// Whether the arrays have no more elements than a job may have.
#[tactic(auto, using(crate::proofs::Facts::size_few))]
fn elements_fit(arrays: &[Array]) -> bool
    requires { IsTrue (list_all array_fits arrays.now) }
    ensures { result ≡ nat_le (elements_in arrays.now) 4096 }
{
    let mut left = limits::ELEMENTS;
    for array in arrays {
        let size = size_of(array);
        if left < size {
            return false;
        }
        left -= size;
    }
    true
}

// Whether all elements of the arrays have no more cells than those of a job may have.
fn all_cells_fit(arrays: &[Array]) -> bool
    requires { IsTrue (list_all array_fits arrays.now) }
    ensures { result ≡ nat_le (all_cells_in arrays.now) 1048576 }
{
    let mut left = limits::ALL_CELLS;
    for array in arrays {
        let cells = all_cells(array);
        if left < cells {
            return false;
        }
        left -= cells;
    }
    true
}

// How many cells all elements of an array have.
#[tactic(auto, using(crate::proofs::Facts::size_few, crate::proofs::Facts::cells_in_few, crate::proofs::Facts::product_few))]
fn all_cells(array: &Array) -> u64
    requires { IsTrue (array_fits array.now) }
    ensures { result ≡ size_of array.now * cells_in array.now.states }
{
    let size = size_of(array);
    let cells = cells_in(array.states.as_slice());
    u64::from(size) * u64::from(cells)
}

fn states_fit(states: &[State]) -> bool
    ensures { result ≡ states_fit states.now }
{
    between(1, limits::STATES, states.len()) && each_state_fits(states) && cells_fit(states)
}

fn each_state_fits(states: &[State]) -> bool
    ensures { result ≡ list_all state_fits states.now }
{
    states.iter().all(state_fits)
}

fn state_fits(state: &State) -> bool
    ensures { result ≡ state_fits state.now }
{
    name_fits(&state.name)
        && between(1, limits::CELLS as usize, state.cells as usize)
        && (!state.plain || state.cells == 1)
}

// Whether the states have no more cells than an element may have.
fn cells_fit(states: &[State]) -> bool
    ensures { result ≡ nat_le (cells_in states.now) 4096 }
{
    let mut left = limits::CELLS;
    for state in states {
        if left < state.cells {
            return false;
        }
        left -= state.cells;
    }
    true
}

fn steps_fit(steps: &[Step]) -> bool
    ensures { result ≡ steps_fit steps.now }
{
    between(1, limits::STEPS, steps.len()) && each_step_fits(steps)
}

fn each_step_fits(steps: &[Step]) -> bool
    ensures { result ≡ list_all step_fits steps.now }
{
    steps
        .iter()
        .all(|step| between(1, limits::PARTS, step.parts.len()))
}

fn members_fit(entries: &[Entry], reductions: &[Reduction]) -> bool
    ensures { result ≡ members_fit entries.now reductions.now }
{
    each_entry_fits(entries)
        && each_reduction_fits(reductions)
        && entry_owners_fit(entries, reductions)
        && reduction_owners_fit(entries, reductions)
}

fn each_entry_fits(entries: &[Entry]) -> bool
    ensures { result ≡ list_all entry_fits entries.now }
{
    entries.iter().all(entry_fits)
}

fn entry_fits(entry: &Entry) -> bool
    ensures { result ≡ entry_fits entry.now }
{
    name_fits(&entry.name)
        && offset_fits(entry.down)
        && offset_fits(entry.across)
        && between(1, limits::VALUES, entry.values as usize)
}

fn offset_fits(offset: i8) -> bool
    ensures { result ≡ offset_fits offset }
{
    -limits::OFFSET <= offset && offset <= limits::OFFSET
}

fn each_reduction_fits(reductions: &[Reduction]) -> bool
    ensures { result ≡ list_all reduction_fits reductions.now }
{
    reductions
        .iter()
        .all(|reduction| name_fits(&reduction.name))
}

fn entry_owners_fit(entries: &[Entry], reductions: &[Reduction]) -> bool
    ensures { result ≡ list_all (λ e. ports_fit entries.now reductions.now e.owner) entries.now }
{
    entries
        .iter()
        .all(|entry| ports_fit(entries, reductions, entry.owner))
}

fn reduction_owners_fit(entries: &[Entry], reductions: &[Reduction]) -> bool
    ensures { result ≡ list_all (λ r. ports_fit entries.now reductions.now r.owner) reductions.now }
{
    reductions.iter().all(|reduction| ports_fit(entries, reductions, reduction.owner))
}

fn ports_fit(entries: &[Entry], reductions: &[Reduction], array: u16) -> bool
    ensures { result ≡ ports_fit entries.now reductions.now array }
{
    let owned = entries_of(array, entries);
    owned <= limits::PORTS && reductions_of(array, reductions) <= limits::PORTS - owned
}

// How many entries an array has.
fn entries_of(array: u16, entries: &[Entry]) -> usize
    ensures { result ≡ entries_of array entries.now }
{
    let mut count = 0;
    for entry in entries {
        if entry.owner == array {
            count += 1;
        }
    }
    count
}

// How many reductions an array has.
fn reductions_of(array: u16, reductions: &[Reduction]) -> usize
    ensures { result ≡ reductions_of array reductions.now }
{
    let mut count = 0;
    for reduction in reductions {
        if reduction.owner == array {
            count += 1;
        }
    }
    count
}
