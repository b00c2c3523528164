//! The plans of arrays and their states.

ghost use Rattle.std.specs.Prelude.{◌≡◌, IfOk};
ghost use Rattle.job_rules.specs.PlannedArrays.{array_planned, array_with, arrays_from, cols_planned, rows_planned, size_planned, state_planned, states_planned};

use crate::numbers::narrow32;
use crate::planning::expressions::plan_expr;
use crate::planning::steps::plan_steps;
use crate::tables::cells_written;
use crate::walk::Scope;
use chare_base::bytes::Name;
use chare_base::memory::Memory;
use chare_base::plan::{Array, State};
use job_rules::names::{Names, bytes_at};
use job_rules::tables::JobNames;
use job_tree::tree::{ArrayDecl, Coordinates, StateDecl};
use sqlite_items::Items;
use std::alloc::Global;

/// The plans of a job's arrays, whose elements are numbered one after another.
pub(crate) fn plan_arrays(
    alloc: Global,
    text: &[u8],
    names: &JobNames,
    arrays: &[ArrayDecl],
) -> Result<Items<Array>, Memory>
    ensures { IfOk result (λ planned. planned ≡ arrays_from text.now names.now 0 0 arrays.now) }
{
    let mut planned = Items::new(alloc);
    let mut first = 0u32;
    for (number, array) in arrays.iter().enumerate() {
        planned.push(plan_array(alloc, text, names, number, first, array)?)?;
        first = first.saturating_add(size(array.sizes));
    }
    Ok(planned)
}

// The plan of the array of this number.
fn plan_array(
    alloc: Global,
    text: &[u8],
    names: &JobNames,
    number: usize,
    first: u32,
    array: &ArrayDecl,
) -> Result<Array, Memory>
    ensures { IfOk result (λ planned. planned
        ≡ array_planned text.now names.now number first array.now) }
{
    match names.tables.get(number) {
        Some(table) => plan_with(alloc, text, names, table, first, array),
        None => {
            let none = Names::new(alloc);
            let planned = plan_with(alloc, text, names, &none, first, array)?;
            Ok(planned)
        }
    }
}

// The plan of an array with these names.
fn plan_with(
    alloc: Global,
    text: &[u8],
    names: &JobNames,
    table: &Names,
    first: u32,
    array: &ArrayDecl,
) -> Result<Array, Memory>
    ensures { IfOk result (λ planned. planned
        ≡ array_with text.now names.now table.now first array.now) }
{
    let name = Name::from_slice(alloc, bytes_at(text, array.name))?;
    let states = plan_states(alloc, text, names, table, array.states.as_slice())?;
    let steps = plan_steps(alloc, text, names, table, array.steps.as_slice())?;
    Ok(Array {
        name,
        flat: array.sizes.second.is_none(),
        rows: rows(array.sizes),
        cols: cols(array.sizes),
        first,
        states,
        steps,
    })
}

// With one size there is one row.
fn rows(sizes: Coordinates) -> u32
    ensures { result ≡ rows_planned sizes }
{
    match sizes.second {
        Some(_) => narrow32(sizes.first.value),
        None => 1,
    }
}

fn cols(sizes: Coordinates) -> u32
    ensures { result ≡ cols_planned sizes }
{
    match sizes.second {
        Some(second) => narrow32(second.value),
        None => narrow32(sizes.first.value),
    }
}

fn size(sizes: Coordinates) -> u32
    ensures { result ≡ size_planned sizes }
{
    rows(sizes).saturating_mul(cols(sizes))
}

fn plan_states(
    alloc: Global,
    text: &[u8],
    names: &JobNames,
    table: &Names,
    states: &[StateDecl],
) -> Result<Items<State>, Memory>
    ensures { IfOk result (λ planned. planned ≡ states_planned text.now table.now 0 states.now) }
{
    let mut planned = Items::new(alloc);
    let mut at = 0u64;
    for state in states {
        planned.push(plan_state(alloc, text, names, table, at, state)?)?;
        at = at.saturating_add(cells_written(state.cells));
    }
    Ok(planned)
}

// The plan of a state whose first cell has this number.
fn plan_state(
    alloc: Global,
    text: &[u8],
    names: &JobNames,
    table: &Names,
    at: u64,
    state: &StateDecl,
) -> Result<State, Memory>
    ensures { IfOk result (λ planned. planned ≡ state_planned text.now table.now at state.now) }
{
    let name = Name::from_slice(alloc, bytes_at(text, state.name))?;
    let scope = Scope {
        text,
        names,
        table,
        params: &[],
    };
    let start = plan_expr(alloc, &scope, &[], &state.start)?;
    Ok(State {
        name,
        plain: state.cells.is_none(),
        at: narrow32(at),
        cells: narrow32(cells_written(state.cells)),
        start,
    })
}
