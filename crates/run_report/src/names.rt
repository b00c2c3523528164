//! How a report names elements and cells.

ghost use Rattle.std.specs.Prelude.{◌≡◌, ◌++◌, ◌≤◌, OnOk};
ghost use Rattle.run_report.specs.Names.{cell_name, coordinates, element_name};

use crate::lines::put_number;
use chare_base::bytes::Bytes;
use chare_base::memory::Memory;
use chare_base::plan::{Array, ElementId, Plan, State};
use std::alloc::Global;

// `ARRAY[INDEX]` or `ARRAY[ROW,COLUMN]`
#[tactic(auto, unfolding(crate::specs::Names::element_name), using(crate::proofs::Sides::cols_some))]
pub(crate) fn put_element(
    alloc: Global,
    out: &mut Bytes,
    plan: &Plan,
    e: ElementId,
) -> Result<(), Memory>
    ensures { OnOk result (out.new ≡ out.old ++ element_name plan.now e.0) }
{
    let place = plan.place(e);
    let Some(array) = plan.arrays.get(place.array as usize) else {
        return Ok(());
    };
    out.extend(array.name.as_slice())?;
    out.extend(b"[")?;
    put_coordinates(alloc, out, array, place.index)?;
    out.extend(b"]")?;
    Ok(())
}

// `INDEX` or `ROW,COLUMN`
fn put_coordinates(alloc: Global, out: &mut Bytes, array: &Array, index: u32) -> Result<(), Memory>
    requires { 1 ≤ array.now.cols }
    ensures { OnOk result (out.new ≡ out.old ++ coordinates array.now.flat index array.now.cols) }
{
    if array.flat {
        put_number(alloc, out, u64::from(index))?;
        return Ok(());
    }
    put_number(alloc, out, u64::from(index / array.cols))?;
    out.extend(b",")?;
    put_number(alloc, out, u64::from(index % array.cols))?;
    Ok(())
}

// `STATE`, or `STATE[PLACE]` where the state is named with an index
#[tactic(auto, unfolding(crate::specs::Names::cell_name))]
pub(crate) fn put_cell(
    alloc: Global,
    out: &mut Bytes,
    state: &State,
    cell: u32,
) -> Result<(), Memory>
    ensures { OnOk result (out.new ≡ out.old ++ cell_name state.now cell) }
{
    out.extend(state.name.as_slice())?;
    if state.plain {
        return Ok(());
    }
    out.extend(b"[")?;
    put_number(alloc, out, u64::from(cell.saturating_sub(state.at)))?;
    out.extend(b"]")?;
    Ok(())
}
