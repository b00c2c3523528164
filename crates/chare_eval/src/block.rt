//! What a block does to an element, and what it sends.

ghost use Rattle.std.specs.Prelude.{◌≡◌, ◌<◌, ◌≤◌, ◌+◌, ◌/◌, ◌%◌, ◌++◌, ◌&&◌, ◌==◌, length, map, nat_lt, if◌then◌else◌, slice_set, vec_len, vec_capacity, OnOk, OnErr};
ghost use Rattle.std.specs.Int.{w64, int_wrap};
ghost use Rattle.chare_base.specs.Elements.{elements, place_of, cols_at, cells_of, steps_of, parts_at};
ghost use Rattle.chare_base.specs.Entries.{target_of};
ghost use Rattle.chare_eval.specs.declared.value.Scene.{Scene as Scenes};
ghost use Rattle.chare_eval.specs.Block.{act, block, block_runs, filled_of, in_order, payload_of, quiet, scene_of, slip_after, top_acts, with_loop, with_values, written, written_in};
ghost use Rattle.chare_eval.specs.Value.{least_kind, write};

use crate::arithmetic::{WRITE, least_kind};
use crate::effects::{Effects, Outgoing};
use crate::value::{Computed, Scene, operand};
use chare_base::cells::{Cells, Slip};
use chare_base::expression::Expr;
use chare_base::memory::Memory;
use chare_base::message::{EntryId, Payload};
use chare_base::plan::{ElementId, Place, Plan, Spot, Stmt};
use sqlite_items::Items;
use std::alloc::Global;

/// Runs one part of one step of an element in an iteration, on its cells, where this payload came with the message
/// that the part needs (none where it needs none). What it sends is put behind what was sent before. A slip of the
/// part is kept in the cells where none is kept yet; of the same step and iteration the lesser kind stays.
///
/// `Memory`: an allocation was refused; all is as before. Memory is taken before anything changes, for one send for
/// each statement of the block at most: turns of a loop take none.
pub fn run_block(
    alloc: Global,
    plan: &Plan,
    e: ElementId,
    spot: Spot,
    iteration: u64,
    cells: &mut Cells,
    mail: &Payload,
    effects: &mut Effects,
) -> Result<(), Memory>
    requires element { e.0 < elements plan.now }
    requires step { spot.step < length (steps_of plan.now e.0) }
    requires part { spot.part < length (parts_at plan.now e.0 spot.step) }
    requires cells { length cells.old.numbers ≡ cells_of plan.now e.0 }
    ensures cells { OnOk result
        (cells.new ≡ (block plan.now e.0 spot.step spot.part iteration mail.now cells.old).cells) }
    ensures sent { OnOk result
        (effects.new ≡ effects.old ++ (block plan.now e.0 spot.step spot.part iteration mail.now
        cells.old).sent) }
    ensures err { OnErr result ((cells.new ≡ cells.old) × (effects.new ≡ effects.old)) }
{
    let _ = alloc;
    let place = plan.place(e);
    let found = plan.part_at(e, place, spot);
    let block = found.part.block.as_slice();
    run_part(
        plan, e, place, spot.step, iteration, found.cols, block, mail, cells, effects,
    )?;
    Ok(())
}

/// The same for a part that was found before, so that an element that keeps its place looks nothing up: the
/// element's place, how many columns its array has, and the part's block.
///
/// `Memory`: an allocation was refused; all is as before. Memory is taken before anything changes.
#[tactic(auto, unfolding(crate::specs::Block::scene_of))]
pub fn run_part(
    plan: &Plan,
    e: ElementId,
    place: Place,
    step: u8,
    iteration: u64,
    cols: u32,
    block: &[Stmt],
    payload: &Payload,
    cells: &mut Cells,
    effects: &mut Effects,
) -> Result<(), Memory>
    requires element { e.0 < elements plan.now }
    requires place { place ≡ place_of plan.now e.0 }
    requires cols { cols ≡ cols_at plan.now e.0 }
    ensures cells { OnOk result
        (cells.new ≡ (block_runs plan.now e.0 step iteration block.now payload.now
        (quiet cells.old)).cells) }
    ensures sent { OnOk result
        (effects.new ≡ effects.old ++ (block_runs plan.now e.0 step iteration block.now payload.now
        (quiet cells.old)).sent) }
    ensures err { OnErr result ((cells.new ≡ cells.old) × (effects.new ≡ effects.old)) }
{
    let sent = &mut effects.all;
    let scene = &mut effects.scene;
    run_with(
        plan, e, place, step, iteration, cols, block, payload, scene, cells, sent,
    )
}

// The same in a scene that is there, whatever it was before.
#[tactic(auto, unfolding(crate::specs::Block::scene_of))]
fn run_with(
    plan: &Plan,
    e: ElementId,
    place: Place,
    step: u8,
    iteration: u64,
    cols: u32,
    block: &[Stmt],
    payload: &Payload,
    scene: &mut Scene,
    cells: &mut Cells,
    sent: &mut Vec<Outgoing>,
) -> Result<(), Memory>
    requires element { e.0 < elements plan.now }
    requires place { place ≡ place_of plan.now e.0 }
    requires cols { cols ≡ cols_at plan.now e.0 }
    ensures cells { OnOk result
        (cells.new ≡ (block_runs plan.now e.0 step iteration block.now payload.now
        (quiet cells.old)).cells) }
    ensures sent { OnOk result
        (sent.new.items ≡ sent.old.items
        ++ (block_runs plan.now e.0 step iteration block.now payload.now (quiet cells.old)).sent) }
    ensures err { OnErr result ((cells.new ≡ cells.old) × (sent.new.items ≡ sent.old.items)) }
{
    scene.values = payload.values;
    run_in(
        plan, e, place, step, iteration, cols, block, scene, cells, sent,
    )
}

// The same in a scene that has the values of the message already, so that one scene serves many parts.
pub(crate) fn run_in(
    plan: &Plan,
    e: ElementId,
    place: Place,
    step: u8,
    iteration: u64,
    cols: u32,
    block: &[Stmt],
    scene: &mut Scene,
    cells: &mut Cells,
    sent: &mut Vec<Outgoing>,
) -> Result<(), Memory>
    requires element { e.0 < elements plan.now }
    requires place { place ≡ place_of plan.now e.0 }
    requires cols { cols ≡ cols_at plan.now e.0 }
    ensures cells { OnOk result
        (cells.new ≡ (block_runs plan.now e.0 step iteration block.now
        (with_values scene.old.values) (quiet cells.old)).cells) }
    ensures sent { OnOk result
        (sent.new.items ≡ sent.old.items
        ++ (block_runs plan.now e.0 step iteration block.now (with_values scene.old.values)
        (quiet cells.old)).sent) }
    ensures err { OnErr result ((cells.new ≡ cells.old) × (sent.new.items ≡ sent.old.items)) }
{
    sent.reserve(block.len())?;
    enter(scene, plan, e, place.index, cols, iteration);
    let mut kind = 0;
    run_top(
        plan,
        e,
        place.index,
        block,
        scene,
        &mut cells.numbers,
        &mut kind,
        sent,
    );
    note_slip(&mut cells.slip, kind, step, iteration);
    Ok(())
}

// The scene becomes an element's in an iteration, where no loop runs yet. The values stay.
#[tactic(auto, unfolding(crate::specs::Block::scene_of), using(crate::proofs::Scenes::cols_some))]
pub(crate) fn enter(
    scene: &mut Scene,
    plan: &Plan,
    e: ElementId,
    index: u32,
    cols: u32,
    iteration: u64,
)
    requires index { index ≡ (place_of plan.now e.0).index }
    requires cols { cols ≡ cols_at plan.now e.0 }
    ensures { scene.new ≡ scene_of plan.now e.0 iteration (with_values scene.old.values) }
{
    let (row, col) = row_and_col(index, cols);
    scene.index = index;
    scene.row = row;
    scene.col = col;
    scene.which = 0;
    scene.iteration = iteration;
    scene.loops.forget();
}

// The row and the column of an index. In the first row there is nothing to divide.
#[tactic(auto, using(crate::proofs::Scenes::first_row, crate::proofs::Scenes::first_col))]
fn row_and_col(index: u32, cols: u32) -> (u32, u32)
    requires { 0 < cols }
    ensures row { result.0 ≡ index / cols }
    ensures col { result.1 ≡ index % cols }
{
    if index < cols {
        (0, index)
    } else {
        (index / cols, index % cols)
    }
}

// Keeps the slip that is kept after one of this kind. Most blocks have none, and write nothing.
fn note_slip(kept: &mut Slip, kind: u8, step: u8, iteration: u64)
    ensures { kept.new ≡ slip_after step iteration kind kept.old }
{
    if kind != 0 {
        *kept = slip_after(*kept, kind, step, iteration);
    }
}

// The slip that is kept.
fn slip_after(kept: Slip, kind: u8, step: u8, iteration: u64) -> Slip
    ensures { result ≡ slip_after step iteration kind kept }
{
    if kind == 0 {
        kept
    } else if kept.kind == 0 {
        Slip {
            kind,
            step,
            iteration,
        }
    } else if kept.step == step && kept.iteration == iteration {
        Slip {
            kind: least_kind(kept.kind, kind),
            step,
            iteration,
        }
    } else {
        kept
    }
}

// Runs the statements of a block in order, where there is room for what each may send.
fn run_top(
    plan: &Plan,
    e: ElementId,
    index: u32,
    block: &[Stmt],
    scene: &mut Scene,
    cells: &mut Items<i64>,
    slip: &mut u8,
    sent: &mut Vec<Outgoing>,
)
    requires element { e.0 < elements plan.now }
    requires index { index ≡ (place_of plan.now e.0).index }
    requires room { vec_len sent.old + length block.now ≤ vec_capacity sent.old }
    ensures { record {
      run = record { scene = scene.new; cells = cells.new; slip = slip.new };
      sent = sent.new.items;
    } ≡ top_acts plan.now e.0 block.now
        (record {
          run = record { scene = scene.old; cells = cells.old; slip = slip.old };
          sent = sent.old.items;
        }) }
{
    for stmt in block {
        match stmt {
            Stmt::Send { entry, values } => {
                let payload = payload_of(values.as_slice(), scene, cells.as_slice(), slip);
                if let Some(to) = target(plan, *entry, e, index) {
                    sent.push(Outgoing::Parcel {
                        entry: *entry,
                        to,
                        payload,
                    })
                    .unwrap();
                }
            }
            Stmt::Contribute {
                reduction,
                value: e,
            } => {
                let computed = operand(e, scene, cells.as_slice());
                *slip = least_kind(*slip, computed.slip);
                sent.push(Outgoing::Contribution {
                    reduction: *reduction,
                    value: computed.value,
                })
                .unwrap();
            }
            _ => run_one(stmt, scene, cells, slip),
        }
    }
}

// The element that gets what an element sends at an entry, if there is one.
#[tactic(auto, unfolding(chare_base::specs::Entries::target_of))]
fn target(plan: &Plan, entry: EntryId, e: ElementId, index: u32) -> Option<ElementId>
    requires element { e.0 < elements plan.now }
    requires index { index ≡ (place_of plan.now e.0).index }
    ensures { result ≡ target_of plan.now entry.0 e.0 }
{
    if (entry.0 as usize) < plan.entries.len() {
        plan.target_at(entry, e, index)
    } else {
        None
    }
}

// What expressions compute, as a payload.
fn payload_of(values: &[Expr], scene: &Scene, cells: &[i64], slip: &mut u8) -> Payload
    ensures payload { result ≡ payload_of values.now
        (filled_of values.now (record { scene = scene.now; cells = cells.now; slip = slip.old })) }
    ensures slip { slip.new ≡ (filled_of values.now
        (record { scene = scene.now; cells = cells.now; slip = slip.old })).slip }
{
    let filled = filled(values, scene, cells, slip);
    Payload {
        count: values.len().min(8) as u8,
        values: filled,
    }
}

// What expressions compute, 0 behind the last.
fn filled(values: &[Expr], scene: &Scene, cells: &[i64], slip: &mut u8) -> [i64; 8]
    ensures { record { values = result; slip = slip.new }
        ≡ filled_of values.now (record { scene = scene.now; cells = cells.now; slip = slip.old }) }
{
    let mut filled = [0; 8];
    for (i, e) in values.iter().enumerate() {
        let computed = operand(e, scene, cells);
        *slip = least_kind(*slip, computed.slip);
        put(&mut filled, i, computed.value);
    }
    filled
}

/// Writes a value at a place, where there is one.
pub(crate) fn put(values: &mut [i64], i: usize, value: i64)
    ensures { values.new ≡ slice_set values.old i value }
{
    if i < values.len() {
        values[i] = value;
    }
}

// Runs statements in order.
#[cycle(statements)]
fn run_all(block: &[Stmt], scene: &mut Scene, cells: &mut Items<i64>, slip: &mut u8)
    ensures { record { scene = scene.new; cells = cells.new; slip = slip.new }
        ≡ in_order (map act block.now)
        (record { scene = scene.old; cells = cells.old; slip = slip.old }) }
{
    for stmt in block {
        run_one(stmt, scene, cells, slip);
    }
}

// Runs one statement. A send or a contribution does nothing here, since it stands directly in a block.
#[cycle(statements)]
fn run_one(stmt: &Stmt, scene: &mut Scene, cells: &mut Items<i64>, slip: &mut u8)
    ensures { record { scene = scene.new; cells = cells.new; slip = slip.new }
        ≡ act stmt.now (record { scene = scene.old; cells = cells.old; slip = slip.old }) }
{
    match stmt {
        Stmt::Set { cell, value: e } => {
            let computed = operand(e, scene, cells.as_slice());
            write(cells, slip, *cell as usize, computed);
        }
        Stmt::SetAt {
            at,
            cells: count,
            place,
            value: e,
        } => {
            let place = operand(place, scene, cells.as_slice());
            let computed = operand(e, scene, cells.as_slice());
            *slip = least_kind(*slip, place.slip);
            write_in(cells, slip, *at, *count, place.value, computed);
        }
        Stmt::If { test, yes, no } => {
            let test = operand(test, scene, cells.as_slice());
            *slip = least_kind(*slip, test.slip);
            if test.value != 0 {
                run_all(yes.as_slice(), scene, cells, slip);
            } else {
                run_all(no.as_slice(), scene, cells, slip);
            }
        }
        Stmt::For {
            slot,
            low,
            high,
            block,
        } => {
            for i in *low..*high {
                set_loop(scene, *slot, i);
                run_all(block.as_slice(), scene, cells, slip);
            }
        }
        Stmt::Send { .. } | Stmt::Contribute { .. } => {}
    }
}

// The loop's variable has a value.
fn set_loop(scene: &mut Scene, slot: u8, i: i64)
    ensures { scene.new ≡ record scene.old { loops = slice_set scene.old.loops slot i } }
{
    scene.loops.set(slot, i);
}

// Writes a value into a cell, where there is one.
fn write(cells: &mut Items<i64>, slip: &mut u8, at: usize, computed: Computed)
    ensures cells { cells.new ≡ slice_set cells.old at (int_wrap w64 computed.value) }
    ensures slip { slip.new ≡ (if nat_lt at (length cells.old) then least_kind slip.old
        computed.slip else least_kind (least_kind slip.old computed.slip) write) }
{
    *slip = least_kind(*slip, computed.slip);
    if at < cells.len() {
        cells.set(at, computed.value);
    } else {
        *slip = least_kind(*slip, WRITE);
    }
}

// Writes a value into a cell of a state, where there is one.
fn write_in(
    cells: &mut Items<i64>,
    slip: &mut u8,
    at: u32,
    count: u32,
    place: i64,
    computed: Computed,
)
    ensures { (scene : Scenes) → record { scene = scene; cells = cells.new; slip = slip.new }
        ≡ written_in at count place computed
        (record { scene = scene; cells = cells.old; slip = slip.old }) }
{
    if 0 <= place && place < i64::from(count) {
        write(cells, slip, at as usize + place as usize, computed);
    } else {
        *slip = least_kind(least_kind(*slip, computed.slip), WRITE);
    }
}
