//! The run without faults, of one copy of a job.

ghost use Rattle.std.specs.Prelude.{◌≡◌, ◌<◌, ◌++◌, [], length, slice_get, OnOk, IfOk};
ghost use Rattle.std.specs.Option.{option_map_or};
ghost use Rattle.chare_base.specs.Elements.{elements, place_of, cols_at, parts_at, steps_in_round};
ghost use Rattle.chare_base.specs.Shape.{Shaped};
ghost use Rattle.chare_base.specs.declared.plan.Step.{Step as Steps};
ghost use Rattle.chare_eval.specs.Fold.{plain};
ghost use Rattle.chare_eval.specs.Opening.{opening};
ghost use Rattle.chare_eval.specs.Stage.{parts_run, step_of};
ghost use Rattle.chare_eval.specs.Tables.{box_of, elements_run, round_runs, rounds_run, steps_run, tables_of};

use crate::block::run_in;
use crate::effects::Outgoing;
use crate::laws::fold_is_shaped;
use crate::start::start_cells;
use crate::tables::Mail;
use crate::value::Scene;
use chare_base::cells::{Cells, CellsList};
use chare_base::memory::Memory;
use chare_base::plan::{Array, ElementId, Part, Place, Plan};
use std::alloc::Global;

/// The states of all elements after all iterations, where no fault strikes: step by step, and in each step in element
/// order.
///
/// `Memory`: an allocation was refused.
pub fn plain_run(alloc: Global, plan: &Plan) -> Result<CellsList, Memory>
    ensures states { IfOk result (λ all. all ≡ plain plan.now plan.now.iterations) }
    ensures shape { IfOk result (λ all. Shaped plan.now all) }
{
    // So the last states are shaped too.
    fold_is_shaped();
    let mut all = start_all(alloc, plan)?;
    let mut mail = Mail::new(alloc, plan)?;
    let mut sent = Vec::new(alloc);
    run_rounds(
        plan,
        all.as_mut_slice(),
        &mut mail,
        &mut Scene::new(),
        &mut sent,
    )?;
    Ok(CellsList::from_vec(all))
}

// All elements before iteration 0.
#[tactic(auto, unfolding(crate::specs::Opening::opening))]
fn start_all(alloc: Global, plan: &Plan) -> Result<Vec<Cells>, Memory>
    ensures { IfOk result (λ all. all.items ≡ opening plan.now) }
{
    let elements = plan.elements();
    let mut all = Vec::with_capacity(alloc, elements as usize)?;
    for e in 0..elements {
        all.push(start_cells(alloc, plan, ElementId(e))?)?;
    }
    Ok(all)
}

// Runs all iterations.
#[tactic(auto, unfolding(crate::specs::Tables::rounds_run))]
fn run_rounds(
    plan: &Plan,
    all: &mut [Cells],
    mail: &mut Mail,
    scene: &mut Scene,
    sent: &mut Vec<Outgoing>,
) -> Result<(), Memory>
    requires { length all.old ≡ elements plan.now }
    ensures { OnOk result (record { states = all.new; tables = tables_of mail.new }
        ≡ rounds_run plan.now plan.now.iterations
        (record { states = all.old; tables = tables_of mail.old })) }
{
    for k in 0..plan.iterations {
        run_round(plan, k, all, mail, scene, sent)?;
    }
    Ok(())
}

// Runs an iteration.
fn run_round(
    plan: &Plan,
    k: u64,
    all: &mut [Cells],
    mail: &mut Mail,
    scene: &mut Scene,
    sent: &mut Vec<Outgoing>,
) -> Result<(), Memory>
    requires { length all.old ≡ elements plan.now }
    ensures { OnOk result (record { states = all.new; tables = tables_of mail.new }
        ≡ round_runs plan.now k (record { states = all.old; tables = tables_of mail.old })) }
{
    mail.begin(plan)?;
    run_steps(plan, k, all, mail, scene, sent)
}

// Runs all steps of an iteration.
#[tactic(auto, unfolding(crate::specs::Tables::steps_run))]
fn run_steps(
    plan: &Plan,
    k: u64,
    all: &mut [Cells],
    mail: &mut Mail,
    scene: &mut Scene,
    sent: &mut Vec<Outgoing>,
) -> Result<(), Memory>
    requires { length all.old ≡ elements plan.now }
    ensures { OnOk result (record { states = all.new; tables = tables_of mail.new }
        ≡ steps_run plan.now k (steps_in_round plan.now)
        (record { states = all.old; tables = tables_of mail.old })) }
{
    for s in 0..plan.steps_in_round() {
        run_elements(plan, s, k, all, mail, scene, sent)?;
    }
    Ok(())
}

// Runs a step of all elements, in element order.
#[tactic(auto, unfolding(crate::specs::Tables::elements_run))]
fn run_elements(
    plan: &Plan,
    s: u8,
    k: u64,
    all: &mut [Cells],
    mail: &mut Mail,
    scene: &mut Scene,
    sent: &mut Vec<Outgoing>,
) -> Result<(), Memory>
    requires { length all.old ≡ elements plan.now }
    ensures { OnOk result (record { states = all.new; tables = tables_of mail.new }
        ≡ elements_run plan.now s k (elements plan.now)
        (record { states = all.old; tables = tables_of mail.old })) }
{
    for e in 0..plan.elements() {
        run_step(
            plan,
            ElementId(e),
            s,
            k,
            mail,
            &mut all[e as usize],
            scene,
            sent,
        )?;
        mail.deliver(sent.as_slice())?;
    }
    Ok(())
}

// Runs a step of an element, with what came to it.
fn run_step(
    plan: &Plan,
    e: ElementId,
    s: u8,
    k: u64,
    mail: &Mail,
    cells: &mut Cells,
    scene: &mut Scene,
    sent: &mut Vec<Outgoing>,
) -> Result<(), Memory>
    requires { e.0 < elements plan.now }
    ensures { OnOk result (record { cells = cells.new; sent = sent.new.items }
        ≡ step_of plan.now s k e.0 (box_of plan.now (tables_of mail.now) e.0) cells.old) }
{
    let place = plan.place(e);
    let array = plan.array_at(e, place);
    sent.clear();
    run_parts(
        plan,
        e,
        place,
        array.cols,
        s,
        k,
        parts_of(array, s),
        mail,
        cells,
        scene,
        sent,
    )
}

// The parts of a step of an array's elements, none where there is no such step.
fn parts_of(array: &Array, s: u8) -> &[Part]
    ensures { result.now ≡ option_map_or (λ (step : Steps). step.parts)
        (slice_get array.now.steps s) [] }
{
    match array.steps.get(s as usize) {
        Some(step) => step.parts.as_slice(),
        None => &[],
    }
}

// Runs parts in order, each with what it needs.
#[tactic(auto, unfolding(crate::specs::Block::scene_of))]
fn run_parts(
    plan: &Plan,
    e: ElementId,
    place: Place,
    cols: u32,
    s: u8,
    k: u64,
    parts: &[Part],
    mail: &Mail,
    cells: &mut Cells,
    scene: &mut Scene,
    sent: &mut Vec<Outgoing>,
) -> Result<(), Memory>
    requires element { e.0 < elements plan.now }
    requires place { place ≡ place_of plan.now e.0 }
    requires cols { cols ≡ cols_at plan.now e.0 }
    ensures { OnOk result (record { cells = cells.new; sent = sent.new.items }
        ≡ parts_run plan.now e.0 s k (box_of plan.now (tables_of mail.now) e.0) parts.now
        (record { cells = cells.old; sent = sent.old.items })) }
{
    for part in parts {
        mail.give(plan, e, place.index, part.need, &mut scene.values);
        let block = part.block.as_slice();
        run_in(plan, e, place, s, k, cols, block, scene, cells, sent)?;
    }
    Ok(())
}
