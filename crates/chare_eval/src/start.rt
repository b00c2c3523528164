//! The opening: each element before iteration 0.

ghost use Rattle.std.specs.Prelude.{◌≡◌, ◌<◌, ◌++◌, pos, replicate, OnOk, IfOk};
ghost use Rattle.chare_base.specs.Elements.{elements};
ghost use Rattle.chare_eval.specs.Opening.{cell_starts, start_of, start_value, starts};

use crate::block::enter;
use crate::loops::Loops;
use crate::value::{Scene, value};
use chare_base::cells::{Cells, Slip};
use chare_base::expression::Expr;
use chare_base::memory::Memory;
use chare_base::plan::{ElementId, Plan, State};
use sqlite_items::Items;
use std::alloc::Global;

/// The cells of an element before iteration 0, each by its state's initial value, and no slip.
///
/// `Memory`: an allocation was refused.
#[tactic(auto, unfolding(crate::specs::Opening::start_of, crate::specs::Block::scene_of))]
pub fn start_cells(alloc: Global, plan: &Plan, e: ElementId) -> Result<Cells, Memory>
    requires { e.0 < elements plan.now }
    ensures { IfOk result (λ cells. cells ≡ start_of plan.now e.0) }
{
    let place = plan.place(e);
    let array = plan.array_at(e, place);
    let mut scene = Scene::new();
    enter(&mut scene, plan, e, place.index, array.cols, 0);
    let numbers = start_values(alloc, &scene, array.states.as_slice())?;
    Ok(Cells {
        numbers: Items::from_vec(numbers),
        slip: Slip::NONE,
    })
}

// The initial values of all states.
fn start_values(alloc: Global, scene: &Scene, states: &[State]) -> Result<Vec<i64>, Memory>
    requires { scene.now.loops ≡ replicate 32 (pos 0) }
    ensures { IfOk result (λ values. values.items ≡ starts scene.now states.now) }
{
    let mut values = Vec::with_capacity(alloc, states.len())?;
    for state in states {
        push_starts(scene, &state.start, state.cells, &mut values)?;
    }
    Ok(values)
}

// The initial values of one state's cells, put behind others.
fn push_starts(scene: &Scene, start: &Expr, cells: u32, values: &mut Vec<i64>) -> Result<(), Memory>
    requires { scene.now.loops ≡ replicate 32 (pos 0) }
    ensures { OnOk result (values.new.items ≡ values.old.items
        ++ cell_starts scene.now start.now 0 cells) }
{
    for which in 0..cells {
        values.push(start_value(scene, start, which))?;
    }
    Ok(())
}

// The initial value of the cell of this number within its state.
fn start_value(scene: &Scene, start: &Expr, which: u32) -> i64
    requires { scene.now.loops ≡ replicate 32 (pos 0) }
    ensures { result ≡ start_value scene.now start.now which }
{
    let scene = Scene {
        index: scene.index,
        row: scene.row,
        col: scene.col,
        which,
        iteration: scene.iteration,
        values: scene.values,
        loops: Loops::new(),
    };
    value(start, &scene, &[]).value
}
