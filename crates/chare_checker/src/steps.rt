//! The walk over the initial values and the steps of a job, in text order.

ghost use Rattle.std.specs.Prelude.{◌≡◌, ◌∷◌, IfOk, OnOk};
ghost use Rattle.job_rules.specs.Steps.{array_walked, array_with, arrays_walked, body_walked, free_part, job_walked, param_walked, params_walked, part_at, part_walked, part_with, parts_walked, port_named, start_walked, starts_walked, step_closed, step_walked, steps_walked, when_walked};

use crate::expressions::walk_value;
use crate::overlap::overlap_fault;
use crate::statements::{is_number, mismatch_fault, port_use, walk_block};
use crate::walk::Scope;
use chare_base::memory::Memory;
use job_rules::fault::{CheckFault, fault_if, name_fault};
use job_rules::names::{Meaning, Names, local_named, names_listed};
use job_rules::notes::Notes;
use job_rules::tables::JobNames;
use job_rules::walk::{PartAt, Site};
use job_tree::token::Span;
use job_tree::tree::{ArrayDecl, Block, Job, PartDecl, StateDecl, StepBody, StepDecl};
use sqlite_items::Items;
use std::alloc::Global;

/// Walks over a job, whose names are these.
///
/// `Memory`: an allocation was refused; the notes keep what was noted before.
#[tactic(auto, unfolding(job_rules::specs::Steps::job_walked))]
pub(crate) fn walk_job(
    alloc: Global,
    text: &[u8],
    names: &JobNames,
    job: &Job,
    notes: &mut Notes,
) -> Result<(), Memory>
    ensures { OnOk result (notes.new ≡ job_walked text.now names.now job.now notes.old) }
{
    walk_arrays(alloc, text, names, job.arrays.as_slice(), notes)?;
    Ok(())
}

fn walk_arrays(
    alloc: Global,
    text: &[u8],
    names: &JobNames,
    arrays: &[ArrayDecl],
    notes: &mut Notes,
) -> Result<(), Memory>
    ensures { OnOk result (notes.new ≡ arrays_walked text.now names.now 0 arrays.now notes.old) }
{
    for (number, array) in arrays.iter().enumerate() {
        walk_array(alloc, text, names, number, array, notes)?;
    }
    Ok(())
}

fn walk_array(
    alloc: Global,
    text: &[u8],
    names: &JobNames,
    number: usize,
    array: &ArrayDecl,
    notes: &mut Notes,
) -> Result<(), Memory>
    ensures { OnOk result (notes.new ≡ array_walked text.now names.now number array.now notes.old) }
{
    match names.tables.get(number) {
        Some(table) => {
            let scope = Scope {
                text,
                names,
                table,
                params: &[],
            };
            walk_with(alloc, &scope, number, array, notes)?;
        }
        None => {
            let none = Names::new(alloc);
            let scope = Scope {
                text,
                names,
                table: &none,
                params: &[],
            };
            walk_with(alloc, &scope, number, array, notes)?;
        }
    }
    Ok(())
}

// An array with these names.
fn walk_with(
    alloc: Global,
    scope: &Scope,
    number: usize,
    array: &ArrayDecl,
    notes: &mut Notes,
) -> Result<(), Memory>
    ensures { OnOk result (notes.new
        ≡ array_with scope.now.text.now scope.now.names.now scope.now.table.now number array.now
        notes.old) }
{
    walk_starts(scope, array.states.as_slice(), notes)?;
    walk_steps(alloc, scope, number, array.steps.as_slice(), notes)?;
    Ok(())
}

fn walk_starts(scope: &Scope, states: &[StateDecl], notes: &mut Notes) -> Result<(), Memory>
    ensures { OnOk result (notes.new
        ≡ starts_walked scope.now.text.now scope.now.table.now states.now notes.old) }
{
    for state in states {
        walk_start(scope, state, notes)?;
    }
    Ok(())
}

fn walk_start(scope: &Scope, state: &StateDecl, notes: &mut Notes) -> Result<(), Memory>
    ensures { OnOk result (notes.new
        ≡ start_walked scope.now.text.now scope.now.table.now state.now notes.old) }
{
    let site = Site::Start {
        sized: state.cells.is_some(),
    };
    let scope = Scope {
        text: scope.text,
        names: scope.names,
        table: scope.table,
        params: &[],
    };
    walk_value(&scope, site, &[], notes, &state.start)?;
    Ok(())
}

fn walk_steps(
    alloc: Global,
    scope: &Scope,
    array: usize,
    steps: &[StepDecl],
    notes: &mut Notes,
) -> Result<(), Memory>
    ensures { OnOk result (notes.new
        ≡ steps_walked scope.now.text.now scope.now.names.now scope.now.table.now array 0 steps.now
        notes.old) }
{
    for (number, step) in steps.iter().enumerate() {
        walk_step(alloc, scope, array, number, step, notes)?;
    }
    Ok(())
}

fn walk_step(
    alloc: Global,
    scope: &Scope,
    array: usize,
    number: usize,
    step: &StepDecl,
    notes: &mut Notes,
) -> Result<(), Memory>
    ensures { OnOk result (notes.new
        ≡ step_walked scope.now.text.now scope.now.names.now scope.now.table.now array number
        step.now notes.old) }
{
    walk_body(alloc, scope, array, number, &step.body, notes)?;
    close_step(alloc, notes);
    Ok(())
}

// Parts that clash are known at the end of their step.
#[tactic(auto, unfolding(job_rules::specs::Steps::step_closed))]
fn close_step(alloc: Global, notes: &mut Notes)
    ensures { notes.new ≡ step_closed notes.old }
{
    notes.found = overlap_fault(notes.uses.as_slice(), notes.found);
    notes.uses = Items::new(alloc);
}

fn walk_body(
    alloc: Global,
    scope: &Scope,
    array: usize,
    step: usize,
    body: &StepBody,
    notes: &mut Notes,
) -> Result<(), Memory>
    ensures { OnOk result (notes.new
        ≡ body_walked scope.now.text.now scope.now.names.now scope.now.table.now array step body.now
        notes.old) }
{
    match body {
        StepBody::Block(block) => {
            walk_free_part(alloc, scope, part_at(array, step, 0), block, notes)?;
        }
        StepBody::Part(part) => {
            walk_part(alloc, scope, part_at(array, step, 0), part, notes)?;
        }
        StepBody::Overlap { parts, .. } => {
            walk_parts(alloc, scope, array, step, parts.as_slice(), notes)?;
        }
    }
    Ok(())
}

fn walk_parts(
    alloc: Global,
    scope: &Scope,
    array: usize,
    step: usize,
    parts: &[PartDecl],
    notes: &mut Notes,
) -> Result<(), Memory>
    ensures { OnOk result (notes.new
        ≡ parts_walked scope.now.text.now scope.now.names.now scope.now.table.now array step 0
        parts.now notes.old) }
{
    for (number, part) in parts.iter().enumerate() {
        walk_part(alloc, scope, part_at(array, step, number), part, notes)?;
    }
    Ok(())
}

// A block that waits for nothing.
fn walk_free_part(
    alloc: Global,
    scope: &Scope,
    part: PartAt,
    block: &Block,
    notes: &mut Notes,
) -> Result<(), Memory>
    ensures { OnOk result (notes.new
        ≡ free_part scope.now.text.now scope.now.names.now scope.now.table.now part block.now
        notes.old) }
{
    let scope = Scope {
        text: scope.text,
        names: scope.names,
        table: scope.table,
        params: &[],
    };
    let mut loops = Vec::new(alloc);
    walk_block(&scope, part, &mut loops, false, notes, block)?;
    Ok(())
}

// A block that waits for a message or a total.
fn walk_part(
    alloc: Global,
    scope: &Scope,
    at: PartAt,
    part: &PartDecl,
    notes: &mut Notes,
) -> Result<(), Memory>
    ensures { OnOk result (notes.new
        ≡ part_walked scope.now.text.now scope.now.names.now scope.now.table.now at part.now
        notes.old) }
{
    let params = names_listed(alloc, &part.names)?;
    walk_part_with(alloc, scope, at, params.as_slice(), part, notes)?;
    Ok(())
}

// A part that waits for these parameters.
#[tactic(auto, unfolding(job_rules::specs::Steps::part_with))]
fn walk_part_with(
    alloc: Global,
    scope: &Scope,
    at: PartAt,
    params: &[Span],
    part: &PartDecl,
    notes: &mut Notes,
) -> Result<(), Memory>
    ensures { OnOk result (notes.new
        ≡ part_with scope.now.text.now scope.now.names.now scope.now.table.now at params.now
        part.now notes.old) }
{
    walk_when(scope, at, part.at, params.len(), part.port, notes)?;
    walk_params(scope, params, notes);
    let scope = Scope {
        text: scope.text,
        names: scope.names,
        table: scope.table,
        params,
    };
    let mut loops = Vec::new(alloc);
    walk_block(&scope, at, &mut loops, false, notes, &part.block)?;
    Ok(())
}

fn walk_params(scope: &Scope, params: &[Span], notes: &mut Notes)
    ensures { notes.new ≡ params_walked scope.now.text.now scope.now.table.now params.now 0
        params.now notes.old }
{
    for (number, param) in params.iter().enumerate() {
        walk_param(scope, params, number, *param, notes);
    }
}

// A parameter is declared where no other name of the array and no parameter before has its name.
#[tactic(auto, unfolding(job_rules::specs::Steps::param_walked))]
fn walk_param(scope: &Scope, params: &[Span], number: usize, name: Span, notes: &mut Notes)
    ensures { notes.new ≡ param_walked scope.now.text.now scope.now.table.now params.now number name
        notes.old }
{
    let first = is_number(number, local_named(scope.text, params, name));
    let taken = scope.meaning(name).is_some() || !first;
    notes.note(name_fault(name));
    notes.note(fault_if(taken, CheckFault::Twice { at: name.at }));
}

#[tactic(auto, unfolding(job_rules::specs::Steps::when_walked))]
fn walk_when(
    scope: &Scope,
    part: PartAt,
    at: u32,
    count: usize,
    name: Span,
    notes: &mut Notes,
) -> Result<(), Memory>
    ensures { OnOk result (notes.new
        ≡ when_walked scope.now.text.now scope.now.table.now part at count name notes.old) }
{
    let meaning = scope.meaning(name);
    notes.note(name_fault(name));
    wait_at(part, at, count, meaning, name, notes)?;
    Ok(())
}

// So many names at a port with this meaning.
fn wait_at(
    part: PartAt,
    at: u32,
    count: usize,
    meaning: Option<Meaning>,
    name: Span,
    notes: &mut Notes,
) -> Result<(), Memory>
    ensures { OnOk result (notes.new ≡ port_named part at count meaning name notes.old) }
{
    let kind = CheckFault::Kind { at: name.at };
    match meaning {
        Some(Meaning::Entry { port, values, .. }) => {
            notes.note(fault_if(count as u64 != values, kind));
            notes.note_received(port_use(port, part, at, false))?;
        }
        Some(Meaning::Reduction { port, .. }) => {
            notes.note(fault_if(count != 1, kind));
            notes.note_received(port_use(port, part, at, false))?;
        }
        _ => notes.note(mismatch_fault(meaning, name)),
    }
    Ok(())
}

fn part_at(array: usize, step: usize, part: usize) -> PartAt
    ensures { result ≡ part_at array step part }
{
    PartAt { array, step, part }
}
