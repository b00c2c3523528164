//! Counts of a job that are above their greatest values. At one place they are noted in the order of their kinds,
//! which is the order in which they are named.

ghost use Rattle.std.specs.Prelude.{◌≡◌};
ghost use Rattle.job_rules.specs.Limits.{answered_at, answer_over, answers_over, array_over, arrays_over, body_over, elements_written, limits_found, members_over, over, own_over, parts_over, state_over, states_over, step_over, steps_over, with_all_cells, with_cells};

use crate::costs::step_cost;
use crate::ports::declared_at;
use crate::tables::cells_written;
use chare_base::limits;
use job_rules::fault::{CheckFault, LimitKind, fault_if, sooner};
use job_tree::tree::{
    AnswerDecl, ArrayDecl, Coordinates, Job, MemberDecl, PartDecl, StateDecl, StepBody, StepDecl,
};

/// Of what was found and the counts of a job that are too great, the fault that is named. The lengths of names are
/// looked at where the names are.
#[tactic(auto, unfolding(job_rules::specs::Limits::limits_found))]
pub(crate) fn limits_fault(job: &Job, found: Option<CheckFault>) -> Option<CheckFault>
    ensures { result ≡ limits_found job.now found }
{
    let found = arrays_over(job.arrays.as_slice(), found);
    answers_over(job.answers.as_slice(), found)
}

fn over(which: LimitKind, most: u64, value: u64, at: u32) -> Option<CheckFault>
    ensures { result ≡ over which most value at }
{
    fault_if(most < value, CheckFault::Limit { which, value, at })
}

fn arrays_over(arrays: &[ArrayDecl], found: Option<CheckFault>) -> Option<CheckFault>
    ensures { result ≡ arrays_over 0 0 0 found arrays.now }
{
    let mut found = found;
    let mut elements = 0u64;
    let mut all_cells = 0u64;
    for (i, array) in arrays.iter().enumerate() {
        let size = elements_written(array.sizes);
        elements = elements.saturating_add(size);
        found = array_over(i as u64 + 1, elements, all_cells, array, found);
        all_cells = with_all_cells(size, all_cells, array.states.as_slice());
    }
    found
}

// The counts at an array: `count` arrays have `elements` elements, this one included, and the elements before it have
// `all_cells` cells.
#[tactic(auto, unfolding(job_rules::specs::Limits::array_over))]
fn array_over(
    count: u64,
    elements: u64,
    all_cells: u64,
    array: &ArrayDecl,
    found: Option<CheckFault>,
) -> Option<CheckFault>
    ensures { result ≡ array_over count elements all_cells found array.now }
{
    let arrays = over(LimitKind::Arrays, limits::ARRAYS as u64, count, array.at);
    let found = sooner(found, arrays);
    let most = u64::from(limits::ELEMENTS);
    let found = sooner(found, over(LimitKind::Elements, most, elements, array.at));
    own_over(all_cells, array, found)
}

// The counts within an array, before which the elements have `all_cells` cells.
fn own_over(all_cells: u64, array: &ArrayDecl, found: Option<CheckFault>) -> Option<CheckFault>
    ensures { result ≡ own_over all_cells found array.now }
{
    let size = elements_written(array.sizes);
    let found = states_over(size, all_cells, array.states.as_slice(), found);
    let found = members_over(array.members.as_slice(), found);
    steps_over(array.steps.as_slice(), found)
}

// How many elements an array has, as written.
fn elements_written(sizes: Coordinates) -> u64
    ensures { result ≡ elements_written sizes }
{
    match sizes.second {
        Some(columns) => sizes.first.value.saturating_mul(columns.value),
        None => sizes.first.value,
    }
}

fn states_over(
    size: u64,
    all_cells: u64,
    states: &[StateDecl],
    found: Option<CheckFault>,
) -> Option<CheckFault>
    ensures { result ≡ states_over size 0 0 all_cells found states.now }
{
    let mut found = found;
    let mut cells = 0u64;
    let mut all_cells = all_cells;
    for (i, state) in states.iter().enumerate() {
        cells = cells.saturating_add(cells_written(state.cells));
        all_cells = with_cells(size, all_cells, state);
        found = state_over(i as u64 + 1, cells, all_cells, state.at, found);
    }
    found
}

// The counts at a state: of the states, of an element's cells and of all cells, this one included.
#[tactic(auto, unfolding(job_rules::specs::Limits::state_over))]
fn state_over(
    count: u64,
    cells: u64,
    all_cells: u64,
    at: u32,
    found: Option<CheckFault>,
) -> Option<CheckFault>
    ensures { result ≡ state_over count cells all_cells found at }
{
    let states = over(LimitKind::States, limits::STATES as u64, count, at);
    let found = sooner(found, states);
    let most = u64::from(limits::CELLS);
    let found = sooner(found, over(LimitKind::Cells, most, cells, at));
    sooner(
        found,
        over(LimitKind::AllCells, limits::ALL_CELLS, all_cells, at),
    )
}

// The cells of all elements, with those of an array of this size.
fn with_all_cells(size: u64, all_cells: u64, states: &[StateDecl]) -> u64
    ensures { result ≡ with_all_cells size all_cells states.now }
{
    let mut all_cells = all_cells;
    for state in states {
        all_cells = with_cells(size, all_cells, state);
    }
    all_cells
}

fn with_cells(size: u64, all_cells: u64, state: &StateDecl) -> u64
    ensures { result ≡ with_cells size all_cells state.now }
{
    let cells = cells_written(state.cells).saturating_mul(size);
    all_cells.saturating_add(cells)
}

fn members_over(members: &[MemberDecl], found: Option<CheckFault>) -> Option<CheckFault>
    ensures { result ≡ members_over 0 found members.now }
{
    let mut found = found;
    for (i, member) in members.iter().enumerate() {
        let at = declared_at(*member);
        found = sooner(
            found,
            over(LimitKind::Entries, limits::PORTS as u64, i as u64 + 1, at),
        );
    }
    found
}

fn steps_over(steps: &[StepDecl], found: Option<CheckFault>) -> Option<CheckFault>
    ensures { result ≡ steps_over 0 found steps.now }
{
    let mut found = found;
    for (i, step) in steps.iter().enumerate() {
        found = step_over(i as u64 + 1, step, found);
    }
    found
}

// The count at a step: `count` steps, this one included.
#[tactic(auto, unfolding(job_rules::specs::Limits::step_over))]
fn step_over(count: u64, step: &StepDecl, found: Option<CheckFault>) -> Option<CheckFault>
    ensures { result ≡ step_over count found step.now }
{
    let steps = over(LimitKind::Steps, limits::STEPS as u64, count, step.at);
    let found = sooner(found, steps);
    let cost = over(LimitKind::Cost, limits::COST, step_cost(step), step.at);
    body_over(&step.body, sooner(found, cost))
}

fn body_over(body: &StepBody, found: Option<CheckFault>) -> Option<CheckFault>
    ensures { result ≡ body_over found body.now }
{
    match body {
        StepBody::Overlap { parts, .. } => parts_over(parts.as_slice(), found),
        StepBody::Block(_) | StepBody::Part(_) => found,
    }
}

fn parts_over(parts: &[PartDecl], found: Option<CheckFault>) -> Option<CheckFault>
    ensures { result ≡ parts_over 0 found parts.now }
{
    let mut found = found;
    for (i, part) in parts.iter().enumerate() {
        found = sooner(
            found,
            over(
                LimitKind::Parts,
                limits::PARTS as u64,
                i as u64 + 1,
                part.at,
            ),
        );
    }
    found
}

fn answers_over(answers: &[AnswerDecl], found: Option<CheckFault>) -> Option<CheckFault>
    ensures { result ≡ answers_over 0 found answers.now }
{
    let mut found = found;
    for (i, answer) in answers.iter().enumerate() {
        found = answer_over(i as u64 + 1, *answer, found);
    }
    found
}

#[tactic(auto, unfolding(job_rules::specs::Limits::answer_over))]
fn answer_over(count: u64, answer: AnswerDecl, found: Option<CheckFault>) -> Option<CheckFault>
    ensures { result ≡ answer_over count found answer }
{
    let most = limits::ANSWERS as u64;
    sooner(
        found,
        over(LimitKind::Answers, most, count, answered_at(answer)),
    )
}

// The place of an answer.
fn answered_at(answer: AnswerDecl) -> u32
    ensures { result ≡ answered_at answer }
{
    match answer {
        AnswerDecl::Over { at, .. } | AnswerDecl::At { at, .. } => at,
    }
}
