//! Answers that name no state, or no cell of an element.

ghost use Rattle.std.specs.Prelude.{◌≡◌, slice_get};
ghost use Rattle.job_rules.specs.Answers.{answer_fault, answers_found, at_fault, below, cell_fault, coordinates_fault, element_fault, index_fault, over_fault, state_fault};
ghost use Rattle.job_rules.specs.Tables.{array_number};

use crate::tables::{array_number, member_meaning};
use job_rules::fault::{CheckFault, fault_if, name_fault, sooner};
use job_rules::names::{Meaning, bytes_at};
use job_rules::tables::JobNames;
use job_tree::token::{Num, Span};
use job_tree::tree::{AnswerDecl, ArrayDecl, Coordinates, Job};

/// Of what was found and what is wrong with the answers of a job, the fault that is named.
#[tactic(auto, unfolding(job_rules::specs::Answers::answers_found))]
pub(crate) fn answers_fault(
    text: &[u8],
    names: &JobNames,
    job: &Job,
    found: Option<CheckFault>,
) -> Option<CheckFault>
    ensures { result ≡ answers_found text.now names.now job.now found }
{
    let mut found = found;
    for answer in job.answers.as_slice() {
        let fault = answer_fault(text, names, job.arrays.as_slice(), *answer);
        found = sooner(found, fault);
    }
    found
}

fn answer_fault(
    text: &[u8],
    names: &JobNames,
    arrays: &[ArrayDecl],
    answer: AnswerDecl,
) -> Option<CheckFault>
    ensures { result ≡ answer_fault text.now names.now arrays.now answer }
{
    match answer {
        AnswerDecl::Over { array, state, .. } => {
            let found = sooner(name_fault(array), name_fault(state));
            sooner(found, over_fault(text, names, array, state))
        }
        AnswerDecl::At {
            array,
            element,
            state,
            cell,
            ..
        } => {
            let found = sooner(name_fault(array), name_fault(state));
            let fault = at_fault(text, names, arrays, array, element, state, cell);
            sooner(found, fault)
        }
    }
}

fn over_fault(text: &[u8], names: &JobNames, array: Span, state: Span) -> Option<CheckFault>
    ensures { result ≡ over_fault text.now names.now array state
        (array_number text.now names.now.arrays array) }
{
    match array_number(text, &names.arrays, array) {
        Some(number) => state_fault(state, member_meaning(names, number, bytes_at(text, state))),
        None => Some(CheckFault::Unknown { at: array.at }),
    }
}

fn at_fault(
    text: &[u8],
    names: &JobNames,
    arrays: &[ArrayDecl],
    array: Span,
    element: Coordinates,
    state: Span,
    index: Option<Num>,
) -> Option<CheckFault>
    ensures { result ≡ at_fault text.now names.now arrays.now array element state index
        (array_number text.now names.now.arrays array) }
{
    match array_number(text, &names.arrays, array) {
        Some(number) => {
            let meant = member_meaning(names, number, bytes_at(text, state));
            let found = sooner(
                state_fault(state, meant),
                element_fault(array, arrays, number, element),
            );
            sooner(found, cell_fault(state, meant, index))
        }
        None => Some(CheckFault::Unknown { at: array.at }),
    }
}

fn state_fault(name: Span, meant: Option<Meaning>) -> Option<CheckFault>
    ensures { result ≡ state_fault name meant }
{
    match meant {
        None => Some(CheckFault::Unknown { at: name.at }),
        Some(Meaning::State { .. }) => None,
        Some(_) => Some(CheckFault::Kind { at: name.at }),
    }
}

fn element_fault(
    name: Span,
    arrays: &[ArrayDecl],
    number: usize,
    element: Coordinates,
) -> Option<CheckFault>
    ensures { result ≡ element_fault name (slice_get arrays.now number) element }
{
    match arrays.get(number) {
        Some(array) => coordinates_fault(name, array.sizes, element),
        None => None,
    }
}

fn coordinates_fault(name: Span, sizes: Coordinates, element: Coordinates) -> Option<CheckFault>
    ensures { result ≡ coordinates_fault name sizes.first element.first sizes.second
        element.second }
{
    let first = below(sizes.first.value, element.first);
    match (sizes.second, element.second) {
        (None, None) => first,
        (Some(columns), Some(second)) => sooner(first, below(columns.value, second)),
        _ => Some(CheckFault::Kind { at: name.at }),
    }
}

fn cell_fault(state: Span, meant: Option<Meaning>, index: Option<Num>) -> Option<CheckFault>
    ensures { result ≡ cell_fault state meant index }
{
    match meant {
        Some(Meaning::State { plain, cells, .. }) => index_fault(state, plain, cells, index),
        _ => None,
    }
}

fn index_fault(state: Span, plain: bool, cells: u64, index: Option<Num>) -> Option<CheckFault>
    ensures { result ≡ index_fault state plain cells index }
{
    let kind = Some(CheckFault::Kind { at: state.at });
    match index {
        Some(index) => { if plain { kind } else { below(cells, index) } }
        None => { if plain { None } else { kind } }
    }
}

// A number that counts from 0 up to a size, where it doesn't.
fn below(size: u64, number: Num) -> Option<CheckFault>
    ensures { result ≡ below size number }
{
    fault_if(size <= number.value, CheckFault::Bound { at: number.at })
}
