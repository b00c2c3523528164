//! The plans of answers, over the plans of the arrays.

ghost use Rattle.std.specs.Prelude.{◌≡◌, IfOk, map};
ghost use Rattle.job_rules.specs.PlannedAnswers.{answer_planned, array_meant, cell_in, cell_written, element_in, element_or_none, index_written};

use crate::numbers::{narrow32, number16};
use crate::planning::lookups::{member, range_meant, range_or_none, state_meant};
use crate::planning::members::plan_how;
use crate::tables::array_number;
use chare_base::memory::Memory;
use chare_base::plan::{Answer, Array, ElementId};
use chare_base::range::Range;
use job_rules::tables::JobNames;
use job_tree::token::Num;
use job_tree::tree::{AnswerDecl, Coordinates};
use sqlite_items::Items;
use std::alloc::Global;

/// The plans of a job's answers, where its arrays have these names and these plans.
pub(crate) fn plan_answers(
    alloc: Global,
    text: &[u8],
    names: &JobNames,
    arrays: &[Array],
    answers: &[AnswerDecl],
) -> Result<Items<Answer>, Memory>
    ensures { IfOk result (λ planned. planned
        ≡ map (answer_planned text.now names.now arrays.now) answers.now) }
{
    let mut planned = Items::new(alloc);
    for answer in answers {
        planned.push(plan_answer(text, names, arrays, *answer))?;
    }
    Ok(planned)
}

fn plan_answer(text: &[u8], names: &JobNames, arrays: &[Array], answer: AnswerDecl) -> Answer
    ensures { result ≡ answer_planned text.now names.now arrays.now answer }
{
    match answer {
        AnswerDecl::Over {
            how,
            array,
            state,
            ..
        } => Answer::Over {
            how: plan_how(how),
            array: number16(array_number(text, &names.arrays, array)),
            state: number16(state_meant(member(text, names, array, state))),
        },
        AnswerDecl::At {
            array,
            element,
            state,
            cell,
            ..
        } => {
            let number = array_number(text, &names.arrays, array);
            let range = range_or_none(range_meant(member(text, names, array, state)));
            Answer::At {
                element: element_or_none(arrays, number, element),
                cell: cell_in(cell, range),
            }
        }
    }
}

// The number of an element of the array of this number.
fn element_or_none(arrays: &[Array], number: Option<usize>, element: Coordinates) -> ElementId
    ensures { result ≡ element_or_none element (array_meant arrays.now number) }
{
    match number {
        Some(number) => match arrays.get(number) {
            Some(array) => ElementId(element_in(element, array)),
            None => ElementId(4_294_967_295),
        },
        None => ElementId(4_294_967_295),
    }
}

fn element_in(element: Coordinates, array: &Array) -> u32
    ensures { result ≡ element_in element array.now }
{
    array.first.saturating_add(index(array.cols, element))
}

// An element's index in an array of `cols` columns, row by row.
fn index(cols: u32, element: Coordinates) -> u32
    ensures { result ≡ index_written cols element.first element.second }
{
    let first = narrow32(element.first.value);
    match element.second {
        Some(second) => first
            .saturating_mul(cols)
            .saturating_add(narrow32(second.value)),
        None => first,
    }
}

// The number of a cell of a state.
fn cell_in(cell: Option<Num>, range: Range) -> u32
    ensures { result ≡ cell_in cell range }
{
    range.at.saturating_add(cell_written(cell))
}

// Without an index it is the first cell.
fn cell_written(cell: Option<Num>) -> u32
    ensures { result ≡ cell_written cell }
{
    match cell {
        Some(number) => narrow32(number.value),
        None => 0,
    }
}
