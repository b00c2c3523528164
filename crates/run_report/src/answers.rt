//! The answers of a job, from the states at its end.

ghost use Rattle.std.specs.Prelude.{◌≡◌, ◌≤◌, ◌++◌, OnOk};
ghost use Rattle.std.specs.Option.{option_copied};
ghost use Rattle.chare_base.specs.Sizes.{size_of};
ghost use Rattle.run_report.specs.Answers.{answer_line, answer_lines, at_line, how_word, members, number_in, over_line, state_with};

use crate::lines::put_signed;
use crate::names::{put_cell, put_element};
use crate::parts::part;
use crate::totals::number_over;
use chare_base::bytes::Bytes;
use chare_base::cells::Cells;
use chare_base::memory::Memory;
use chare_base::plan::{Answer, Array, ElementId, How, Plan, State};
use std::alloc::Global;

// A line for each answer, in order.
pub(crate) fn put_answers(
    alloc: Global,
    out: &mut Bytes,
    plan: &Plan,
    all: &[Cells],
) -> Result<(), Memory>
    ensures { OnOk result (out.new ≡ out.old ++ answer_lines plan.now all.now plan.now.answers) }
{
    for answer in plan.answers.as_slice() {
        put_answer(alloc, out, plan, all, *answer)?;
    }
    Ok(())
}

#[tactic(auto, unfolding(crate::specs::Answers::answer_line), using(crate::proofs::Sides::size_small))]
fn put_answer(
    alloc: Global,
    out: &mut Bytes,
    plan: &Plan,
    all: &[Cells],
    answer: Answer,
) -> Result<(), Memory>
    ensures { OnOk result (out.new ≡ out.old ++ answer_line plan.now all.now answer) }
{
    match answer {
        Answer::Over { how, array, state } => {
            if let Some(array) = plan.arrays.get(array as usize) {
                if let Some(state) = array.states.get(state as usize) {
                    put_over(alloc, out, all, how, array, state)?;
                }
            }
        }
        Answer::At { element, cell } => {
            let place = plan.place(element);
            if let Some(array) = plan.arrays.get(place.array as usize) {
                if let Some(state) = state_with(array.states.as_slice(), cell) {
                    put_at(alloc, out, plan, all, element, cell, state)?;
                }
            }
        }
    }
    Ok(())
}

// `answer HOW ARRAY.STATE V`
#[tactic(auto, unfolding(crate::specs::Answers::over_line))]
fn put_over(
    alloc: Global,
    out: &mut Bytes,
    all: &[Cells],
    how: How,
    array: &Array,
    state: &State,
) -> Result<(), Memory>
    requires { size_of array.now ≤ 4096 }
    ensures { OnOk result (out.new ≡ out.old ++ over_line all.now how array.now state.now) }
{
    out.extend(b"answer ")?;
    out.extend(how_word(how))?;
    out.extend(b" ")?;
    out.extend(array.name.as_slice())?;
    out.extend(b".")?;
    out.extend(state.name.as_slice())?;
    out.extend(b" ")?;
    put_signed(alloc, out, number_over(how, state, members(array, all)))?;
    out.extend(b"\n")?;
    Ok(())
}

// The states of an array's elements.
fn members<'a>(array: &Array, all: &'a [Cells]) -> &'a [Cells]
    requires { size_of array.now ≤ 4096 }
    ensures { result.now ≡ members array.now all.now }
{
    part(
        all,
        array.first as usize,
        (array.rows * array.cols) as usize,
    )
}

fn how_word(how: How) -> &'static [u8]
    ensures { result.now ≡ how_word how }
{
    match how {
        How::Sum => b"sum",
        How::Min => b"min",
        How::Max => b"max",
    }
}

// `answer at ELEMENT.STATE V`
#[tactic(auto, unfolding(crate::specs::Answers::at_line))]
fn put_at(
    alloc: Global,
    out: &mut Bytes,
    plan: &Plan,
    all: &[Cells],
    element: ElementId,
    cell: u32,
    state: &State,
) -> Result<(), Memory>
    ensures { OnOk result (out.new ≡ out.old ++ at_line plan.now all.now element.0 cell state.now) }
{
    out.extend(b"answer at ")?;
    put_element(alloc, out, plan, element)?;
    out.extend(b".")?;
    put_cell(alloc, out, state, cell)?;
    out.extend(b" ")?;
    put_signed(alloc, out, number_in(all, element, cell))?;
    out.extend(b"\n")?;
    Ok(())
}

// The state that has the cell of this number.
fn state_with(states: &[State], cell: u32) -> Option<&State>
    ensures { option_copied result ≡ state_with cell states.now }
{
    for state in states {
        if state.at <= cell && cell - state.at < state.cells {
            return Some(state);
        }
    }
    None
}

// The cell of this number of an element.
fn number_in(all: &[Cells], element: ElementId, cell: u32) -> i64
    ensures { result ≡ number_in all.now element.0 cell }
{
    match all.get(element.0 as usize) {
        Some(cells) => {
            let numbers = cells.numbers.as_slice();
            numbers.get(cell as usize).copied().unwrap_or(0)
        }
        None => 0,
    }
}
