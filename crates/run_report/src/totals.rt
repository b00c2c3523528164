//! One number of many.

ghost use Rattle.std.specs.Prelude.{◌≡◌, None};
ghost use Rattle.chare_base.specs.Total.{joined_to};
ghost use Rattle.run_report.specs.Answers.{number_over, numbers_in, numbers_over};

use crate::parts::part;
use chare_base::cells::Cells;
use chare_base::plan::{How, State};

// The number of all cells of a state, in the elements of its array.
pub(crate) fn number_over(how: How, state: &State, members: &[Cells]) -> i64
    ensures { result ≡ number_over how state.now members.now }
{
    join_members(how, state, members).unwrap_or(0)
}

fn join_members(how: How, state: &State, members: &[Cells]) -> Option<i64>
    ensures { result ≡ joined_to how None (numbers_over state.now members.now) }
{
    let mut total = None;
    for cells in members {
        total = join_cells(how, total, state, cells);
    }
    total
}

// The numbers of a state in one element, joined to those of the elements before.
fn join_cells(how: How, first: Option<i64>, state: &State, cells: &Cells) -> Option<i64>
    ensures { result ≡ joined_to how first (numbers_in state.now cells.now) }
{
    let numbers = cells.numbers.as_slice();
    let (at, count) = (state.at as usize, state.cells as usize);
    join_numbers(how, first, part(numbers, at, count))
}

// Numbers joined to one that may be missing.
fn join_numbers(how: How, first: Option<i64>, numbers: &[i64]) -> Option<i64>
    ensures { result ≡ joined_to how first numbers.now }
{
    let mut total = first;
    for number in numbers {
        total = how.both(total, Some(*number));
    }
    total
}
