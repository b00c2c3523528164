//! The numbers of elements and cells.

ghost use Rattle.std.specs.Prelude.{◌≡◌, IsTrue};
ghost use Rattle.std.specs.List.{list_all};
ghost use Rattle.chare_base.specs.Layout.{layout_holds, numbered_from, placed_from};

use crate::plan::{Array, State};

#[tactic(auto, unfolding(crate::specs::Layout::layout_holds))]
pub(crate) fn layout_holds(arrays: &[Array]) -> bool
    ensures { result ≡ layout_holds arrays.now }
{
    arrays_numbered(arrays) && each_placed(arrays)
}

// Whether each array's elements follow those of the array before.
fn arrays_numbered(arrays: &[Array]) -> bool
    ensures { result ≡ numbered_from 0 arrays.now }
{
    let mut next = 0;
    for array in arrays {
        if u128::from(array.first) != next {
            return false;
        }
        next = u128::from(array.first) + u128::from(array.rows) * u128::from(array.cols);
    }
    true
}

fn each_placed(arrays: &[Array]) -> bool
    ensures { result ≡ list_all (λ a. placed_from 0 a.states) arrays.now }
{
    arrays
        .iter()
        .all(|array| states_placed(array.states.as_slice()))
}

// Whether each state's cells follow those of the state before.
fn states_placed(states: &[State]) -> bool
    ensures { result ≡ placed_from 0 states.now }
{
    let mut next = 0;
    for state in states {
        if u64::from(state.at) != next {
            return false;
        }
        next = u64::from(state.at) + u64::from(state.cells);
    }
    true
}
