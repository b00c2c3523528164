//! Written numbers outside their ranges.

ghost use Rattle.std.specs.Prelude.{◌≡◌};
ghost use Rattle.job_rules.specs.Bounds.{array_bounds, arrays_bounds, bounds_found, entry_bound, member_bound, offset_fault, outside, outside_if, size_fault, state_bound};
ghost use Rattle.job_rules.specs.Faults.{first_of};

use chare_base::limits;
use job_rules::fault::{CheckFault, fault_if, sooner};
use job_tree::token::Num;
use job_tree::tree::{ArrayDecl, EntryDecl, Job, MemberDecl, SignedNum, StateDecl};

/// Of what was found and the written numbers of a job that are outside their ranges, the fault that is named. Those
/// of its answers are looked at with the answers.
#[tactic(auto, unfolding(job_rules::specs::Bounds::bounds_found))]
pub(crate) fn bounds_fault(job: &Job, found: Option<CheckFault>) -> Option<CheckFault>
    ensures { result ≡ bounds_found job.now found }
{
    let iterations = outside(1, limits::ITERATIONS, job.iterations);
    arrays_bounds(job.arrays.as_slice(), sooner(found, iterations))
}

fn arrays_bounds(arrays: &[ArrayDecl], found: Option<CheckFault>) -> Option<CheckFault>
    ensures { result ≡ arrays_bounds found arrays.now }
{
    let mut found = found;
    for array in arrays {
        found = array_bounds(array, found);
    }
    found
}

fn array_bounds(array: &ArrayDecl, found: Option<CheckFault>) -> Option<CheckFault>
    ensures { result ≡ array_bounds found array.now }
{
    let found = sooner(found, size_fault(Some(array.sizes.first)));
    let found = sooner(found, size_fault(array.sizes.second));
    let found = states_bounds(array.states.as_slice(), found);
    members_bounds(array.members.as_slice(), found)
}

fn states_bounds(states: &[StateDecl], found: Option<CheckFault>) -> Option<CheckFault>
    ensures { result ≡ first_of state_bound found states.now }
{
    let mut found = found;
    for state in states {
        found = sooner(found, state_bound(state.cells));
    }
    found
}

fn members_bounds(members: &[MemberDecl], found: Option<CheckFault>) -> Option<CheckFault>
    ensures { result ≡ first_of member_bound found members.now }
{
    let mut found = found;
    for member in members {
        found = sooner(found, member_bound(*member));
    }
    found
}

fn member_bound(member: MemberDecl) -> Option<CheckFault>
    ensures { result ≡ member_bound member }
{
    match member {
        MemberDecl::Entry(entry) => entry_bound(entry),
        MemberDecl::Reduce(_) => None,
    }
}

fn entry_bound(entry: EntryDecl) -> Option<CheckFault>
    ensures { result ≡ entry_bound entry }
{
    let values = outside_if(1, limits::VALUES as u64, entry.values);
    let found = sooner(values, offset_fault(Some(entry.offset.first)));
    sooner(found, offset_fault(entry.offset.second))
}

// How many cells a state has, where it is written.
fn state_bound(cells: Option<Num>) -> Option<CheckFault>
    ensures { result ≡ outside_if 1 4096 cells }
{
    outside_if(1, u64::from(limits::CELLS), cells)
}

// A size of an array.
fn size_fault(size: Option<Num>) -> Option<CheckFault>
    ensures { result ≡ size_fault size }
{
    outside_if(1, u64::from(limits::ELEMENTS), size)
}

fn offset_fault(offset: Option<SignedNum>) -> Option<CheckFault>
    ensures { result ≡ offset_fault offset }
{
    match offset {
        Some(signed) => outside(0, limits::OFFSET as u64, signed.number),
        None => None,
    }
}

fn outside_if(low: u64, high: u64, number: Option<Num>) -> Option<CheckFault>
    ensures { result ≡ outside_if low high number }
{
    match number {
        Some(number) => outside(low, high, number),
        None => None,
    }
}

fn outside(low: u64, high: u64, number: Num) -> Option<CheckFault>
    ensures { result ≡ outside low high number }
{
    let within = low <= number.value && number.value <= high;
    fault_if(!within, CheckFault::Bound { at: number.at })
}
