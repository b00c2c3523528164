//! Uses of a state in two parts of a step, one of which writes it.
//!
//! A few uses are compared with one another. For many, two tables tell of each state the first part that uses it and
//! the first that writes it, so that the uses of a whole text take no longer than a few passes over them.

ghost use Rattle.std.specs.Prelude.{◌≡◌, true, false, length};
ghost use Rattle.std.specs.List.{list_any};
ghost use Rattle.job_rules.specs.Overlap.{clashes, overlap_found, use_fault, used_before, written_by};
ghost use Rattle.chare_checker.specs.FirstUses.{Tells, all_marked, counts, marked};

use job_rules::fault::{CheckFault, fault_if, sooner};
use job_rules::notes::StateUse;

// How many uses are few.
const FEW: usize = 64;

// How many states of an array a table has. A text in which an array has more states has few other uses.
const STATES: usize = 4096;

/// Of what was found and the clashes between the parts of a step, the fault that is named. The uses are those of
/// the whole step.
pub(crate) fn overlap_fault(uses: &[StateUse], found: Option<CheckFault>) -> Option<CheckFault>
    ensures { result ≡ overlap_found uses.now found }
{
    if uses.len() <= FEW {
        faults(uses, &[], &[], found)
    } else {
        faults_of_many(uses, found)
    }
}

fn faults_of_many(uses: &[StateUse], found: Option<CheckFault>) -> Option<CheckFault>
    ensures { result ≡ overlap_found uses.now found }
{
    let mut used = [0; STATES];
    let mut written = [0; STATES];
    mark_first(uses, false, &mut used);
    mark_first(uses, true, &mut written);
    faults(uses, &used, &written, found)
}

// Makes a table tell of its states.
fn mark_first(uses: &[StateUse], writes: bool, table: &mut [usize])
    ensures { Tells writes uses.now table.new }
{
    table.fill(usize::MAX);
    mark_all(uses, writes, table);
}

fn mark_all(uses: &[StateUse], writes: bool, table: &mut [usize])
    ensures { table.new ≡ all_marked writes table.old uses.now }
{
    for state_use in uses {
        mark(*state_use, writes, table);
    }
}

fn mark(state_use: StateUse, writes: bool, table: &mut [usize])
    ensures { table.new ≡ marked writes table.old state_use }
{
    let state = state_use.state;
    if counts(state_use, writes) && state < table.len() && state_use.part < table[state] {
        table[state] = state_use.part;
    }
}

// Every use counts, or writes alone.
fn counts(state_use: StateUse, writes: bool) -> bool
    ensures { result ≡ counts writes state_use }
{
    !writes || state_use.written
}

#[tactic(auto, unfolding(job_rules::specs::Overlap::overlap_found))]
fn faults(
    uses: &[StateUse],
    used: &[usize],
    written: &[usize],
    found: Option<CheckFault>,
) -> Option<CheckFault>
    requires used { Tells false uses.now used.now }
    requires written { Tells true uses.now written.now }
    ensures { result ≡ overlap_found uses.now found }
{
    let mut found = found;
    for state_use in uses {
        found = sooner(found, use_fault(uses, used, written, *state_use));
    }
    found
}

fn use_fault(
    uses: &[StateUse],
    used: &[usize],
    written: &[usize],
    state_use: StateUse,
) -> Option<CheckFault>
    requires used { Tells false uses.now used.now }
    requires written { Tells true uses.now written.now }
    ensures { result ≡ use_fault uses.now state_use }
{
    let clashes = is_used_before(uses, used, state_use) && is_written_by(uses, written, state_use);
    let overlap = CheckFault::Overlap {
        name: state_use.declared,
        at: state_use.at,
    };
    fault_if(clashes, overlap)
}

// Whether an earlier part uses the state.
fn is_used_before(uses: &[StateUse], used: &[usize], state_use: StateUse) -> bool
    requires { Tells false uses.now used.now }
    ensures { result ≡ list_any (used_before state_use) uses.now }
{
    let state = state_use.state;
    if state < used.len() {
        used[state] < state_use.part
    } else {
        find_used_before(uses, state_use)
    }
}

fn find_used_before(uses: &[StateUse], state_use: StateUse) -> bool
    ensures { result ≡ list_any (used_before state_use) uses.now }
{
    uses.iter().any(|other| other.state == state_use.state && other.part < state_use.part)
}

// Whether an earlier part or this one writes the state.
fn is_written_by(uses: &[StateUse], written: &[usize], state_use: StateUse) -> bool
    requires { Tells true uses.now written.now }
    ensures { result ≡ list_any (written_by state_use) uses.now }
{
    let state = state_use.state;
    if state < written.len() && state_use.part < usize::MAX {
        written[state] <= state_use.part
    } else {
        find_written_by(uses, state_use)
    }
}

fn find_written_by(uses: &[StateUse], state_use: StateUse) -> bool
    ensures { result ≡ list_any (written_by state_use) uses.now }
{
    uses.iter().any(|other| {
        other.state == state_use.state && other.written && other.part <= state_use.part
    })
}
