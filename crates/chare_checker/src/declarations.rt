//! What declarations themselves break: names declared twice or too long, and entries whose source isn't there or has
//! another shape.

ghost use Rattle.std.specs.Prelude.{◌≡◌};
ghost use Rattle.job_rules.specs.Declarations.{array_declared, array_found, arrays_found, declarations_found, declared_fault, dimensions_differ, is_array, is_port, is_state, member_fault, members_found, port_declared, second_differs, sizes_differ, source_differs, source_fault, state_declared, states_found};
ghost use Rattle.job_rules.specs.Tables.{no_counts};

use crate::tables::{array_number, counts_after, counts_with, member_meaning};
use job_rules::fault::{CheckFault, fault_if, name_fault, sooner};
use job_rules::names::{Meaning, bytes_at};
use job_rules::tables::{Counts, JobNames};
use job_tree::token::{Num, Span};
use job_tree::tree::{ArrayDecl, Coordinates, EntryDecl, Job, MemberDecl, SignedNum, StateDecl};

/// Of what was found and what the declarations of a job break, the fault that is named.
#[tactic(auto, unfolding(job_rules::specs::Declarations::declarations_found))]
pub(crate) fn declarations_fault(
    text: &[u8],
    names: &JobNames,
    job: &Job,
    found: Option<CheckFault>,
) -> Option<CheckFault>
    ensures { result ≡ declarations_found text.now names.now job.now found }
{
    let found = sooner(found, name_fault(job.name));
    arrays_fault(text, names, job.arrays.as_slice(), found)
}

fn arrays_fault(
    text: &[u8],
    names: &JobNames,
    arrays: &[ArrayDecl],
    found: Option<CheckFault>,
) -> Option<CheckFault>
    ensures { result ≡ arrays_found text.now names.now arrays.now 0 no_counts found arrays.now }
{
    let mut found = found;
    let mut counts = Counts::NONE;
    for (number, array) in arrays.iter().enumerate() {
        found = array_fault(text, names, arrays, number, counts, array, found);
        counts = counts_after(counts, array.members.as_slice());
    }
    found
}

// The array of this number, before which these ports were declared.
fn array_fault(
    text: &[u8],
    names: &JobNames,
    arrays: &[ArrayDecl],
    number: usize,
    counts: Counts,
    array: &ArrayDecl,
    found: Option<CheckFault>,
) -> Option<CheckFault>
    ensures { result ≡ array_found text.now names.now arrays.now number counts found array.now }
{
    let found = sooner(found, array_declared(text, names, number, array));
    let found = states_fault(text, names, number, array.states.as_slice(), found);
    members_fault(text, names, arrays, number, counts, array, found)
}

fn states_fault(
    text: &[u8],
    names: &JobNames,
    array: usize,
    states: &[StateDecl],
    found: Option<CheckFault>,
) -> Option<CheckFault>
    ensures { result ≡ states_found text.now names.now array 0 found states.now }
{
    let mut found = found;
    for (number, state) in states.iter().enumerate() {
        found = sooner(found, state_declared(text, names, array, number, state));
    }
    found
}

fn members_fault(
    text: &[u8],
    names: &JobNames,
    arrays: &[ArrayDecl],
    number: usize,
    counts: Counts,
    array: &ArrayDecl,
    found: Option<CheckFault>,
) -> Option<CheckFault>
    ensures { result ≡ members_found text.now names.now arrays.now number array.now.sizes counts
        found array.now.members }
{
    let mut found = found;
    let mut counts = counts;
    for member in array.members.as_slice() {
        let fault = member_fault(
            text,
            names,
            arrays,
            number,
            array.sizes,
            counts.ports,
            *member,
        );
        found = sooner(found, fault);
        counts = counts_with(counts, *member);
    }
    found
}

fn member_fault(
    text: &[u8],
    names: &JobNames,
    arrays: &[ArrayDecl],
    array: usize,
    sizes: Coordinates,
    port: usize,
    member: MemberDecl,
) -> Option<CheckFault>
    ensures { result ≡ member_fault text.now names.now arrays.now array sizes port member }
{
    match member {
        MemberDecl::Entry(entry) => {
            let found = port_declared(text, names, array, port, entry.name);
            sooner(found, source_fault(text, names, arrays, sizes, entry))
        }
        MemberDecl::Reduce(reduction) => port_declared(text, names, array, port, reduction.name),
    }
}

fn array_declared(
    text: &[u8],
    names: &JobNames,
    number: usize,
    array: &ArrayDecl,
) -> Option<CheckFault>
    ensures { result ≡ array_declared text.now names.now number array.now }
{
    let first = names.arrays.get(bytes_at(text, array.name));
    declared_fault(array.name, is_array(number, first))
}

fn state_declared(
    text: &[u8],
    names: &JobNames,
    array: usize,
    number: usize,
    state: &StateDecl,
) -> Option<CheckFault>
    ensures { result ≡ state_declared text.now names.now array number state.now }
{
    let first = member_meaning(names, array, bytes_at(text, state.name));
    declared_fault(state.name, is_state(number, first))
}

fn port_declared(
    text: &[u8],
    names: &JobNames,
    array: usize,
    port: usize,
    name: Span,
) -> Option<CheckFault>
    ensures { result ≡ port_declared text.now names.now array port name }
{
    let first = member_meaning(names, array, bytes_at(text, name));
    declared_fault(name, is_port(port, first))
}

// A declared name, of which `first` says whether this is its first declaration.
fn declared_fault(name: Span, first: bool) -> Option<CheckFault>
    ensures { result ≡ declared_fault name first }
{
    sooner(
        name_fault(name),
        fault_if(!first, CheckFault::Twice { at: name.at }),
    )
}

fn is_array(number: usize, meaning: Option<Meaning>) -> bool
    ensures { result ≡ is_array number meaning }
{
    match meaning {
        Some(Meaning::Array { number: first }) => first == number,
        _ => false,
    }
}

fn is_state(number: usize, meaning: Option<Meaning>) -> bool
    ensures { result ≡ is_state number meaning }
{
    match meaning {
        Some(Meaning::State { number: first, .. }) => first == number,
        _ => false,
    }
}

fn is_port(port: usize, meaning: Option<Meaning>) -> bool
    ensures { result ≡ is_port port meaning }
{
    match meaning {
        Some(Meaning::Entry { port: first, .. }) => first == port,
        Some(Meaning::Reduction { port: first, .. }) => first == port,
        _ => false,
    }
}

// The array that an entry names behind `from`, and the entry's offset from it.
fn source_fault(
    text: &[u8],
    names: &JobNames,
    arrays: &[ArrayDecl],
    sizes: Coordinates,
    entry: EntryDecl,
) -> Option<CheckFault>
    ensures { result ≡ source_fault text.now names.now arrays.now sizes entry }
{
    let source = array_number(text, &names.arrays, entry.source);
    let at = entry.source.at;
    let unknown = fault_if(source.is_none(), CheckFault::Unknown { at });
    let found = sooner(name_fault(entry.source), unknown);
    let differs = source_differs(arrays, source, sizes)
        || dimensions_differ(entry.offset.second, sizes.second);
    let at = entry.name.at;
    sooner(found, fault_if(differs, CheckFault::Shape { at }))
}

fn source_differs(arrays: &[ArrayDecl], source: Option<usize>, sizes: Coordinates) -> bool
    ensures { result ≡ source_differs arrays.now source sizes }
{
    match source {
        Some(number) => match arrays.get(number) {
            Some(array) => sizes_differ(array.sizes, sizes),
            None => false,
        },
        None => false,
    }
}

fn sizes_differ(a: Coordinates, b: Coordinates) -> bool
    ensures { result ≡ sizes_differ a b }
{
    a.first.value != b.first.value || second_differs(a.second, b.second)
}

fn second_differs(a: Option<Num>, b: Option<Num>) -> bool
    ensures { result ≡ second_differs a b }
{
    match (a, b) {
        (None, None) => false,
        (Some(a), Some(b)) => a.value != b.value,
        _ => true,
    }
}

// Whether an offset and an array's sizes have another number of coordinates.
fn dimensions_differ(offset: Option<SignedNum>, size: Option<Num>) -> bool
    ensures { result ≡ dimensions_differ offset size }
{
    match (offset, size) {
        (None, None) | (Some(_), Some(_)) => false,
        _ => true,
    }
}
