//! The names of a job: its arrays, and for each array its states, entries and reductions.

ghost use Rattle.std.specs.Prelude.{◌≡◌, [], IfOk, OnOk};
ghost use Rattle.job_rules.specs.Tables.{array_number, arrays_named, cells_written, counts_after, counts_with, job_names, meant_in, member_meaning, no_counts, port_named, ports_named, states_named, table_of, tables_from, values_written};

use chare_base::memory::Memory;
use job_rules::names::{Meaning, Names, bytes_at};
use job_rules::tables::{Counts, JobNames};
use job_tree::token::{Num, Span};
use job_tree::tree::{ArrayDecl, Job, MemberDecl, StateDecl};
use sqlite_items::Items;
use std::alloc::Global;

/// The names that a job declares.
///
/// `Memory`: an allocation was refused.
#[tactic(auto, unfolding(job_rules::specs::Tables::job_names))]
pub(crate) fn names_of(alloc: Global, text: &[u8], job: &Job) -> Result<JobNames, Memory>
    ensures { IfOk result (λ names. names ≡ job_names text.now job.now) }
{
    let arrays = name_arrays(alloc, text, job.arrays.as_slice())?;
    let tables = name_members(alloc, text, &arrays, job.arrays.as_slice())?;
    Ok(JobNames { arrays, tables })
}

/// The number of the array of this name, if there is one.
pub(crate) fn array_number(text: &[u8], arrays: &Names, name: Span) -> Option<usize>
    ensures { result ≡ array_number text.now arrays.now name }
{
    match arrays.get(bytes_at(text, name)) {
        Some(Meaning::Array { number }) => Some(number),
        _ => None,
    }
}

/// How many cells a state has as written.
pub(crate) fn cells_written(cells: Option<Num>) -> u64
    ensures { result ≡ cells_written cells }
{
    match cells {
        Some(number) => number.value,
        None => 1,
    }
}

/// How many values a message of an entry has as written.
pub(crate) fn values_written(values: Option<Num>) -> u64
    ensures { result ≡ values_written values }
{
    match values {
        Some(number) => number.value,
        None => 1,
    }
}

fn name_arrays(alloc: Global, text: &[u8], arrays: &[ArrayDecl]) -> Result<Names, Memory>
    ensures { IfOk result (λ names. names ≡ arrays_named text.now 0 arrays.now []) }
{
    let mut names = Names::new(alloc);
    for (number, array) in arrays.iter().enumerate() {
        names.declare(alloc, bytes_at(text, array.name), Meaning::Array { number })?;
    }
    Ok(names)
}

fn name_members(
    alloc: Global,
    text: &[u8],
    names: &Names,
    arrays: &[ArrayDecl],
) -> Result<Items<Names>, Memory>
    ensures { IfOk result (λ tables. tables ≡ tables_from text.now names.now no_counts arrays.now) }
{
    let mut tables = Items::new(alloc);
    let mut counts = Counts::NONE;
    for array in arrays {
        tables.push(table_of(alloc, text, names, counts, array)?)?;
        counts = counts_after(counts, array.members.as_slice());
    }
    Ok(tables)
}

// The names of an array, where ports were declared before it.
fn table_of(
    alloc: Global,
    text: &[u8],
    arrays: &Names,
    counts: Counts,
    array: &ArrayDecl,
) -> Result<Names, Memory>
    ensures { IfOk result (λ names. names ≡ table_of text.now arrays.now counts array.now) }
{
    let mut names = Names::new(alloc);
    name_states(alloc, text, &mut names, array.states.as_slice())?;
    name_ports(
        alloc,
        text,
        arrays,
        counts,
        &mut names,
        array.members.as_slice(),
    )?;
    Ok(names)
}

fn name_states(
    alloc: Global,
    text: &[u8],
    names: &mut Names,
    states: &[StateDecl],
) -> Result<(), Memory>
    ensures { OnOk result (names.new ≡ states_named text.now 0 0 names.old states.now) }
{
    let mut at = 0u64;
    for (number, state) in states.iter().enumerate() {
        let cells = cells_written(state.cells);
        let meaning = Meaning::State {
            number,
            declared: state.at,
            plain: state.cells.is_none(),
            at,
            cells,
        };
        names.declare(alloc, bytes_at(text, state.name), meaning)?;
        at = at.saturating_add(cells);
    }
    Ok(())
}

fn name_ports(
    alloc: Global,
    text: &[u8],
    arrays: &Names,
    counts: Counts,
    names: &mut Names,
    members: &[MemberDecl],
) -> Result<(), Memory>
    ensures { OnOk result (names.new
        ≡ ports_named text.now arrays.now counts names.old members.now) }
{
    let mut counts = counts;
    for member in members {
        name_port(alloc, text, arrays, counts, names, *member)?;
        counts = counts_with(counts, *member);
    }
    Ok(())
}

fn name_port(
    alloc: Global,
    text: &[u8],
    arrays: &Names,
    counts: Counts,
    names: &mut Names,
    member: MemberDecl,
) -> Result<(), Memory>
    ensures { OnOk result (names.new ≡ port_named text.now arrays.now counts names.old member) }
{
    match member {
        MemberDecl::Entry(entry) => {
            let meaning = Meaning::Entry {
                port: counts.ports,
                number: counts.entries,
                source: array_number(text, arrays, entry.source),
                values: values_written(entry.values),
            };
            names.declare(alloc, bytes_at(text, entry.name), meaning)
        }
        MemberDecl::Reduce(reduction) => {
            let meaning = Meaning::Reduction {
                port: counts.ports,
                number: counts.reductions,
            };
            names.declare(alloc, bytes_at(text, reduction.name), meaning)
        }
    }
}

/// The counts behind these members.
pub(crate) fn counts_after(counts: Counts, members: &[MemberDecl]) -> Counts
    ensures { result ≡ counts_after counts members.now }
{
    let mut counts = counts;
    for member in members {
        counts = counts_with(counts, *member);
    }
    counts
}

/// The counts behind one more member. Memory ends before they do.
pub(crate) fn counts_with(counts: Counts, member: MemberDecl) -> Counts
    ensures { result ≡ counts_with counts member }
{
    match member {
        MemberDecl::Entry(_) => Counts {
            ports: counts.ports.saturating_add(1),
            entries: counts.entries.saturating_add(1),
            reductions: counts.reductions,
        },
        MemberDecl::Reduce(_) => Counts {
            ports: counts.ports.saturating_add(1),
            entries: counts.entries,
            reductions: counts.reductions.saturating_add(1),
        },
    }
}

/// What a name means in the array of this number, if it means something there.
#[tactic(auto, unfolding(job_rules::specs::Tables::member_meaning, job_rules::specs::Names::lookup))]
pub(crate) fn member_meaning(names: &JobNames, number: usize, name: &[u8]) -> Option<Meaning>
    ensures { result ≡ member_meaning names.now number name.now }
{
    match names.tables.get(number) {
        Some(table) => table.get(name),
        None => None,
    }
}

/// The same, where the array may not be there.
#[tactic(auto, unfolding(job_rules::specs::Tables::member_meaning))]
pub(crate) fn meant_in(names: &JobNames, number: Option<usize>, name: &[u8]) -> Option<Meaning>
    ensures { result ≡ meant_in names.now number name.now }
{
    match number {
        Some(number) => member_meaning(names, number, name),
        None => None,
    }
}
