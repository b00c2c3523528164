//! The plans of entries and reductions, numbered over the whole job in text order.

ghost use Rattle.std.specs.Prelude.{◌≡◌, ◌++◌, IfOk, OnOk};
ghost use Rattle.job_rules.specs.PlannedMembers.{across_written, down_written, edge_planned, entries_from, entries_of, entry_of, entry_planned, how_planned, reduction_of, reduction_planned, reductions_from, reductions_of};

use crate::numbers::{narrow8, narrow16, number16, signed8, signed64};
use crate::tables::{array_number, values_written};
use chare_base::bytes::Name;
use chare_base::memory::Memory;
use chare_base::plan::{Edge, Entry, How, Reduction};
use job_rules::names::{Names, bytes_at};
use job_tree::tree::{self, ArrayDecl, EdgeDecl, EntryDecl, MemberDecl, Offset, ReduceDecl};
use sqlite_items::Items;
use std::alloc::Global;

/// The plans of a job's entries, where its arrays have these names.
pub(crate) fn plan_entries(
    alloc: Global,
    text: &[u8],
    names: &Names,
    arrays: &[ArrayDecl],
) -> Result<Items<Entry>, Memory>
    ensures { IfOk result (λ planned. planned ≡ entries_from text.now names.now 0 arrays.now) }
{
    let mut planned = Items::new(alloc);
    for (owner, array) in arrays.iter().enumerate() {
        planned.append(entries_of(alloc, text, names, owner, array.members.as_slice())?)?;
    }
    Ok(planned)
}

fn entries_of(
    alloc: Global,
    text: &[u8],
    names: &Names,
    owner: usize,
    members: &[MemberDecl],
) -> Result<Items<Entry>, Memory>
    ensures { IfOk result (λ planned. planned ≡ entries_of text.now names.now owner members.now) }
{
    let mut planned = Items::new(alloc);
    for member in members {
        add_entry(alloc, text, names, owner, *member, &mut planned)?;
    }
    Ok(planned)
}

fn add_entry(
    alloc: Global,
    text: &[u8],
    names: &Names,
    owner: usize,
    member: MemberDecl,
    planned: &mut Items<Entry>,
) -> Result<(), Memory>
    ensures { OnOk result (planned.new ≡ planned.old ++ entry_of text.now names.now owner member) }
{
    match member {
        MemberDecl::Entry(entry) => {
            planned.push(plan_entry(alloc, text, names, owner, entry)?)?;
            Ok(())
        }
        MemberDecl::Reduce(_) => Ok(()),
    }
}

fn plan_entry(
    alloc: Global,
    text: &[u8],
    names: &Names,
    owner: usize,
    entry: EntryDecl,
) -> Result<Entry, Memory>
    ensures { IfOk result (λ planned. planned ≡ entry_planned text.now names.now owner entry) }
{
    let name = Name::from_slice(alloc, bytes_at(text, entry.name))?;
    Ok(Entry {
        name,
        owner: narrow16(owner as u64),
        source: number16(array_number(text, names, entry.source)),
        down: down(entry.offset),
        across: across(entry.offset),
        edge: plan_edge(entry.edge),
        values: narrow8(values_written(entry.values)),
    })
}

// An offset of one number is one across.
fn down(offset: Offset) -> i8
    ensures { result ≡ down_written offset.first offset.second }
{
    match offset.second {
        Some(_) => signed8(offset.first),
        None => 0,
    }
}

fn across(offset: Offset) -> i8
    ensures { result ≡ across_written offset.first offset.second }
{
    match offset.second {
        Some(second) => signed8(second),
        None => signed8(offset.first),
    }
}

fn plan_edge(edge: EdgeDecl) -> Edge
    ensures { result ≡ edge_planned edge }
{
    match edge {
        EdgeDecl::Wrap { .. } => Edge::Wrap,
        EdgeDecl::Else { value, .. } => Edge::Else(signed64(value)),
    }
}

/// The plans of a job's reductions.
pub(crate) fn plan_reductions(
    alloc: Global,
    text: &[u8],
    arrays: &[ArrayDecl],
) -> Result<Items<Reduction>, Memory>
    ensures { IfOk result (λ planned. planned ≡ reductions_from text.now 0 arrays.now) }
{
    let mut planned = Items::new(alloc);
    for (owner, array) in arrays.iter().enumerate() {
        planned.append(reductions_of(alloc, text, owner, array.members.as_slice())?)?;
    }
    Ok(planned)
}

fn reductions_of(
    alloc: Global,
    text: &[u8],
    owner: usize,
    members: &[MemberDecl],
) -> Result<Items<Reduction>, Memory>
    ensures { IfOk result (λ planned. planned ≡ reductions_of text.now owner members.now) }
{
    let mut planned = Items::new(alloc);
    for member in members {
        add_reduction(alloc, text, owner, *member, &mut planned)?;
    }
    Ok(planned)
}

fn add_reduction(
    alloc: Global,
    text: &[u8],
    owner: usize,
    member: MemberDecl,
    planned: &mut Items<Reduction>,
) -> Result<(), Memory>
    ensures { OnOk result (planned.new ≡ planned.old ++ reduction_of text.now owner member) }
{
    match member {
        MemberDecl::Entry(_) => Ok(()),
        MemberDecl::Reduce(reduction) => {
            planned.push(plan_reduction(alloc, text, owner, reduction)?)?;
            Ok(())
        }
    }
}

fn plan_reduction(
    alloc: Global,
    text: &[u8],
    owner: usize,
    reduction: ReduceDecl,
) -> Result<Reduction, Memory>
    ensures { IfOk result (λ planned. planned ≡ reduction_planned text.now owner reduction) }
{
    let name = Name::from_slice(alloc, bytes_at(text, reduction.name))?;
    Ok(Reduction {
        name,
        owner: narrow16(owner as u64),
        how: plan_how(reduction.how),
    })
}

/// How several numbers make one.
pub(crate) fn plan_how(how: tree::How) -> How
    ensures { result ≡ how_planned how }
{
    match how {
        tree::How::Sum => How::Sum,
        tree::How::Min => How::Min,
        tree::How::Max => How::Max,
    }
}
