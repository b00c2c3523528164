//! Names that are declared once.

ghost use Rattle.std.specs.Prelude.{◌≡◌, ◌==◌, ◌&&◌, length};
ghost use Rattle.std.specs.List.{list_all, list_any};
ghost use Rattle.std.specs.Str.{bytes_eq};
ghost use Rattle.chare_base.specs.Names.{names_hold, distinct_by, array_name, state_name, distinct_entries, distinct_reductions, entry_is_new, entry_named, reduction_is_new, reduction_named, state_named};

use crate::plan::{Array, Entry, Reduction, State};

#[tactic(auto, unfolding(crate::specs::Names::names_hold))]
pub(crate) fn names_hold(arrays: &[Array], entries: &[Entry], reductions: &[Reduction]) -> bool
    ensures { result ≡ names_hold arrays.now entries.now reductions.now }
{
    distinct_arrays(arrays)
        && distinct_states(arrays)
        && distinct_entries(entries)
        && entries_are_new(arrays, entries)
        && distinct_reductions(reductions)
        && reductions_are_new(arrays, entries, reductions)
}

fn same_name(a: &[u8], b: &[u8]) -> bool
    ensures { result ≡ bytes_eq a.now b.now }
{
    a == b
}

// No array has the name of another.
fn distinct_arrays(arrays: &[Array]) -> bool
    ensures { result ≡ distinct_by array_name arrays.now }
{
    let mut rest = arrays;
    'arrays: while let Some((first, more)) = rest.split_first() {
        if array_named(first.name.as_slice(), more) {
            return false;
        }
        rest = more;
    }
    true
}

fn array_named(name: &[u8], arrays: &[Array]) -> bool
    ensures { result ≡ list_any (λ a. bytes_eq name.now (array_name a)) arrays.now }
{
    arrays.iter().any(|a| same_name(name, a.name.as_slice()))
}

fn distinct_states(arrays: &[Array]) -> bool
    ensures { result ≡ list_all (λ a. distinct_by state_name a.states) arrays.now }
{
    arrays
        .iter()
        .all(|array| distinct_names(array.states.as_slice()))
}

// No state has the name of another.
fn distinct_names(states: &[State]) -> bool
    ensures { result ≡ distinct_by state_name states.now }
{
    let mut rest = states;
    'states: while let Some((first, more)) = rest.split_first() {
        if named_in(first.name.as_slice(), more) {
            return false;
        }
        rest = more;
    }
    true
}

fn named_in(name: &[u8], states: &[State]) -> bool
    ensures { result ≡ list_any (λ s. bytes_eq name.now (state_name s)) states.now }
{
    states.iter().any(|s| same_name(name, s.name.as_slice()))
}

// Whether one of an array's states has this name.
fn state_named(arrays: &[Array], owner: u16, name: &[u8]) -> bool
    ensures { result ≡ state_named arrays.now owner name.now }
{
    match arrays.get(owner as usize) {
        Some(array) => named_in(name, array.states.as_slice()),
        None => false,
    }
}

// No entry has the name of another of its array.
fn distinct_entries(entries: &[Entry]) -> bool
    ensures { result ≡ distinct_entries entries.now }
{
    let mut rest = entries;
    'entries: while let Some((first, more)) = rest.split_first() {
        if entry_named(first.owner, first.name.as_slice(), more) {
            return false;
        }
        rest = more;
    }
    true
}

fn entry_named(owner: u16, name: &[u8], entries: &[Entry]) -> bool
    ensures { result ≡ entry_named owner name.now entries.now }
{
    entries
        .iter()
        .any(|e| e.owner == owner && same_name(name, e.name.as_slice()))
}

fn entries_are_new(arrays: &[Array], entries: &[Entry]) -> bool
    ensures { result ≡ list_all (entry_is_new arrays.now) entries.now }
{
    entries.iter().all(|entry| !state_named(arrays, entry.owner, entry.name.as_slice()))
}

// No reduction has the name of another of its array.
fn distinct_reductions(reductions: &[Reduction]) -> bool
    ensures { result ≡ distinct_reductions reductions.now }
{
    let mut rest = reductions;
    'reductions: while let Some((first, more)) = rest.split_first() {
        if reduction_named(first.owner, first.name.as_slice(), more) {
            return false;
        }
        rest = more;
    }
    true
}

fn reduction_named(owner: u16, name: &[u8], reductions: &[Reduction]) -> bool
    ensures { result ≡ reduction_named owner name.now reductions.now }
{
    reductions
        .iter()
        .any(|r| r.owner == owner && same_name(name, r.name.as_slice()))
}

fn reductions_are_new(arrays: &[Array], entries: &[Entry], reductions: &[Reduction]) -> bool
    ensures { result ≡ list_all (reduction_is_new arrays.now entries.now) reductions.now }
{
    reductions
        .iter()
        .all(|reduction| reduction_is_new(arrays, entries, reduction))
}

// No entry and no state of its array has the reduction's name.
fn reduction_is_new(arrays: &[Array], entries: &[Entry], reduction: &Reduction) -> bool
    ensures { result ≡ reduction_is_new arrays.now entries.now reduction.now }
{
    let name = reduction.name.as_slice();
    !entry_named(reduction.owner, name, entries) && !state_named(arrays, reduction.owner, name)
}
