//! The numbers by which a plan names its parts.

ghost use Rattle.std.specs.Prelude.{◌≡◌, ◌==◌, ◌&&◌, ◌||◌, not, nat_lt, nat_le, length, slice_get};
ghost use Rattle.std.specs.List.{list_all, list_any};
ghost use Rattle.chare_base.specs.Sizes.{cells_in};
ghost use Rattle.chare_base.specs.Ranges.{ranges_hold, arrays_in_range, array_in_range, all_in, answer_in_range, cell_of_array, entry_in_range, exchanged, expr_in_range, indexed_at, need_in_range, no_offset, part_in_range, part_scope, plain_at, port_in_range, port_values, received_by, reduced_in, reduction_in_range, same_shape, sends_in_range, sent_from, start_in_range, state_there, step_in_range, stmt_in_range, value_in_range, values_of};
ghost use Rattle.std.specs.Prelude.{map};

use crate::expression::Expr;
use crate::limits;
use crate::message::{EntryId, Need, Port, ReductionId};
use crate::plan::{Answer, Array, Entry, Part, Reduction, State, Step, Stmt};
use crate::scope::Scope;

#[tactic(auto, unfolding(crate::specs::Ranges::ranges_hold))]
pub(crate) fn ranges_hold(
    arrays: &[Array],
    entries: &[Entry],
    reductions: &[Reduction],
    answers: &[Answer],
) -> bool
    ensures { result ≡ ranges_hold arrays.now entries.now reductions.now answers.now }
{
    arrays_in_range(entries, reductions, arrays)
        && entries_in_range(arrays, entries)
        && reductions_in_range(arrays, reductions)
        && answers_in_range(arrays, answers)
}

fn arrays_in_range(entries: &[Entry], reductions: &[Reduction], arrays: &[Array]) -> bool
    ensures { result ≡ arrays_in_range entries.now reductions.now 0 arrays.now }
{
    let mut holds = true;
    for (number, array) in arrays.iter().enumerate() {
        holds = holds && array_in_range(entries, reductions, number, array);
    }
    holds
}

fn array_in_range(entries: &[Entry], reductions: &[Reduction], number: usize, array: &Array) -> bool
    ensures { result ≡ array_in_range entries.now reductions.now number array.now }
{
    let states = array.states.as_slice();
    starts_in_range(states)
        && steps_in_range(entries, reductions, number, states, array.steps.as_slice())
}

fn starts_in_range(states: &[State]) -> bool
    ensures { result ≡ list_all start_in_range states.now }
{
    states.iter().all(start_in_range)
}

fn start_in_range(state: &State) -> bool
    ensures { result ≡ start_in_range state.now }
{
    let scope = Scope {
        values: 0,
        loops: 0,
        which: !state.plain,
        iter: false,
    };
    expr_in_range(&[], scope, &state.start)
}

fn steps_in_range(
    entries: &[Entry],
    reductions: &[Reduction],
    array: usize,
    states: &[State],
    steps: &[Step],
) -> bool
    ensures { result ≡ list_all (step_in_range entries.now reductions.now array states.now)
        steps.now }
{
    steps.iter().all(|step| parts_in_range(
        entries,
        reductions,
        array,
        states,
        step.parts.as_slice(),
    ))
}

fn parts_in_range(
    entries: &[Entry],
    reductions: &[Reduction],
    array: usize,
    states: &[State],
    parts: &[Part],
) -> bool
    ensures { result ≡ list_all (part_in_range entries.now reductions.now array states.now)
        parts.now }
{
    parts.iter().all(|part| part_in_range(entries, reductions, array, states, part))
}

fn part_in_range(
    entries: &[Entry],
    reductions: &[Reduction],
    array: usize,
    states: &[State],
    part: &Part,
) -> bool
    ensures { result ≡ part_in_range entries.now reductions.now array states.now part.now }
{
    let values = values_of(entries, part.need);
    let block = part.block.as_slice();
    need_in_range(entries, reductions, array, part.need)
        && block_sends_in_range(entries, reductions, array, block)
        && part_block_in_range(states, values, block)
}

// Whether what is needed comes at a port of this array, if anything is.
fn need_in_range(entries: &[Entry], reductions: &[Reduction], array: usize, need: Need) -> bool
    ensures { result ≡ need_in_range entries.now reductions.now array need }
{
    match need {
        Need::Nothing => true,
        Need::Port(Port::Entry(entry)) => received_by(entries, array, entry),
        Need::Port(Port::Total(reduction)) => reduced_in(reductions, array, reduction),
    }
}

fn received_by(entries: &[Entry], array: usize, entry: EntryId) -> bool
    ensures { result ≡ received_by array (slice_get entries.now entry.0) }
{
    match entries.get(entry.0 as usize) {
        Some(entry) => entry.owner as usize == array,
        None => false,
    }
}

// Whether a reduction is one of this array.
fn reduced_in(reductions: &[Reduction], array: usize, reduction: ReductionId) -> bool
    ensures { result ≡ reduced_in array (slice_get reductions.now reduction.0) }
{
    match reductions.get(reduction.0 as usize) {
        Some(reduction) => reduction.owner as usize == array,
        None => false,
    }
}

// How many values come with what is needed.
fn values_of(entries: &[Entry], need: Need) -> usize
    ensures { result ≡ values_of entries.now need }
{
    match need {
        Need::Nothing => 0,
        Need::Port(Port::Total(_)) => 1,
        Need::Port(Port::Entry(entry)) => match entries.get(entry.0 as usize) {
            Some(found) => found.values as usize,
            None => 0,
        },
    }
}

fn block_sends_in_range(
    entries: &[Entry],
    reductions: &[Reduction],
    array: usize,
    block: &[Stmt],
) -> bool
    ensures { result ≡ list_all (sends_in_range entries.now reductions.now array) block.now }
{
    block
        .iter()
        .all(|stmt| sends_in_range(entries, reductions, array, stmt))
}

// Whether a statement itself sends to what this array's elements send to.
fn sends_in_range(entries: &[Entry], reductions: &[Reduction], array: usize, stmt: &Stmt) -> bool
    ensures { result ≡ sends_in_range entries.now reductions.now array stmt.now }
{
    match stmt {
        Stmt::Send { entry, values } => sent_from(entries, array, values.len(), *entry),
        Stmt::Contribute { reduction, .. } => reduced_in(reductions, array, *reduction),
        Stmt::Set { .. } | Stmt::SetAt { .. } | Stmt::If { .. } | Stmt::For { .. } => true,
    }
}

fn part_block_in_range(states: &[State], values: usize, block: &[Stmt]) -> bool
    ensures { result ≡ list_all (λ stmt. stmt_in_range states.now values stmt 0) block.now }
{
    block
        .iter()
        .all(|stmt| stmt_in_range(states, values, stmt, 0))
}

#[cycle(statements)]
fn block_in_range(states: &[State], values: usize, block: &[Stmt], loops: usize) -> bool
    ensures { result ≡ all_in (map (stmt_in_range states.now values) block.now) loops }
{
    for stmt in block {
        if !stmt_in_range(states, values, stmt, loops) {
            return false;
        }
    }
    true
}

// Whether a statement inside `loops` loops names what is there alone.
#[cycle(statements)]
fn stmt_in_range(states: &[State], values: usize, stmt: &Stmt, loops: usize) -> bool
    ensures { result ≡ stmt_in_range states.now values stmt.now loops }
{
    match stmt {
        Stmt::Set { cell, value } => {
            plain_at(states, *cell) && value_in_range(states, values, loops, value)
        }
        Stmt::SetAt {
            at,
            cells,
            place,
            value,
        } => {
            indexed_at(states, *at, *cells)
                && (value_in_range(states, values, loops, place)
                    && value_in_range(states, values, loops, value))
        }
        Stmt::If { test, yes, no } => {
            value_in_range(states, values, loops, test)
                && (block_in_range(states, values, yes.as_slice(), loops)
                    && block_in_range(states, values, no.as_slice(), loops))
        }
        Stmt::For { slot, block, .. } => {
            *slot as usize == loops
                && (loops < limits::LOOPS
                    && block_in_range(states, values, block.as_slice(), loops + 1))
        }
        Stmt::Send { values: sent, .. } => all_in_range(states, values, loops, sent.as_slice()),
        Stmt::Contribute { value, .. } => value_in_range(states, values, loops, value),
    }
}

fn all_in_range(states: &[State], values: usize, loops: usize, expressions: &[Expr]) -> bool
    ensures { result ≡ list_all (value_in_range states.now values loops) expressions.now }
{
    expressions
        .iter()
        .all(|e| value_in_range(states, values, loops, e))
}

// Whether an expression of a part, inside `loops` loops, reads what is there alone.
#[tactic(auto, unfolding(crate::specs::Ranges::value_in_range))]
fn value_in_range(states: &[State], values: usize, loops: usize, e: &Expr) -> bool
    ensures { result ≡ value_in_range states.now values loops e.now }
{
    expr_in_range(states, part_scope(values, loops), e)
}

// What a part's expressions may read inside `loops` loops.
fn part_scope(values: usize, loops: usize) -> Scope
    ensures { result ≡ part_scope values loops }
{
    Scope {
        values,
        loops,
        which: false,
        iter: true,
    }
}

// Whether an entry is sent by this array's elements, with `count` values.
fn sent_from(entries: &[Entry], array: usize, count: usize, entry: EntryId) -> bool
    ensures { result ≡ sent_from array count (slice_get entries.now entry.0) }
{
    match entries.get(entry.0 as usize) {
        Some(entry) => entry.source as usize == array && entry.values as usize == count,
        None => false,
    }
}

// Whether a cell is the only one of a state.
#[tactic(auto, unfolding(crate::specs::Ranges::plain_at))]
fn plain_at(states: &[State], cell: u32) -> bool
    ensures { result ≡ plain_at states.now cell }
{
    states.iter().any(|state| state.plain && state.at == cell)
}

// Whether these are the cells of a state that is named with an index.
#[tactic(auto, unfolding(crate::specs::Ranges::indexed_at))]
fn indexed_at(states: &[State], at: u32, cells: u32) -> bool
    ensures { result ≡ indexed_at states.now at cells }
{
    states.iter().any(|state| !state.plain && (state.at == at && state.cells == cells))
}

// Whether an expression reads what is there alone.
fn expr_in_range(states: &[State], scope: Scope, e: &Expr) -> bool
    ensures { result ≡ expr_in_range states.now scope e.now }
{
    match e {
        Expr::Number(_) | Expr::Index | Expr::Row | Expr::Col => true,
        Expr::Cell(cell) => plain_at(states, *cell),
        Expr::CellAt { at, cells, place } => {
            indexed_at(states, *at, *cells) && expr_in_range(states, scope, place.get())
        }
        Expr::Mail(value) => (*value as usize) < scope.values,
        Expr::Loop(slot) => (*slot as usize) < scope.loops,
        Expr::Which => scope.which,
        Expr::Iter => scope.iter,
        Expr::Minus(operand) | Expr::Not(operand) => expr_in_range(states, scope, operand.get()),
        Expr::Least(left, right) | Expr::Greatest(left, right) | Expr::Compare(_, left, right) => {
            expr_in_range(states, scope, left.get()) && expr_in_range(states, scope, right.get())
        }
        Expr::Sum(first, others) => {
            let mut holds = expr_in_range(states, scope, first.get());
            for term in others.as_slice() {
                holds = holds && expr_in_range(states, scope, &term.value);
            }
            holds
        }
        Expr::Product(first, others) => {
            let mut holds = expr_in_range(states, scope, first.get());
            for factor in others.as_slice() {
                holds = holds && expr_in_range(states, scope, &factor.value);
            }
            holds
        }
        Expr::All(operands) | Expr::Any(operands) => {
            let mut holds = true;
            for operand in operands.as_slice() {
                holds = holds && expr_in_range(states, scope, operand);
            }
            holds
        }
    }
}

fn entries_in_range(arrays: &[Array], entries: &[Entry]) -> bool
    ensures { result ≡ list_all (entry_in_range arrays.now) entries.now }
{
    entries.iter().all(|entry| entry_in_range(arrays, entry))
}

// Whether both arrays of an entry are there, and of one shape.
fn entry_in_range(arrays: &[Array], entry: &Entry) -> bool
    ensures { result ≡ entry_in_range arrays.now entry.now }
{
    match (
        arrays.get(entry.owner as usize),
        arrays.get(entry.source as usize),
    ) {
        (Some(owner), Some(source)) => exchanged(owner, source, entry.down),
        _ => false,
    }
}

fn exchanged(owner: &Array, source: &Array, down: i8) -> bool
    ensures { result ≡ (same_shape owner.now source.now && (not owner.now.flat || no_offset down)) }
{
    same_shape(owner, source) && (!owner.flat || no_offset(down))
}

fn no_offset(offset: i8) -> bool
    ensures { result ≡ no_offset offset }
{
    offset == 0
}

fn same_shape(a: &Array, b: &Array) -> bool
    ensures { result ≡ same_shape a.now b.now }
{
    (a.flat && b.flat || !a.flat && !b.flat) && (a.rows == b.rows && a.cols == b.cols)
}

fn reductions_in_range(arrays: &[Array], reductions: &[Reduction]) -> bool
    ensures { result ≡ list_all (reduction_in_range arrays.now) reductions.now }
{
    reductions
        .iter()
        .all(|reduction| (reduction.owner as usize) < arrays.len())
}

fn answers_in_range(arrays: &[Array], answers: &[Answer]) -> bool
    ensures { result ≡ list_all (answer_in_range arrays.now) answers.now }
{
    answers
        .iter()
        .all(|answer| answer_in_range(arrays, *answer))
}

fn answer_in_range(arrays: &[Array], answer: Answer) -> bool
    ensures { result ≡ answer_in_range arrays.now answer }
{
    match answer {
        Answer::Over { array, state, .. } => match arrays.get(array as usize) {
            Some(found) => (state as usize) < found.states.len(),
            None => false,
        },
        Answer::At { element, cell } => cell_there(arrays, element.0, cell),
    }
}

fn cell_there(arrays: &[Array], element: u32, cell: u32) -> bool
    ensures { result ≡ list_any (cell_of_array element cell) arrays.now }
{
    arrays
        .iter()
        .any(|array| cell_of_array(element, cell, array))
}

// Whether an element is one of an array, and a cell one of its cells.
fn cell_of_array(element: u32, cell: u32, array: &Array) -> bool
    ensures { result ≡ cell_of_array element cell array.now }
{
    let end = u128::from(array.first) + u128::from(array.rows) * u128::from(array.cols);
    array.first <= element
        && (u128::from(element) < end && cell_below(cell, array.states.as_slice()))
}

// Whether the states have more cells than this number.
fn cell_below(cell: u32, states: &[State]) -> bool
    ensures { result ≡ nat_lt cell (cells_in states.now) }
{
    let mut left = cell;
    for state in states {
        if left < state.cells {
            return true;
        }
        left -= state.cells;
    }
    false
}
