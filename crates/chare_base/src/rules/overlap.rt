//! The rule that no part of a step uses a state which another part writes.

ghost use Rattle.std.specs.Prelude.{◌≡◌, map};
ghost use Rattle.std.specs.List.{list_all, list_any};
ghost use Rattle.chare_base.specs.Overlap.{array_apart, apart_on, overlaps_hold, parts_apart, users};
ghost use Rattle.chare_base.specs.Uses.{any_of, meet, range_of, reads, stmt_reads, stmt_writes, uses, writes};

use crate::expression::Expr;
use crate::plan::{Array, Part, State, Step, Stmt};
use crate::range::Range;

#[tactic(auto, unfolding(crate::specs::Overlap::overlaps_hold))]
pub(crate) fn overlaps_hold(arrays: &[Array]) -> bool
    ensures { result ≡ overlaps_hold arrays.now }
{
    arrays.iter().all(array_apart)
}

fn array_apart(array: &Array) -> bool
    ensures { result ≡ array_apart array.now }
{
    steps_apart(array.states.as_slice(), array.steps.as_slice())
}

fn steps_apart(states: &[State], steps: &[Step]) -> bool
    ensures { result ≡ list_all (λ step. parts_apart states.now step.parts) steps.now }
{
    steps
        .iter()
        .all(|step| parts_apart(states, step.parts.as_slice()))
}

fn parts_apart(states: &[State], parts: &[Part]) -> bool
    ensures { result ≡ parts_apart states.now parts.now }
{
    states.iter().all(|state| apart_on(
        parts,
        Range {
            at: state.at,
            count: state.cells,
        },
    ))
}

fn apart_on(parts: &[Part], range: Range) -> bool
    ensures { result ≡ apart_on parts.now range }
{
    !some_write(parts, range) || users(range, parts) <= 1
}

fn some_write(parts: &[Part], range: Range) -> bool
    ensures { result ≡ list_any (λ part. writes part.block range) parts.now }
{
    parts
        .iter()
        .any(|part| writes(part.block.as_slice(), range))
}

// How many parts use a state.
fn users(range: Range, parts: &[Part]) -> usize
    ensures { result ≡ users range parts.now }
{
    let mut count = 0;
    for part in parts {
        if uses(part.block.as_slice(), range) {
            count += 1;
        }
    }
    count
}

fn uses(block: &[Stmt], range: Range) -> bool
    ensures { result ≡ uses block.now range }
{
    block_reads(block, range) || writes(block, range)
}

#[cycle(reads)]
fn block_reads(block: &[Stmt], range: Range) -> bool
    ensures { result ≡ any_of (map stmt_reads block.now) range }
{
    for stmt in block {
        if stmt_reads(stmt, range) {
            return true;
        }
    }
    false
}

#[cycle(reads)]
fn stmt_reads(stmt: &Stmt, range: Range) -> bool
    ensures { result ≡ stmt_reads stmt.now range }
{
    match stmt {
        Stmt::Set { value, .. } | Stmt::Contribute { value, .. } => reads(value, range),
        Stmt::SetAt { place, value, .. } => reads(place, range) || reads(value, range),
        Stmt::If { test, yes, no } => {
            reads(test, range)
                || (block_reads(yes.as_slice(), range) || block_reads(no.as_slice(), range))
        }
        Stmt::For { block, .. } => block_reads(block.as_slice(), range),
        Stmt::Send { values, .. } => any_reads(values.as_slice(), range),
    }
}

#[cycle(writes)]
fn writes(block: &[Stmt], range: Range) -> bool
    ensures { result ≡ writes block.now range }
{
    for stmt in block {
        if stmt_writes(stmt, range) {
            return true;
        }
    }
    false
}

#[cycle(writes)]
fn stmt_writes(stmt: &Stmt, range: Range) -> bool
    ensures { result ≡ stmt_writes stmt.now range }
{
    match stmt {
        Stmt::Set { cell, .. } => meet(range, *cell, 1),
        Stmt::SetAt { at, cells, .. } => meet(range, *at, *cells),
        Stmt::If { yes, no, .. } => writes(yes.as_slice(), range) || writes(no.as_slice(), range),
        Stmt::For { block, .. } => writes(block.as_slice(), range),
        Stmt::Send { .. } | Stmt::Contribute { .. } => false,
    }
}

#[cycle(values)]
fn any_reads(values: &[Expr], range: Range) -> bool
    ensures { result ≡ any_of (map reads values.now) range }
{
    for value in values {
        if reads(value, range) {
            return true;
        }
    }
    false
}

// Whether an expression reads a cell of a range.
#[cycle(values)]
fn reads(e: &Expr, range: Range) -> bool
    ensures { result ≡ reads e.now range }
{
    match e {
        Expr::Number(_)
        | Expr::Mail(_)
        | Expr::Loop(_)
        | Expr::Index
        | Expr::Row
        | Expr::Col
        | Expr::Which
        | Expr::Iter => false,
        Expr::Cell(at) => meet(range, *at, 1),
        Expr::CellAt { at, cells, place } => meet(range, *at, *cells) || reads(place.get(), range),
        Expr::Minus(operand) | Expr::Not(operand) => reads(operand.get(), range),
        Expr::Least(left, right) | Expr::Greatest(left, right) | Expr::Compare(_, left, right) => {
            reads(left.get(), range) || reads(right.get(), range)
        }
        Expr::Sum(first, others) => {
            let mut found = reads(first.get(), range);
            for term in others.as_slice() {
                found = found || reads(&term.value, range);
            }
            found
        }
        Expr::Product(first, others) => {
            let mut found = reads(first.get(), range);
            for factor in others.as_slice() {
                found = found || reads(&factor.value, range);
            }
            found
        }
        Expr::All(operands) | Expr::Any(operands) => any_reads(operands.as_slice(), range),
    }
}

// Whether a range has a cell in common with the `count` cells from `at` on.
fn meet(range: Range, at: u32, count: u32) -> bool
    ensures { result ≡ meet range (range_of at count) }
{
    let end = u64::from(range.at) + u64::from(range.count);
    u64::from(range.at) < u64::from(at) + u64::from(count) && u64::from(at) < end
}
