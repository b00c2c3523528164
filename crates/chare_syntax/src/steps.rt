//! Readers of steps. `levels` is how many levels of nesting may still be opened.

ghost use Rattle.std.specs.Prelude.{◌≡◌, ◌<◌, ◌≤◌, length, IfOk};
ghost use Rattle.job_tree.specs.declared.token.Mark.TheVariants as marks;
ghost use Rattle.job_tree.specs.Fault.{Gives};
ghost use Rattle.job_tree.specs.Readers.{is_mark, many};
ghost use Rattle.job_tree.specs.Reading.{behind, name_at, names_at, part_at, parts_at, overlap_at, body_at, step_at, steps_at};

use crate::fault::ParseFault;
use crate::leaves::{begins, mark_of, name_of, open_of};
use crate::statements::block_of;
use crate::token::{Mark, Span, Token};
use crate::tree::{Names, PartDecl, StepBody, StepDecl};
use sqlite_items::Items;
use std::alloc::Global;

// Reads names behind commas.
fn more_names_of(alloc: Global, tokens: &[Token]) -> Result<(Items<Span>, &[Token]), ParseFault>
    ensures exact { Gives (λ x. (x.0, x.1.now)) result
        (many (is_mark marks.Comma) (behind marks.Comma name_at) tokens.now) }
    ensures shorter { IfOk result (λ x. length x.1.now ≤ length tokens.now) }
{
    let mut rest = tokens;
    let mut names = Items::new(alloc);
    'names: while begins(rest, Mark::Comma) {
        let (_, after) = mark_of(rest, Mark::Comma)?;
        let (name, after) = name_of(after)?;
        names.push(name)?;
        rest = after;
    }
    Ok((names, rest))
}

// Reads names in their brackets.
#[tactic(auto, unfolding(job_tree::specs::Reading::names_at))]
fn names_of(alloc: Global, tokens: &[Token], levels: u32) -> Result<(Names, &[Token]), ParseFault>
    ensures exact { Gives (λ x. (x.0, x.1.now)) result (names_at levels tokens.now) }
    ensures shorter { IfOk result (λ x. length x.1.now < length tokens.now) }
{
    let (_, rest) = open_of(tokens, levels, Mark::OpenParen)?;
    let (first, rest) = name_of(rest)?;
    let (others, rest) = more_names_of(alloc, rest)?;
    let (_, rest) = mark_of(rest, Mark::CloseParen)?;
    Ok((Names { first, others }, rest))
}

// Reads a part.
#[tactic(auto, unfolding(job_tree::specs::Reading::part_at))]
fn part_of(alloc: Global, tokens: &[Token], levels: u32) -> Result<(PartDecl, &[Token]), ParseFault>
    ensures exact { Gives (λ x. (x.0, x.1.now)) result (part_at levels tokens.now) }
    ensures shorter { IfOk result (λ x. length x.1.now < length tokens.now) }
{
    let (at, rest) = mark_of(tokens, Mark::When)?;
    let (port, rest) = name_of(rest)?;
    let (names, rest) = names_of(alloc, rest, levels)?;
    let (block, rest) = block_of(alloc, rest, levels)?;
    let part = PartDecl {
        at,
        port,
        names,
        block,
    };
    Ok((part, rest))
}

// Reads parts, of which there are two at least.
#[tactic(auto, unfolding(job_tree::specs::Reading::parts_at))]
fn parts_of(
    alloc: Global,
    tokens: &[Token],
    levels: u32,
) -> Result<(Items<PartDecl>, &[Token]), ParseFault>
    ensures exact { Gives (λ x. (x.0, x.1.now)) result (parts_at levels tokens.now) }
    ensures shorter { IfOk result (λ x. length x.1.now < length tokens.now) }
{
    let (first, rest) = part_of(alloc, tokens, levels)?;
    let (second, mut rest) = part_of(alloc, rest, levels)?;
    let mut parts = Items::new(alloc);
    parts.push(first)?;
    parts.push(second)?;
    'parts: while begins(rest, Mark::When) {
        let (part, after) = part_of(alloc, rest, levels)?;
        parts.push(part)?;
        rest = after;
    }
    Ok((parts, rest))
}

// Reads an overlap.
#[tactic(auto, unfolding(job_tree::specs::Reading::overlap_at))]
fn overlap_of(
    alloc: Global,
    tokens: &[Token],
    levels: u32,
) -> Result<(StepBody, &[Token]), ParseFault>
    ensures exact { Gives (λ x. (x.0, x.1.now)) result (overlap_at levels tokens.now) }
    ensures shorter { IfOk result (λ x. length x.1.now < length tokens.now) }
{
    let (at, rest) = mark_of(tokens, Mark::Overlap)?;
    let (opened, rest) = open_of(rest, levels, Mark::OpenBrace)?;
    let (parts, rest) = parts_of(alloc, rest, opened.left)?;
    let (_, rest) = mark_of(rest, Mark::CloseBrace)?;
    Ok((StepBody::Overlap { at, parts }, rest))
}

// Reads what stands behind the word `step`.
#[tactic(auto, unfolding(job_tree::specs::Reading::body_at))]
fn body_of(alloc: Global, tokens: &[Token], levels: u32) -> Result<(StepBody, &[Token]), ParseFault>
    ensures exact { Gives (λ x. (x.0, x.1.now)) result (body_at levels tokens.now) }
    ensures shorter { IfOk result (λ x. length x.1.now < length tokens.now) }
{
    if begins(tokens, Mark::When) {
        let (part, rest) = part_of(alloc, tokens, levels)?;
        Ok((StepBody::Part(part), rest))
    } else if begins(tokens, Mark::Overlap) {
        overlap_of(alloc, tokens, levels)
    } else {
        let (block, rest) = block_of(alloc, tokens, levels)?;
        Ok((StepBody::Block(block), rest))
    }
}

// Reads a step.
#[tactic(auto, unfolding(job_tree::specs::Reading::step_at))]
fn step_of(alloc: Global, tokens: &[Token], levels: u32) -> Result<(StepDecl, &[Token]), ParseFault>
    ensures exact { Gives (λ x. (x.0, x.1.now)) result (step_at levels tokens.now) }
    ensures shorter { IfOk result (λ x. length x.1.now < length tokens.now) }
{
    let (at, rest) = mark_of(tokens, Mark::Step)?;
    let (body, rest) = body_of(alloc, rest, levels)?;
    Ok((StepDecl { at, body }, rest))
}

/// Reads steps, of which there is one at least.
#[tactic(auto, unfolding(job_tree::specs::Reading::steps_at))]
pub fn steps_of(
    alloc: Global,
    tokens: &[Token],
    levels: u32,
) -> Result<(Items<StepDecl>, &[Token]), ParseFault>
    ensures exact { Gives (λ x. (x.0, x.1.now)) result (steps_at levels tokens.now) }
    ensures shorter { IfOk result (λ x. length x.1.now < length tokens.now) }
{
    let (first, mut rest) = step_of(alloc, tokens, levels)?;
    let mut steps = Items::new(alloc);
    steps.push(first)?;
    'steps: while begins(rest, Mark::Step) {
        let (step, after) = step_of(alloc, rest, levels)?;
        steps.push(step)?;
        rest = after;
    }
    Ok((steps, rest))
}
