//! Readers of statements. `levels` is how many levels of nesting may still be opened.

ghost use Rattle.std.specs.Prelude.{◌≡◌, ◌<◌, ◌≤◌, ◌+◌, length, IfOk};
ghost use Rattle.job_tree.specs.declared.token.Mark.TheVariants as marks;
ghost use Rattle.job_tree.specs.Fault.{Gives};
ghost use Rattle.job_tree.specs.Readers.{is_mark, many, optional};
ghost use Rattle.job_tree.specs.Reading.{deeper, inner, behind, index_with, expr_at, values_at, send_at, contribute_at, assign_at, block_with, else_with, if_with, for_with, stmt_with, statements_at, block_at};

use crate::expressions::{expr_of, index_of};
use crate::fault::ParseFault;
use crate::leaves::{begins, begins_stmt, mark_of, name_of, open_of};
use crate::numbers::signed_of;
use crate::token::{Mark, Token};
use crate::tree::{Block, Expr, StmtDecl, Values};
use sqlite_items::Items;
use std::alloc::Global;

// Reads values behind commas.
fn exprs_of(
    alloc: Global,
    tokens: &[Token],
    levels: u32,
) -> Result<(Items<Expr>, &[Token]), ParseFault>
    ensures exact { Gives (λ x. (x.0, x.1.now)) result
        (many (is_mark marks.Comma) (behind marks.Comma (expr_at levels)) tokens.now) }
    ensures shorter { IfOk result (λ x. length x.1.now ≤ length tokens.now) }
{
    let mut rest = tokens;
    let mut values = Items::new(alloc);
    'values: while begins(rest, Mark::Comma) {
        let (_, after) = mark_of(rest, Mark::Comma)?;
        let (value, after) = expr_of(alloc, after, levels)?;
        values.push(value)?;
        rest = after;
    }
    Ok((values, rest))
}

// Reads values in their brackets.
#[tactic(auto, unfolding(job_tree::specs::Reading::values_at))]
fn values_of(alloc: Global, tokens: &[Token], levels: u32) -> Result<(Values, &[Token]), ParseFault>
    ensures exact { Gives (λ x. (x.0, x.1.now)) result (values_at levels tokens.now) }
    ensures shorter { IfOk result (λ x. length x.1.now < length tokens.now) }
{
    let (opened, rest) = open_of(tokens, levels, Mark::OpenParen)?;
    let (first, rest) = expr_of(alloc, rest, opened.left)?;
    let (others, rest) = exprs_of(alloc, rest, opened.left)?;
    let (_, rest) = mark_of(rest, Mark::CloseParen)?;
    Ok((Values { first, others }, rest))
}

// Reads a send.
#[tactic(auto, unfolding(job_tree::specs::Reading::send_at))]
fn send_of(alloc: Global, tokens: &[Token], levels: u32) -> Result<(StmtDecl, &[Token]), ParseFault>
    ensures exact { Gives (λ x. (x.0, x.1.now)) result (send_at levels tokens.now) }
    ensures shorter { IfOk result (λ x. length x.1.now < length tokens.now) }
{
    let (at, rest) = mark_of(tokens, Mark::Send)?;
    let (array, rest) = name_of(rest)?;
    let (_, rest) = mark_of(rest, Mark::Dot)?;
    let (entry, rest) = name_of(rest)?;
    let (values, rest) = values_of(alloc, rest, levels)?;
    let statement = StmtDecl::Send {
        at,
        array,
        entry,
        values,
    };
    Ok((statement, rest))
}

// Reads a contribution.
#[tactic(auto, unfolding(job_tree::specs::Reading::contribute_at))]
fn contribute_of(
    alloc: Global,
    tokens: &[Token],
    levels: u32,
) -> Result<(StmtDecl, &[Token]), ParseFault>
    ensures exact { Gives (λ x. (x.0, x.1.now)) result (contribute_at levels tokens.now) }
    ensures shorter { IfOk result (λ x. length x.1.now < length tokens.now) }
{
    let (at, rest) = mark_of(tokens, Mark::Contribute)?;
    let (name, rest) = name_of(rest)?;
    let (opened, rest) = open_of(rest, levels, Mark::OpenParen)?;
    let (value, rest) = expr_of(alloc, rest, opened.left)?;
    let (_, rest) = mark_of(rest, Mark::CloseParen)?;
    Ok((StmtDecl::Contribute { at, name, value }, rest))
}

// Reads an index, where there is one.
fn target_index_of(
    alloc: Global,
    tokens: &[Token],
    levels: u32,
) -> Result<(Option<Expr>, &[Token]), ParseFault>
    ensures exact { Gives (λ x. (x.0, x.1.now)) result
        (optional (is_mark marks.OpenBracket) (index_with levels (deeper levels)) tokens.now) }
    ensures shorter { IfOk result (λ x. length x.1.now ≤ length tokens.now) }
{
    if !begins(tokens, Mark::OpenBracket) {
        return Ok((None, tokens));
    }
    let (index, rest) = index_of(alloc, tokens, levels)?;
    Ok((Some(index), rest))
}

// Reads an assignment.
#[tactic(auto, unfolding(job_tree::specs::Reading::assign_at))]
fn assign_of(
    alloc: Global,
    tokens: &[Token],
    levels: u32,
) -> Result<(StmtDecl, &[Token]), ParseFault>
    ensures exact { Gives (λ x. (x.0, x.1.now)) result (assign_at levels tokens.now) }
    ensures shorter { IfOk result (λ x. length x.1.now < length tokens.now) }
{
    let (target, rest) = name_of(tokens)?;
    let (index, rest) = target_index_of(alloc, rest, levels)?;
    let (_, rest) = mark_of(rest, Mark::Assign)?;
    let (value, rest) = expr_of(alloc, rest, levels)?;
    let statement = StmtDecl::Assign {
        target,
        index,
        value,
    };
    Ok((statement, rest))
}

// Reads a statement.
#[cycle(statement)]
#[tactic(auto, unfolding(job_tree::specs::Reading::stmt_with))]
fn stmt_of(alloc: Global, tokens: &[Token], levels: u32) -> Result<(StmtDecl, &[Token]), ParseFault>
    ensures exact { Gives (λ x. (x.0, x.1.now)) result
        (stmt_with levels (inner levels) tokens.now) }
    ensures shorter { IfOk result (λ x. length x.1.now < length tokens.now) }
{
    if begins(tokens, Mark::If) {
        if_of(alloc, tokens, levels)
    } else if begins(tokens, Mark::For) {
        for_of(alloc, tokens, levels)
    } else if begins(tokens, Mark::Send) {
        send_of(alloc, tokens, levels)
    } else if begins(tokens, Mark::Contribute) {
        contribute_of(alloc, tokens, levels)
    } else {
        assign_of(alloc, tokens, levels)
    }
}

// Reads an `if`, with its `else` where it has one.
#[cycle(statement)]
#[tactic(auto, unfolding(job_tree::specs::Reading::if_with))]
fn if_of(alloc: Global, tokens: &[Token], levels: u32) -> Result<(StmtDecl, &[Token]), ParseFault>
    ensures exact { Gives (λ x. (x.0, x.1.now)) result (if_with levels (inner levels) tokens.now) }
    ensures shorter { IfOk result (λ x. length x.1.now < length tokens.now) }
{
    let (at, rest) = mark_of(tokens, Mark::If)?;
    let (test, rest) = expr_of(alloc, rest, levels)?;
    let (yes, rest) = block_of(alloc, rest, levels)?;
    let (no, rest) = else_of(alloc, rest, levels)?;
    let statement = StmtDecl::If { at, test, yes, no };
    Ok((statement, rest))
}

// Reads `else` and its block, where there is one.
#[cycle(statement)]
#[tactic(auto, unfolding(job_tree::specs::Reading::else_with))]
fn else_of(
    alloc: Global,
    tokens: &[Token],
    levels: u32,
) -> Result<(Option<Block>, &[Token]), ParseFault>
    ensures exact { Gives (λ x. (x.0, x.1.now)) result
        (else_with levels (inner levels) tokens.now) }
    ensures shorter { IfOk result (λ x. length x.1.now ≤ length tokens.now) }
{
    if !begins(tokens, Mark::Else) {
        return Ok((None, tokens));
    }
    let (_, rest) = mark_of(tokens, Mark::Else)?;
    let (block, rest) = block_of(alloc, rest, levels)?;
    Ok((Some(block), rest))
}

// Reads a `for`.
#[cycle(statement)]
#[tactic(auto, unfolding(job_tree::specs::Reading::for_with))]
fn for_of(alloc: Global, tokens: &[Token], levels: u32) -> Result<(StmtDecl, &[Token]), ParseFault>
    ensures exact { Gives (λ x. (x.0, x.1.now)) result (for_with levels (inner levels) tokens.now) }
    ensures shorter { IfOk result (λ x. length x.1.now < length tokens.now) }
{
    let (at, rest) = mark_of(tokens, Mark::For)?;
    let (name, rest) = name_of(rest)?;
    let (_, rest) = mark_of(rest, Mark::In)?;
    let (low, rest) = signed_of(rest)?;
    let (_, rest) = mark_of(rest, Mark::DotDot)?;
    let (high, rest) = signed_of(rest)?;
    let (block, rest) = block_of(alloc, rest, levels)?;
    let statement = StmtDecl::For {
        at,
        name,
        low,
        high,
        block,
    };
    Ok((statement, rest))
}

/// Reads a block.
#[cycle(statement)]
#[tactic(auto, unfolding(job_tree::specs::Reading::block_with))]
pub fn block_of(
    alloc: Global,
    tokens: &[Token],
    levels: u32,
) -> Result<(Block, &[Token]), ParseFault>
    ensures exact { Gives (λ x. (x.0, x.1.now)) result (block_at levels tokens.now) }
    ensures shorter { IfOk result (λ x. length x.1.now < length tokens.now) }
{
    let (opened, rest) = open_of(tokens, levels, Mark::OpenBrace)?;
    let (statements, rest) = deeper_statements_of(alloc, rest, opened.left, levels)?;
    let (_, rest) = mark_of(rest, Mark::CloseBrace)?;
    let at = opened.at;
    Ok((Block { at, statements }, rest))
}

// Reads the statements of a block, which stand a level deeper.
#[cycle(statement)]
fn deeper_statements_of(
    alloc: Global,
    tokens: &[Token],
    left: u32,
    levels: u32,
) -> Result<(Items<StmtDecl>, &[Token]), ParseFault>
    requires { left + 1 ≡ levels }
    ensures exact { Gives (λ x. (x.0, x.1.now)) result (inner levels tokens.now) }
    ensures shorter { IfOk result (λ x. length x.1.now ≤ length tokens.now) }
{
    statements_of(alloc, tokens, left)
}

// Reads statements.
#[cycle(statement)]
fn statements_of(
    alloc: Global,
    tokens: &[Token],
    levels: u32,
) -> Result<(Items<StmtDecl>, &[Token]), ParseFault>
    ensures exact { Gives (λ x. (x.0, x.1.now)) result (statements_at levels tokens.now) }
    ensures shorter { IfOk result (λ x. length x.1.now ≤ length tokens.now) }
{
    let mut rest = tokens;
    let mut statements = Items::new(alloc);
    'statements: while begins_stmt(rest) {
        let (statement, after) = stmt_of(alloc, rest, levels)?;
        statements.push(statement)?;
        rest = after;
    }
    Ok((statements, rest))
}
