//! Readers of numbers in their places. `levels` is how many levels of nesting may still be opened.

ghost use Rattle.std.specs.Prelude.{◌≡◌, ◌<◌, ◌≤◌, length, IfOk};
ghost use Rattle.job_tree.specs.Fault.{Gives};
ghost use Rattle.job_tree.specs.Reading.{minus_at, signed_at, next_num_at, coordinates_at, next_signed_at, offset_at, cell_at, cells_at, count_at, counted_at};

use crate::fault::ParseFault;
use crate::leaves::{begins, mark_of, num_of, open_of};
use crate::token::{Mark, Num, Token};
use crate::tree::{Coordinates, Offset, SignedNum};

// Reads a minus, where there is one: its place.
#[tactic(auto, unfolding(job_tree::specs::Reading::minus_at))]
fn minus_of(tokens: &[Token]) -> Result<(Option<u32>, &[Token]), ParseFault>
    ensures exact { Gives (λ x. (x.0, x.1.now)) result (minus_at tokens.now) }
    ensures shorter { IfOk result (λ x. length x.1.now ≤ length tokens.now) }
{
    if !begins(tokens, Mark::Minus) {
        return Ok((None, tokens));
    }
    let (at, rest) = mark_of(tokens, Mark::Minus)?;
    Ok((Some(at), rest))
}

/// Reads a number with its sign.
#[tactic(auto, unfolding(job_tree::specs::Reading::signed_at))]
pub fn signed_of(tokens: &[Token]) -> Result<(SignedNum, &[Token]), ParseFault>
    ensures exact { Gives (λ x. (x.0, x.1.now)) result (signed_at tokens.now) }
    ensures shorter { IfOk result (λ x. length x.1.now < length tokens.now) }
{
    let (minus, rest) = minus_of(tokens)?;
    let (number, rest) = num_of(rest)?;
    Ok((SignedNum { minus, number }, rest))
}

// Reads a second number behind a comma, where there is one.
#[tactic(auto, unfolding(job_tree::specs::Reading::next_num_at))]
fn next_num_of(tokens: &[Token]) -> Result<(Option<Num>, &[Token]), ParseFault>
    ensures exact { Gives (λ x. (x.0, x.1.now)) result (next_num_at tokens.now) }
    ensures shorter { IfOk result (λ x. length x.1.now ≤ length tokens.now) }
{
    if !begins(tokens, Mark::Comma) {
        return Ok((None, tokens));
    }
    let (_, rest) = mark_of(tokens, Mark::Comma)?;
    let (number, rest) = num_of(rest)?;
    Ok((Some(number), rest))
}

/// Reads sizes or coordinates in their brackets.
#[tactic(auto, unfolding(job_tree::specs::Reading::coordinates_at))]
pub fn coordinates_of(tokens: &[Token], levels: u32) -> Result<(Coordinates, &[Token]), ParseFault>
    ensures exact { Gives (λ x. (x.0, x.1.now)) result (coordinates_at levels tokens.now) }
    ensures shorter { IfOk result (λ x. length x.1.now < length tokens.now) }
{
    let (_, rest) = open_of(tokens, levels, Mark::OpenBracket)?;
    let (first, rest) = num_of(rest)?;
    let (second, rest) = next_num_of(rest)?;
    let (_, rest) = mark_of(rest, Mark::CloseBracket)?;
    Ok((Coordinates { first, second }, rest))
}

// Reads a second number with its sign behind a comma, where there is one.
#[tactic(auto, unfolding(job_tree::specs::Reading::next_signed_at))]
fn next_signed_of(tokens: &[Token]) -> Result<(Option<SignedNum>, &[Token]), ParseFault>
    ensures exact { Gives (λ x. (x.0, x.1.now)) result (next_signed_at tokens.now) }
    ensures shorter { IfOk result (λ x. length x.1.now ≤ length tokens.now) }
{
    if !begins(tokens, Mark::Comma) {
        return Ok((None, tokens));
    }
    let (_, rest) = mark_of(tokens, Mark::Comma)?;
    let (number, rest) = signed_of(rest)?;
    Ok((Some(number), rest))
}

/// Reads an offset in its brackets.
#[tactic(auto, unfolding(job_tree::specs::Reading::offset_at))]
pub fn offset_of(tokens: &[Token], levels: u32) -> Result<(Offset, &[Token]), ParseFault>
    ensures exact { Gives (λ x. (x.0, x.1.now)) result (offset_at levels tokens.now) }
    ensures shorter { IfOk result (λ x. length x.1.now < length tokens.now) }
{
    let (_, rest) = open_of(tokens, levels, Mark::OpenBracket)?;
    let (first, rest) = signed_of(rest)?;
    let (second, rest) = next_signed_of(rest)?;
    let (_, rest) = mark_of(rest, Mark::CloseBracket)?;
    Ok((Offset { first, second }, rest))
}

// Reads a number in square brackets.
#[tactic(auto, unfolding(job_tree::specs::Reading::cell_at))]
fn cell_of(tokens: &[Token], levels: u32) -> Result<(Num, &[Token]), ParseFault>
    ensures exact { Gives (λ x. (x.0, x.1.now)) result (cell_at levels tokens.now) }
    ensures shorter { IfOk result (λ x. length x.1.now < length tokens.now) }
{
    let (_, rest) = open_of(tokens, levels, Mark::OpenBracket)?;
    let (cell, rest) = num_of(rest)?;
    let (_, rest) = mark_of(rest, Mark::CloseBracket)?;
    Ok((cell, rest))
}

/// Reads a number in square brackets, where there is one.
#[tactic(auto, unfolding(job_tree::specs::Reading::cells_at))]
pub fn cells_of(tokens: &[Token], levels: u32) -> Result<(Option<Num>, &[Token]), ParseFault>
    ensures exact { Gives (λ x. (x.0, x.1.now)) result (cells_at levels tokens.now) }
    ensures shorter { IfOk result (λ x. length x.1.now ≤ length tokens.now) }
{
    if !begins(tokens, Mark::OpenBracket) {
        return Ok((None, tokens));
    }
    let (cell, rest) = cell_of(tokens, levels)?;
    Ok((Some(cell), rest))
}

// Reads a number in round brackets.
#[tactic(auto, unfolding(job_tree::specs::Reading::count_at))]
fn count_of(tokens: &[Token], levels: u32) -> Result<(Num, &[Token]), ParseFault>
    ensures exact { Gives (λ x. (x.0, x.1.now)) result (count_at levels tokens.now) }
    ensures shorter { IfOk result (λ x. length x.1.now < length tokens.now) }
{
    let (_, rest) = open_of(tokens, levels, Mark::OpenParen)?;
    let (count, rest) = num_of(rest)?;
    let (_, rest) = mark_of(rest, Mark::CloseParen)?;
    Ok((count, rest))
}

/// Reads a number in round brackets, where there is one.
#[tactic(auto, unfolding(job_tree::specs::Reading::counted_at))]
pub fn counted_of(tokens: &[Token], levels: u32) -> Result<(Option<Num>, &[Token]), ParseFault>
    ensures exact { Gives (λ x. (x.0, x.1.now)) result (counted_at levels tokens.now) }
    ensures shorter { IfOk result (λ x. length x.1.now ≤ length tokens.now) }
{
    if !begins(tokens, Mark::OpenParen) {
        return Ok((None, tokens));
    }
    let (count, rest) = count_of(tokens, levels)?;
    Ok((Some(count), rest))
}
