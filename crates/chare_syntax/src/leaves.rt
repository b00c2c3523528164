//! Readers of one token.

ghost use Rattle.std.specs.Prelude.{◌≡◌, ◌<◌, ◌≤◌, ◌+◌, length, IfOk, List, [], ◌∷◌};
ghost use Rattle.job_tree.specs.Fault.{Gives, wrong_fault, place};
ghost use Rattle.job_tree.specs.Readers.{goes, is_mark, mark_at, open_at};
ghost use Rattle.job_tree.specs.Reading.{told, name_in, num_in, add_in, mul_in, compare_in, here_in, choice_in, how_in, is_name, is_num, is_add, is_mul, is_compare, is_choice, is_stmt, is_member, name_at, num_at, add_at, mul_at, compare_at, here_at, choice_at, how_at, end_at};

use crate::fault::ParseFault;
use crate::token::{Kind, Mark, Num, Opened, Span, Token};
use crate::tree::{AddOp, Choice, CompareOp, Here, How, MulOp};

/// Whether a kind is this mark.
pub fn is_mark(kind: Kind, mark: Mark) -> bool
    ensures { result ≡ is_mark mark kind }
{
    match kind {
        Kind::Mark(found) => found.number() == mark.number(),
        _ => false,
    }
}

/// Whether the first token is this mark.
pub fn begins(tokens: &[Token], mark: Mark) -> bool
    ensures { result ≡ goes (is_mark mark) tokens.now }
{
    match tokens.first() {
        Some(token) => is_mark(token.kind, mark),
        None => false,
    }
}

fn is_name(kind: Kind) -> bool
    ensures { result ≡ is_name kind }
{
    match kind {
        Kind::Name(_) => true,
        _ => false,
    }
}

fn is_num(kind: Kind) -> bool
    ensures { result ≡ is_num kind }
{
    match kind {
        Kind::Number(_) => true,
        _ => false,
    }
}

fn is_stmt(kind: Kind) -> bool
    ensures { result ≡ is_stmt kind }
{
    is_name(kind)
        || is_mark(kind, Mark::If)
        || is_mark(kind, Mark::For)
        || is_mark(kind, Mark::Send)
        || is_mark(kind, Mark::Contribute)
}

/// Whether the first token is a name.
pub fn begins_name(tokens: &[Token]) -> bool
    ensures { result ≡ goes is_name tokens.now }
{
    match tokens.first() {
        Some(token) => is_name(token.kind),
        None => false,
    }
}

/// Whether the first token is a number.
pub fn begins_num(tokens: &[Token]) -> bool
    ensures { result ≡ goes is_num tokens.now }
{
    match tokens.first() {
        Some(token) => is_num(token.kind),
        None => false,
    }
}

/// Whether the first token begins a statement.
pub fn begins_stmt(tokens: &[Token]) -> bool
    ensures { result ≡ goes is_stmt tokens.now }
{
    match tokens.first() {
        Some(token) => is_stmt(token.kind),
        None => false,
    }
}

/// Whether the first token begins an entry or a reduction.
pub fn begins_member(tokens: &[Token]) -> bool
    ensures { result ≡ goes is_member tokens.now }
{
    match tokens.first() {
        Some(token) => is_mark(token.kind, Mark::Entry) || is_mark(token.kind, Mark::Reduce),
        None => false,
    }
}

/// Whether the first token is an operator of a sum.
pub fn begins_add(tokens: &[Token]) -> bool
    ensures { result ≡ goes is_add tokens.now }
{
    match tokens.first() {
        Some(token) => add_in(token.kind).is_some(),
        None => false,
    }
}

/// Whether the first token is an operator of a product.
pub fn begins_mul(tokens: &[Token]) -> bool
    ensures { result ≡ goes is_mul tokens.now }
{
    match tokens.first() {
        Some(token) => mul_in(token.kind).is_some(),
        None => false,
    }
}

/// Whether the first token is an operator that compares.
pub fn begins_compare(tokens: &[Token]) -> bool
    ensures { result ≡ goes is_compare tokens.now }
{
    match tokens.first() {
        Some(token) => compare_in(token.kind).is_some(),
        None => false,
    }
}

/// Whether the first token is `min` or `max`.
pub fn begins_choice(tokens: &[Token]) -> bool
    ensures { result ≡ goes is_choice tokens.now }
{
    match tokens.first() {
        Some(token) => choice_in(token.kind).is_some(),
        None => false,
    }
}

fn add_in(kind: Kind) -> Option<AddOp>
    ensures { result ≡ add_in kind }
{
    if is_mark(kind, Mark::Plus) {
        Some(AddOp::Plus)
    } else if is_mark(kind, Mark::Minus) {
        Some(AddOp::Minus)
    } else {
        None
    }
}

fn mul_in(kind: Kind) -> Option<MulOp>
    ensures { result ≡ mul_in kind }
{
    if is_mark(kind, Mark::Times) {
        Some(MulOp::Times)
    } else if is_mark(kind, Mark::Divide) {
        Some(MulOp::Divide)
    } else if is_mark(kind, Mark::Remainder) {
        Some(MulOp::Remainder)
    } else {
        None
    }
}

fn compare_in(kind: Kind) -> Option<CompareOp>
    ensures { result ≡ compare_in kind }
{
    if is_mark(kind, Mark::Equal) {
        Some(CompareOp::Equal)
    } else if is_mark(kind, Mark::NotEqual) {
        Some(CompareOp::NotEqual)
    } else if is_mark(kind, Mark::Less) {
        Some(CompareOp::Less)
    } else if is_mark(kind, Mark::LessEqual) {
        Some(CompareOp::LessEqual)
    } else if is_mark(kind, Mark::Greater) {
        Some(CompareOp::Greater)
    } else if is_mark(kind, Mark::GreaterEqual) {
        Some(CompareOp::GreaterEqual)
    } else {
        None
    }
}

fn here_in(kind: Kind) -> Option<Here>
    ensures { result ≡ here_in kind }
{
    if is_mark(kind, Mark::Index) {
        Some(Here::Index)
    } else if is_mark(kind, Mark::Row) {
        Some(Here::Row)
    } else if is_mark(kind, Mark::Col) {
        Some(Here::Col)
    } else if is_mark(kind, Mark::Cell) {
        Some(Here::Cell)
    } else if is_mark(kind, Mark::Iter) {
        Some(Here::Iter)
    } else {
        None
    }
}

fn choice_in(kind: Kind) -> Option<Choice>
    ensures { result ≡ choice_in kind }
{
    if is_mark(kind, Mark::Min) {
        Some(Choice::Min)
    } else if is_mark(kind, Mark::Max) {
        Some(Choice::Max)
    } else {
        None
    }
}

fn how_in(kind: Kind) -> Option<How>
    ensures { result ≡ how_in kind }
{
    if is_mark(kind, Mark::Sum) {
        Some(How::Sum)
    } else if is_mark(kind, Mark::Min) {
        Some(How::Min)
    } else if is_mark(kind, Mark::Max) {
        Some(How::Max)
    } else {
        None
    }
}

/// The fault at the first token, with which no text goes on.
pub fn wrong(tokens: &[Token]) -> ParseFault
    ensures { result ≡ wrong_fault tokens.now }
{
    match tokens.first() {
        Some(token) => match token.kind {
            Kind::Bad => ParseFault::NotToken { at: token.at },
            Kind::TooLarge => ParseFault::NumberTooLarge { at: token.at },
            _ => ParseFault::Unexpected { at: token.at },
        },
        None => ParseFault::Unexpected { at: 0 },
    }
}

/// Reads a name.
#[tactic(auto, unfolding(job_tree::specs::Reading::name_at))]
pub fn name_of(tokens: &[Token]) -> Result<(Span, &[Token]), ParseFault>
    ensures exact { Gives (λ x. (x.0, x.1.now)) result (name_at tokens.now) }
    ensures shorter { IfOk result (λ x. length x.1.now < length tokens.now) }
{
    let Some((token, rest)) = tokens.split_first() else {
        return Err(wrong(tokens));
    };
    match token.kind {
        Kind::Name(span) => Ok((span, rest)),
        _ => Err(wrong(tokens)),
    }
}

/// Reads a number.
#[tactic(auto, unfolding(job_tree::specs::Reading::num_at))]
pub fn num_of(tokens: &[Token]) -> Result<(Num, &[Token]), ParseFault>
    ensures exact { Gives (λ x. (x.0, x.1.now)) result (num_at tokens.now) }
    ensures shorter { IfOk result (λ x. length x.1.now < length tokens.now) }
{
    let Some((token, rest)) = tokens.split_first() else {
        return Err(wrong(tokens));
    };
    match token.kind {
        Kind::Number(n) => Ok((n, rest)),
        _ => Err(wrong(tokens)),
    }
}

/// Reads an operator of a sum, with its place.
#[tactic(auto, unfolding(job_tree::specs::Reading::add_at))]
pub fn add_of(tokens: &[Token]) -> Result<((u32, AddOp), &[Token]), ParseFault>
    ensures exact { Gives (λ x. (x.0, x.1.now)) result (add_at tokens.now) }
    ensures shorter { IfOk result (λ x. length x.1.now < length tokens.now) }
{
    let Some((token, rest)) = tokens.split_first() else {
        return Err(wrong(tokens));
    };
    match add_in(token.kind) {
        Some(x) => Ok(((token.at, x), rest)),
        None => Err(wrong(tokens)),
    }
}

/// Reads an operator of a product, with its place.
#[tactic(auto, unfolding(job_tree::specs::Reading::mul_at))]
pub fn mul_of(tokens: &[Token]) -> Result<((u32, MulOp), &[Token]), ParseFault>
    ensures exact { Gives (λ x. (x.0, x.1.now)) result (mul_at tokens.now) }
    ensures shorter { IfOk result (λ x. length x.1.now < length tokens.now) }
{
    let Some((token, rest)) = tokens.split_first() else {
        return Err(wrong(tokens));
    };
    match mul_in(token.kind) {
        Some(x) => Ok(((token.at, x), rest)),
        None => Err(wrong(tokens)),
    }
}

/// Reads an operator that compares.
#[tactic(auto, unfolding(job_tree::specs::Reading::compare_at))]
pub fn compare_of(tokens: &[Token]) -> Result<(CompareOp, &[Token]), ParseFault>
    ensures exact { Gives (λ x. (x.0, x.1.now)) result (compare_at tokens.now) }
    ensures shorter { IfOk result (λ x. length x.1.now < length tokens.now) }
{
    let Some((token, rest)) = tokens.split_first() else {
        return Err(wrong(tokens));
    };
    match compare_in(token.kind) {
        Some(x) => Ok((x, rest)),
        None => Err(wrong(tokens)),
    }
}

/// Reads a word for a number of the place, with its place.
#[tactic(auto, unfolding(job_tree::specs::Reading::here_at))]
pub fn here_of(tokens: &[Token]) -> Result<((u32, Here), &[Token]), ParseFault>
    ensures exact { Gives (λ x. (x.0, x.1.now)) result (here_at tokens.now) }
    ensures shorter { IfOk result (λ x. length x.1.now < length tokens.now) }
{
    let Some((token, rest)) = tokens.split_first() else {
        return Err(wrong(tokens));
    };
    match here_in(token.kind) {
        Some(x) => Ok(((token.at, x), rest)),
        None => Err(wrong(tokens)),
    }
}

/// Reads `min` or `max`, with its place.
#[tactic(auto, unfolding(job_tree::specs::Reading::choice_at))]
pub fn choice_of(tokens: &[Token]) -> Result<((u32, Choice), &[Token]), ParseFault>
    ensures exact { Gives (λ x. (x.0, x.1.now)) result (choice_at tokens.now) }
    ensures shorter { IfOk result (λ x. length x.1.now < length tokens.now) }
{
    let Some((token, rest)) = tokens.split_first() else {
        return Err(wrong(tokens));
    };
    match choice_in(token.kind) {
        Some(x) => Ok(((token.at, x), rest)),
        None => Err(wrong(tokens)),
    }
}

/// Reads `sum`, `min` or `max`.
#[tactic(auto, unfolding(job_tree::specs::Reading::how_at))]
pub fn how_of(tokens: &[Token]) -> Result<(How, &[Token]), ParseFault>
    ensures exact { Gives (λ x. (x.0, x.1.now)) result (how_at tokens.now) }
    ensures shorter { IfOk result (λ x. length x.1.now < length tokens.now) }
{
    let Some((token, rest)) = tokens.split_first() else {
        return Err(wrong(tokens));
    };
    match how_in(token.kind) {
        Some(x) => Ok((x, rest)),
        None => Err(wrong(tokens)),
    }
}

/// Reads this mark: its place.
#[tactic(auto, unfolding(job_tree::specs::Readers::mark_at))]
pub fn mark_of(tokens: &[Token], mark: Mark) -> Result<(u32, &[Token]), ParseFault>
    ensures exact { Gives (λ x. (x.0, x.1.now)) result (mark_at mark tokens.now) }
    ensures shorter { IfOk result (λ x. length x.1.now < length tokens.now) }
{
    let Some((token, rest)) = tokens.split_first() else {
        return Err(wrong(tokens));
    };
    if is_mark(token.kind, mark) {
        Ok((token.at, rest))
    } else {
        Err(wrong(tokens))
    }
}

/// Reads a mark that opens a level, where `levels` may still be opened.
///
/// Errors: `TooDeep` at the mark where none may be opened.
#[tactic(auto, unfolding(job_tree::specs::Readers::open_at, job_tree::specs::Readers::mark_at))]
pub fn open_of(tokens: &[Token], levels: u32, mark: Mark) -> Result<(Opened, &[Token]), ParseFault>
    ensures exact { Gives (λ x. (x.0, x.1.now)) result (open_at levels mark tokens.now) }
    ensures shorter { IfOk result (λ x. length x.1.now < length tokens.now) }
    ensures deeper { IfOk result (λ x. x.0.left + 1 ≡ levels) }
{
    let Some((token, rest)) = tokens.split_first() else {
        return Err(wrong(tokens));
    };
    if !is_mark(token.kind, mark) {
        return Err(wrong(tokens));
    }
    if levels == 0 {
        return Err(ParseFault::TooDeep { at: token.at });
    }
    let opened = Opened {
        at: token.at,
        left: levels - 1,
    };
    Ok((opened, rest))
}

/// Reads the end of the text, with nothing behind it.
#[tactic(auto, unfolding(job_tree::specs::Reading::end_at))]
pub fn end_of(tokens: &[Token]) -> Result<(), ParseFault>
    ensures exact { Gives (λ x. (tt, [])) result (end_at tokens.now) }
{
    let Some((token, rest)) = tokens.split_first() else {
        return Err(wrong(tokens));
    };
    match token.kind {
        Kind::End => {
            if rest.is_empty() {
                Ok(())
            } else {
                Err(wrong(rest))
            }
        }
        _ => Err(wrong(tokens)),
    }
}
