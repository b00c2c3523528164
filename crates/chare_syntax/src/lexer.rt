//! A text as tokens: in one pass, the longest token first.

ghost use Rattle.std.specs.Prelude.{◌≡◌, ◌^◌, ◌<◌, ◌≤◌, ◌++◌, ◌-◌, IfOk, IfSome, length, min};
ghost use Rattle.std.specs.List.{take_while};
ghost use Rattle.job_tree.specs.Tokens.{tokens, piece_at, piece_tokens, len_of, Fits, word_piece, number_piece, number_from, symbol_piece, pair_at, pair_mark, bracket_mark, operator_mark, is_blank, is_letter, is_digit, in_word, in_comment};

use crate::token::{Kind, Mark, Num, Piece, Span, Token};
use crate::words::reserved;
use chare_bytes::memory::Memory;
use std::alloc::Global;

/// The greatest number that a text may write.
pub const GREATEST: u64 = 9_223_372_036_854_775_807;

/// The tokens of a text. The last one is `End`, with the text's length as its place, `Bad` or `TooLarge`.
///
/// `Memory`: an allocation was refused.
#[tactic(auto, unfolding(job_tree::specs::Tokens::tokens))]
pub fn tokens(alloc: Global, text: &[u8]) -> Result<Vec<Token>, Memory>
    requires { length text.now < 2 ^ 32 }
    ensures { IfOk result (λ all. all.items ≡ tokens text.now) }
{
    let mut all = Vec::new(alloc);
    let mut at = 0;
    let mut rest = text;
    'pieces: while let Some(piece) = first_piece(at, rest) {
        let Some(len) = add(&mut all, piece, at)? else {
            return Ok(all);
        };
        at += len;
        rest = rest.split_at(len as usize).1;
    }
    all.push(Token {
        kind: Kind::End,
        at,
    })?;
    Ok(all)
}

// Puts a piece's token at the end, and tells the piece's length unless the token is the last.
fn add(all: &mut Vec<Token>, piece: Piece, at: u32) -> Result<Option<u32>, Memory>
    ensures { IfOk result (λ len. (len ≡ len_of piece)
        × (all.new.items ≡ all.old.items ++ piece_tokens piece at)) }
{
    match piece {
        Piece::Blank(len) => Ok(Some(len)),
        Piece::Token(kind, len) => {
            all.push(Token { kind, at })?;
            Ok(Some(len))
        }
        Piece::Last(kind) => {
            all.push(Token { kind, at })?;
            Ok(None)
        }
    }
}

// The piece at the front of a text that isn't empty.
#[tactic(auto, unfolding(job_tree::specs::Tokens::piece_at), using(crate::proofs::Skips::take_passing))]
fn first_piece(at: u32, text: &[u8]) -> Option<Piece>
    requires { length text.now < 2 ^ 32 }
    ensures exact { result ≡ piece_at at text.now }
    ensures within { IfSome result (λ piece. Fits piece (length text.now)) }
{
    let (byte, behind) = text.split_first()?;
    let byte = *byte;
    if is_blank(byte) {
        Some(Piece::Blank(1))
    } else if byte == b'#' {
        Some(Piece::Blank(1 + comment_len(behind) as u32))
    } else if is_letter(byte) {
        Some(word_piece(at, &text[..1 + word_len(behind)]))
    } else if is_digit(byte) {
        Some(number_piece(at, &text[..1 + digits_len(behind)]))
    } else {
        Some(symbol_piece(pair(byte, behind), byte))
    }
}

// A reserved word's mark, or a name.
fn word_piece(at: u32, word: &[u8]) -> Piece
    requires { length word.now < 2 ^ 32 }
    ensures { result ≡ word_piece at word.now }
{
    let len = word.len() as u32;
    match reserved(word) {
        Some(mark) => Piece::Token(Kind::Mark(mark), len),
        None => Piece::Token(Kind::Name(Span { at, len }), len),
    }
}

// A number, or one above the greatest.
fn number_piece(at: u32, digits: &[u8]) -> Piece
    requires { length digits.now < 2 ^ 32 }
    ensures { result ≡ number_piece at digits.now }
{
    let value = number_of(digits);
    if value <= GREATEST {
        Piece::Token(Kind::Number(Num { at, value }), digits.len() as u32)
    } else {
        Piece::Last(Kind::TooLarge)
    }
}

// The number that digits spell, or the type's greatest where it is above that.
#[tactic(auto, using(crate::proofs::Skips::capped_next))]
fn number_of(digits: &[u8]) -> u64
    ensures { result ≡ min (number_from 0 digits.now) (2 ^ 64 - 1) }
{
    let mut value = 0u64;
    'digits: for digit in digits {
        let digit = digit.saturating_sub(b'0') as u64;
        value = value.saturating_mul(10).saturating_add(digit);
    }
    value
}

// A symbol of two bytes, or else of one.
fn symbol_piece(pair: Option<Mark>, byte: u8) -> Piece
    ensures { result ≡ symbol_piece pair byte }
{
    if let Some(mark) = pair {
        return Piece::Token(Kind::Mark(mark), 2);
    }
    match bracket(byte).or(operator(byte)) {
        Some(mark) => Piece::Token(Kind::Mark(mark), 1),
        None => Piece::Last(Kind::Bad),
    }
}

// A symbol of two bytes at the front.
fn pair(byte: u8, behind: &[u8]) -> Option<Mark>
    ensures { result ≡ pair_at byte behind.now }
{
    let next = *behind.first()?;
    if byte == b'.' && next == b'.' {
        Some(Mark::DotDot)
    } else if byte == b'=' && next == b'=' {
        Some(Mark::Equal)
    } else if byte == b'!' && next == b'=' {
        Some(Mark::NotEqual)
    } else if byte == b'<' && next == b'=' {
        Some(Mark::LessEqual)
    } else if byte == b'>' && next == b'=' {
        Some(Mark::GreaterEqual)
    } else {
        None
    }
}

// Brackets, and what stands between parts.
fn bracket(byte: u8) -> Option<Mark>
    ensures { result ≡ bracket_mark byte }
{
    match byte {
        b'{' => Some(Mark::OpenBrace),
        b'}' => Some(Mark::CloseBrace),
        b'[' => Some(Mark::OpenBracket),
        b']' => Some(Mark::CloseBracket),
        b'(' => Some(Mark::OpenParen),
        b')' => Some(Mark::CloseParen),
        b',' => Some(Mark::Comma),
        b'.' => Some(Mark::Dot),
        b':' => Some(Mark::Colon),
        _ => None,
    }
}

// Operators of one byte.
fn operator(byte: u8) -> Option<Mark>
    ensures { result ≡ operator_mark byte }
{
    match byte {
        b'=' => Some(Mark::Assign),
        b'<' => Some(Mark::Less),
        b'>' => Some(Mark::Greater),
        b'+' => Some(Mark::Plus),
        b'-' => Some(Mark::Minus),
        b'*' => Some(Mark::Times),
        b'/' => Some(Mark::Divide),
        b'%' => Some(Mark::Remainder),
        _ => None,
    }
}

fn is_blank(byte: u8) -> bool
    ensures { result ≡ is_blank byte }
{
    byte == b' ' || byte == b'\t' || byte == b'\n' || byte == b'\r'
}

fn is_letter(byte: u8) -> bool
    ensures { result ≡ is_letter byte }
{
    (byte >= b'a' && byte <= b'z') || (byte >= b'A' && byte <= b'Z') || byte == b'_'
}

fn is_digit(byte: u8) -> bool
    ensures { result ≡ is_digit byte }
{
    byte >= b'0' && byte <= b'9'
}

fn in_word(byte: u8) -> bool
    ensures { result ≡ in_word byte }
{
    is_letter(byte) || is_digit(byte)
}

// How many bytes a comment has up to its line's end.
fn comment_len(text: &[u8]) -> usize
    ensures exact { result ≡ length (take_while in_comment text.now) }
    ensures within { result ≤ length text.now }
{
    text.iter().take_while(|byte| **byte != b'\n').count()
}

// How many bytes go on a word.
fn word_len(text: &[u8]) -> usize
    ensures exact { result ≡ length (take_while in_word text.now) }
    ensures within { result ≤ length text.now }
{
    text.iter().take_while(|byte| in_word(**byte)).count()
}

// How many digits go on a number.
fn digits_len(text: &[u8]) -> usize
    ensures exact { result ≡ length (take_while is_digit text.now) }
    ensures within { result ≤ length text.now }
{
    text.iter().take_while(|byte| is_digit(**byte)).count()
}
