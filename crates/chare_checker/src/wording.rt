//! How a fault is told: its line and its column in the text, and a word.

ghost use Rattle.std.specs.Prelude.{◌≡◌, ◌<◌, ◌≤◌, length, not, reverse};
ghost use Rattle.std.specs.List.{count_by, take_while};
ghost use Rattle.job_rules.specs.Codes.{fault_code, parse_code, parse_place};
ghost use Rattle.chare_checker.specs.Wording.{ends_line, parse_word, rule_word, word_of, wording};

use job_rules::fault::CheckFault;
use job_tree::fault::ParseFault;

/// A place of the text, as line and column, and the code of a word. Lines and columns count from 1, columns count
/// bytes, and only LF ends a line.
#[derive(Clone, Copy, Debug, PartialEq, Eq)]
pub struct Wording {
    pub line: u32,
    pub column: u32,
    pub code: u8,
}

/// The wording of a fault at this byte, or at the end of the text.
pub fn word_at(text: &[u8], at: u32, code: u8) -> Wording
    requires short { length text.now < 4294967295 }
    requires within { at ≤ length text.now }
    ensures { result ≡ wording text.now at code }
{
    let before = &text[..at as usize];
    let ends = line_ends(before);
    let behind = behind_last_end(before);
    Wording {
        line: ends as u32 + 1,
        column: behind as u32 + 1,
        code,
    }
}

// How many lines end.
fn line_ends(text: &[u8]) -> usize
    ensures exact { result ≡ count_by ends_line text.now }
    ensures within { result ≤ length text.now }
{
    text.iter().filter(|byte| **byte == b'\n').count()
}

// How many bytes stand behind the last end of a line.
fn behind_last_end(text: &[u8]) -> usize
    ensures exact { result ≡ length (take_while (λ b. not (ends_line b)) (reverse text.now)) }
    ensures within { result ≤ length text.now }
{
    text.iter().rev().take_while(|byte| **byte != b'\n').count()
}

/// The place of a fault of a text that is no job, 0 where memory ran out.
pub fn parse_place(fault: ParseFault) -> u32
    ensures { result ≡ parse_place fault }
{
    match fault {
        ParseFault::NotToken { at }
        | ParseFault::NumberTooLarge { at }
        | ParseFault::Unexpected { at }
        | ParseFault::TooDeep { at }
        | ParseFault::TooLong { at } => at,
        ParseFault::Memory => 0,
    }
}

/// The code of the word for a fault of a text that is no job, 0 where memory ran out.
pub fn parse_code(fault: ParseFault) -> u8
    ensures { result ≡ parse_code fault }
{
    match fault {
        ParseFault::NotToken { .. } => 1,
        ParseFault::NumberTooLarge { .. } => 2,
        ParseFault::Unexpected { .. } => 3,
        ParseFault::TooDeep { .. } => 4,
        ParseFault::TooLong { .. } => 5,
        ParseFault::Memory => 0,
    }
}

/// The code of the word for a rule that a job breaks, 0 where memory ran out.
pub fn fault_code(fault: CheckFault) -> u8
    ensures { result ≡ fault_code fault }
{
    match fault {
        CheckFault::Twice { .. } => 6,
        CheckFault::Unknown { .. } => 7,
        CheckFault::Kind { .. } => 8,
        CheckFault::Shape { .. } => 9,
        CheckFault::NotOnce { .. } => 10,
        CheckFault::TooEarly { .. } => 11,
        CheckFault::Overlap { .. } => 12,
        CheckFault::Bound { .. } => 13,
        CheckFault::Limit { .. } => 14,
        CheckFault::Memory => 0,
    }
}

/// The word of a code, of which there are fourteen. Other codes have none.
pub fn word(code: u8) -> &'static [u8]
    ensures { result.now ≡ word_of code }
{
    if code <= 5 {
        parse_word(code)
    } else {
        rule_word(code)
    }
}

// The words of texts that are no jobs.
fn parse_word(code: u8) -> &'static [u8]
    ensures { result.now ≡ parse_word code }
{
    if code == 1 {
        b"token".as_slice()
    } else if code == 2 {
        b"number".as_slice()
    } else if code == 3 {
        b"unexpected".as_slice()
    } else if code == 4 {
        b"deep".as_slice()
    } else if code == 5 {
        b"long".as_slice()
    } else {
        b"".as_slice()
    }
}

// The words of rules.
fn rule_word(code: u8) -> &'static [u8]
    ensures { result.now ≡ rule_word code }
{
    if code == 6 {
        b"twice".as_slice()
    } else if code == 7 {
        b"unknown".as_slice()
    } else if code == 8 {
        b"kind".as_slice()
    } else if code == 9 {
        b"shape".as_slice()
    } else if code == 10 {
        b"not-once".as_slice()
    } else if code == 11 {
        b"too-early".as_slice()
    } else if code == 12 {
        b"overlap".as_slice()
    } else if code == 13 {
        b"bound".as_slice()
    } else if code == 14 {
        b"limit".as_slice()
    } else {
        b"".as_slice()
    }
}
