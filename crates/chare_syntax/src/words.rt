//! The words of the language that are no names.

ghost use Rattle.std.specs.Prelude.{◌≡◌};
ghost use Rattle.std.specs.Str.{bytes_eq};
ghost use Rattle.job_tree.specs.Words.{structure_word, statement_word, value_word, reserved};

use crate::token::Mark;

/// The mark that a word is reserved for, where it is.
#[tactic(auto, unfolding(job_tree::specs::Words::reserved))]
pub fn reserved(word: &[u8]) -> Option<Mark>
    ensures { result ≡ reserved word.now }
{
    structure_word(word).or(statement_word(word).or(value_word(word)))
}

// Whether two words are equal.
fn same(word: &[u8], other: &[u8]) -> bool
    ensures { result ≡ bytes_eq word.now other.now }
{
    word == other
}

// Words of a job, an array, an entry and an answer.
fn structure_word(word: &[u8]) -> Option<Mark>
    ensures { result ≡ structure_word word.now }
{
    if same(word, b"job") {
        Some(Mark::Job)
    } else if same(word, b"iterate") {
        Some(Mark::Iterate)
    } else if same(word, b"array") {
        Some(Mark::Array)
    } else if same(word, b"state") {
        Some(Mark::State)
    } else if same(word, b"int") {
        Some(Mark::Int)
    } else if same(word, b"entry") {
        Some(Mark::Entry)
    } else if same(word, b"from") {
        Some(Mark::From)
    } else if same(word, b"wrap") {
        Some(Mark::Wrap)
    } else if same(word, b"reduce") {
        Some(Mark::Reduce)
    } else if same(word, b"answer") {
        Some(Mark::Answer)
    } else {
        None
    }
}

// Words of steps and statements.
fn statement_word(word: &[u8]) -> Option<Mark>
    ensures { result ≡ statement_word word.now }
{
    if same(word, b"step") {
        Some(Mark::Step)
    } else if same(word, b"when") {
        Some(Mark::When)
    } else if same(word, b"overlap") {
        Some(Mark::Overlap)
    } else if same(word, b"send") {
        Some(Mark::Send)
    } else if same(word, b"contribute") {
        Some(Mark::Contribute)
    } else if same(word, b"if") {
        Some(Mark::If)
    } else if same(word, b"else") {
        Some(Mark::Else)
    } else if same(word, b"for") {
        Some(Mark::For)
    } else if same(word, b"in") {
        Some(Mark::In)
    } else {
        None
    }
}

// Words of values.
fn value_word(word: &[u8]) -> Option<Mark>
    ensures { result ≡ value_word word.now }
{
    if same(word, b"sum") {
        Some(Mark::Sum)
    } else if same(word, b"min") {
        Some(Mark::Min)
    } else if same(word, b"max") {
        Some(Mark::Max)
    } else if same(word, b"at") {
        Some(Mark::At)
    } else if same(word, b"index") {
        Some(Mark::Index)
    } else if same(word, b"row") {
        Some(Mark::Row)
    } else if same(word, b"col") {
        Some(Mark::Col)
    } else if same(word, b"cell") {
        Some(Mark::Cell)
    } else if same(word, b"iter") {
        Some(Mark::Iter)
    } else if same(word, b"and") {
        Some(Mark::And)
    } else if same(word, b"or") {
        Some(Mark::Or)
    } else if same(word, b"not") {
        Some(Mark::Not)
    } else if same(word, b"faults") {
        Some(Mark::Faults)
    } else {
        None
    }
}
