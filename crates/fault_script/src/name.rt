//! Names of a script, which are those of a job.

ghost use Rattle.std.specs.Prelude.{◌≡◌};
ghost use Rattle.std.specs.List.{list_all};
ghost use Rattle.std.specs.Str.{bytes_eq};
ghost use Rattle.fault_script.specs.Naming.{begins_name, in_name, is_letter, is_name, is_reserved, is_statement_word, is_structure_word, is_value_word};

use crate::number::is_digit;

/// Whether a word is a name: a letter or `_`, then letters, digits or `_`, and no word that jobs reserve.
#[tactic(auto, unfolding(crate::specs::Naming::is_name))]
pub(crate) fn is_name(word: &[u8]) -> bool
    ensures { result ≡ is_name word.now }
{
    begins_name(word) && is_in_name(word) && !is_reserved(word)
}

fn begins_name(word: &[u8]) -> bool
    ensures { result ≡ begins_name word.now }
{
    match word.first() {
        Some(byte) => is_letter(*byte),
        None => false,
    }
}

// Whether each byte may stand in a name.
fn is_in_name(word: &[u8]) -> bool
    ensures { result ≡ list_all in_name word.now }
{
    word.iter().all(|b| in_name(*b))
}

fn in_name(byte: u8) -> bool
    ensures { result ≡ in_name byte }
{
    is_letter(byte) || is_digit(byte)
}

fn is_letter(byte: u8) -> bool
    ensures { result ≡ is_letter byte }
{
    (b'a' <= byte && byte <= b'z') || (b'A' <= byte && byte <= b'Z') || byte == b'_'
}

/// Whether a word is one of those that jobs reserve, and so is no name.
#[tactic(auto, unfolding(crate::specs::Naming::is_reserved))]
pub fn is_reserved(word: &[u8]) -> bool
    ensures { result ≡ is_reserved word.now }
{
    is_structure_word(word) || is_statement_word(word) || is_value_word(word)
}

// Words of a job, an array, an entry and an answer.
fn is_structure_word(word: &[u8]) -> bool
    ensures { result ≡ is_structure_word word.now }
{
    same(word, b"job")
        || same(word, b"iterate")
        || same(word, b"array")
        || same(word, b"state")
        || same(word, b"int")
        || same(word, b"entry")
        || same(word, b"from")
        || same(word, b"wrap")
        || same(word, b"reduce")
        || same(word, b"answer")
}

// Words of steps and statements.
fn is_statement_word(word: &[u8]) -> bool
    ensures { result ≡ is_statement_word word.now }
{
    same(word, b"step")
        || same(word, b"when")
        || same(word, b"overlap")
        || same(word, b"send")
        || same(word, b"contribute")
        || same(word, b"if")
        || same(word, b"else")
        || same(word, b"for")
        || same(word, b"in")
}

// Words of values.
fn is_value_word(word: &[u8]) -> bool
    ensures { result ≡ is_value_word word.now }
{
    same(word, b"sum")
        || same(word, b"min")
        || same(word, b"max")
        || same(word, b"at")
        || same(word, b"index")
        || same(word, b"row")
        || same(word, b"col")
        || same(word, b"cell")
        || same(word, b"iter")
        || same(word, b"and")
        || same(word, b"or")
        || same(word, b"not")
        || same(word, b"faults")
}

/// Whether two words are equal.
pub(crate) fn same(word: &[u8], other: &[u8]) -> bool
    ensures { result ≡ bytes_eq word.now other.now }
{
    word == other
}
