//! The words of a call of the program.

ghost use Rattle.std.specs.Prelude.{◌≡◌, map, IfSome, MatchOption, None, Some};
ghost use Rattle.std.specs.String.{string_bytes};
ghost use Rattle.command_words.specs.Grammar.{Bounded, EveryFit, Fit, NodesFit, behind, command_in, given_every, given_nodes, given_schedule, given_with, next_read, option_read, word_read, words_read};

use crate::command::{Command, Given, OptionName};
use crate::number::number_in;

/// What was read of the words so far: the options that were given, and the one whose value comes next.
#[derive(Clone, Copy, Debug, PartialEq, Eq)]
pub struct Reading {
    pub given: Given,
    pub waits: Option<OptionName>,
}

/// The command that the words ask for, with its options; None exactly where they are outside the command grammar.
#[tactic(auto, unfolding(crate::specs::Grammar::command_in))]
pub fn command_of(words: &[String]) -> Option<Command>
    ensures exact { result ≡ command_in (map string_bytes words.now) }
    ensures bounded { IfSome result Bounded }
{
    let (first, options) = words.split_first()?;
    if first.as_bytes() != b"drill".as_slice() {
        return None;
    }
    let reading = read_all(options)?;
    match reading.waits {
        Some(_) => None,
        None => Some(reading.given.drill()),
    }
}

// Reads the words behind the command.
fn read_all(words: &[String]) -> Option<Reading>
    ensures exact { result ≡ words_read
        (Some (record {
          given = record { nodes = None; every = None; schedule = None };
          waits = None;
        })) (map string_bytes words.now) }
    ensures fits { IfSome result (λ r. Fit r.given) }
{
    let mut reading = given(Given::NONE);
    for word in words {
        reading = read_next(reading, word.as_bytes());
    }
    reading
}

// Reads one word more, where no earlier one was refused.
fn read_next(reading: Option<Reading>, word: &[u8]) -> Option<Reading>
    requires { IfSome reading (λ r. Fit r.given) }
    ensures exact { result ≡ next_read reading word.now }
    ensures fits { IfSome result (λ r. Fit r.given) }
{
    read_word(reading?, word)
}

// Reads one word: an option's value, or an option.
fn read_word(reading: Reading, word: &[u8]) -> Option<Reading>
    requires { Fit reading.given }
    ensures exact { result ≡ word_read reading word.now }
    ensures fits { IfSome result (λ r. Fit r.given) }
{
    match reading.waits {
        Some(name) => given(give(reading.given, name, word)?),
        None => read_option(reading.given, word),
    }
}

// An option's name, alone or with its value.
fn read_option(so_far: Given, word: &[u8]) -> Option<Reading>
    requires { Fit so_far }
    ensures exact { result ≡ option_read so_far word.now }
    ensures fits { IfSome result (λ r. Fit r.given) }
{
    if word == b"--nodes".as_slice() {
        return awaits(so_far, OptionName::Nodes);
    }
    if word == b"--every".as_slice() {
        return awaits(so_far, OptionName::Every);
    }
    if word == b"--schedule".as_slice() {
        return awaits(so_far, OptionName::Schedule);
    }
    if let Some(text) = behind(b"--nodes=", word) {
        return given(give(so_far, OptionName::Nodes, text)?);
    }
    if let Some(text) = behind(b"--every=", word) {
        return given(give(so_far, OptionName::Every, text)?);
    }
    let text = behind(b"--schedule=", word)?;
    given(give(so_far, OptionName::Schedule, text)?)
}

// What was read where an option's value comes next.
fn awaits(given: Given, name: OptionName) -> Option<Reading>
    ensures { result ≡ Some (record { given = given; waits = Some name }) }
{
    Some(Reading {
        given,
        waits: Some(name),
    })
}

// What was read where no value is awaited.
fn given(given: Given) -> Option<Reading>
    ensures { result ≡ Some (record { given = given; waits = None }) }
{
    Some(Reading { given, waits: None })
}

// An option's value: None where the option was given before, or the value isn't in its range.
fn give(given: Given, name: OptionName, text: &[u8]) -> Option<Given>
    requires { Fit given }
    ensures exact { result ≡ given_with given name text.now }
    ensures fits { IfSome result Fit }
{
    match name {
        OptionName::Nodes => give_nodes(given, number_in(1, 32, text)),
        OptionName::Every => give_every(given, number_in(1, 1_000_000, text)),
        OptionName::Schedule => give_schedule(given, number_in(0, u64::MAX, text)),
    }
}

fn give_nodes(given: Given, number: Option<u64>) -> Option<Given>
    requires given { Fit given }
    requires number { NodesFit number }
    ensures exact { result ≡ given_nodes given given.nodes number }
    ensures fits { IfSome result Fit }
{
    match given.nodes {
        Some(_) => None,
        None => Some(Given {
            nodes: Some(number?),
            every: given.every,
            schedule: given.schedule,
        }),
    }
}

fn give_every(given: Given, number: Option<u64>) -> Option<Given>
    requires given { Fit given }
    requires number { EveryFit number }
    ensures exact { result ≡ given_every given given.every number }
    ensures fits { IfSome result Fit }
{
    match given.every {
        Some(_) => None,
        None => Some(Given {
            nodes: given.nodes,
            every: Some(number?),
            schedule: given.schedule,
        }),
    }
}

fn give_schedule(given: Given, number: Option<u64>) -> Option<Given>
    requires { Fit given }
    ensures exact { result ≡ given_schedule given given.schedule number }
    ensures fits { IfSome result Fit }
{
    match given.schedule {
        Some(_) => None,
        None => Some(Given {
            nodes: given.nodes,
            every: given.every,
            schedule: Some(number?),
        }),
    }
}

// What stands behind a prefix of a word.
fn behind<'a>(prefix: &[u8], word: &'a [u8]) -> Option<&'a [u8]>
    ensures { MatchOption result (behind prefix.now word.now ≡ None)
        (λ rest. behind prefix.now word.now ≡ Some rest.now) }
{
    if word.len() < prefix.len() {
        return None;
    }
    let (front, rest) = word.split_at(prefix.len());
    if front == prefix { Some(rest) } else { None }
}
