//! The words of a call of the program: a command, then its options.
//!
//! `command_of` reads the words; its contract is the definition of the command grammar in `specs/Grammar`, a fold over
//! the words. An option is two words, `--name value`, or one, `--name=value`; each stands at most once, in any order.
//! `command::OptionName` tells the options, their limits and their defaults. The top call stands on this crate.
#![tactic(auto)]

pub mod command;
mod number;
pub mod words;
