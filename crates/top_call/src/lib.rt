//! The top call: words and an input in, a status and a text out.
//!
//! `top::acr_quiet` serves a command. Its clause is the program's theorem: the status and the text that are due
//! are those of `specs/Due`, whatever the words and the input are. `process::serve` makes that call for a
//! process; a program's `main` is the adapters over standard input and output, and `serve`.
#![tactic(auto)]

pub mod answer;
pub mod drill;
pub mod laws;
pub mod process;
mod refusal;
mod script;
mod split;
pub mod status;
pub mod top;
