//! Fault scripts: the lines that strike a run, sets of them, and what strikes where.
//!
//! A script is a list of at most 64 fault lines. Runs speak of its lines by their places in that list, from 0, and
//! of several of them as a `LineSet`. `specs/Lines` says what a set selects from a script: its lines, and the flips
//! among them. A script tells what strikes a cell and which line kills a slot; the ledger of a run says which lines
//! are still to strike.
#![tactic(auto)]

pub mod fault;
mod form;
pub mod laws;
pub mod meaning;
pub mod name;
mod number;
pub mod reading;
pub mod script;
mod text;
