//! The texts that runs print: the report of a run, and the text of a plain run.
//!
//! A report is told from the ending of a run: a line for each record, with the length and digest of each checkpoint that
//! became the base and how many flips shaped it, and at the end what the job answers and which elements slipped.
//! `specs/Report` is the text, told from the definitions alone: from the plan, the fault script, the options and the
//! records. `laws` say when each state in it is that of the fault-free run.
#![tactic(auto)]

mod answers;
pub mod ends;
pub mod laws;
mod lines;
mod names;
mod parts;
pub mod report;
mod slips;
mod totals;
