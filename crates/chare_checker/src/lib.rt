//! From the tree of a job's text to its plan, or to the first rule of the language that it breaks.
//!
//! What the rules are, and which plan a tree has, is defined in `job_rules`, whose modules `fault` and `laws` this crate
//! re-exports. Each class of rules has a function here; names are looked up in tables (`tables`), a walk over the tree
//! (`walk`, `steps`, `statements`, `expressions`) notes what the other classes go by, and `planning` makes the plan of
//! any tree. That of a tree which breaks no rule is the job's.
#![tactic(auto)]

pub use job_rules::{fault, laws};

mod answers;
mod bounds;
pub mod check;
mod costs;
mod declarations;
mod expressions;
mod limits;
mod numbers;
mod overlap;
mod planning;
mod ports;
mod statements;
mod steps;
mod tables;
mod walk;
pub mod wording;
