//! What a plan's elements compute and send: expressions, blocks, the opening, and the plain run.
//!
//! The definitions of `specs/` are the meaning of a job. The opening is each state's initial value; an
//! iteration runs step after step, and in each step all elements in element order; the fold repeats
//! iterations. Flips are a parameter of the fold: with none it is the fault-free run that every checkpoint
//! and every answer is held against. The functions compute one block of one element, and `plain_run` the fold
//! without flips. `laws` says why elements may run ahead of each other, and why the parts of a step may run in
//! any order: each goes by its own cells and the messages to it.
#![tactic(auto)]

pub mod arithmetic;
pub mod block;
pub mod effects;
pub mod laws;
pub mod loops;
pub mod plain;
pub mod start;
mod tables;
pub mod value;
