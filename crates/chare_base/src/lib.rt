//! What the layers that run a job speak of: its plan, an element's cells, messages and options; and, from
//! `chare_bytes`, bytes, names and the error of a call that runs out of memory.
//!
//! A `Plan` is a job that was accepted. Its type keeps the rules that its fields show, as ghost fields that
//! are tests over its parts: the limits, the numbering of elements and cells, the numbers in range, the names
//! declared once, each port sent to once and then received from once, the cost of a step, and that no part of a
//! step uses a state that another part writes. So a layer that is lent a plan tests none of them again.
//! `Plan::sealed` is the one place where they are tested.
//!
//! The definitions of `specs/` place each element in its array, and say which elements exchange messages. What the
//! rules mean for one element is told by `laws`: `source_of` and `target_of` undo each other, what a step needs is
//! sent in an earlier one, and no part of a step uses a cell that another part writes. Every crate that runs or
//! reports a job stands on this one.
#![tactic(auto)]

pub use chare_bytes::{bytes, memory};

pub mod cells;
pub mod crossing;
pub mod elements;
pub mod entries;
pub mod expression;
pub mod laws;
pub mod limits;
pub mod message;
pub mod options;
pub mod placement;
pub mod plan;
pub mod range;
pub mod rules;
pub mod scope;
pub mod slots;
pub mod total;
