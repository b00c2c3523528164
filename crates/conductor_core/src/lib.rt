//! The conductor of a run: from round to round of the agreement, and from the slots' comparisons to records and orders.
//!
//! The conductor looks at the slots, and once one of them has come to the iteration at which the next checkpoint is due
//! it opens a round, notes every slot's cap, and agrees on an iteration at which all slots pack. It hears how the pieces
//! of each node compare, under the stamps that the two replicas have at present, and keeps for each node the verdict and
//! the piece of replica 0. With all verdicts there it makes the round quiet and records what they say: equal checkpoints
//! are accepted, and all slots take theirs as the base; else the least element that differs is named, and all slots go
//! back. `specs/Conductors` says what each letter and each answer makes of it.
//!
//! A run ends with an `Ending`: the records of the whole run, a mark of each checkpoint that became the base, and the
//! last one's bytes. `specs/Endings` says which marks and bytes those are, told from the definitions alone. The report is
//! told from an ending.
#![tactic(auto)]

pub mod conductor;
pub mod ending;
pub mod laws;
pub mod opening;
mod orders;
mod verdicts;
pub mod wants;
