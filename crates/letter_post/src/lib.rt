//! Letters: what slots and the conductor of a run send each other.
//!
//! A letter carries the stamp of its sender's replica: the replica, its epoch, and the set of fault lines that shaped
//! the state it tells of. `specs/Truth` says when a letter is true of a plan, a script and a placement: what it tells is
//! what the definition of the job gives under the lines of its stamp. So a letter's truth is a fact of the letter
//! alone, whoever sent it and whenever it is heard. Four letters of the conductor are orders; `specs/Orders` says which
//! may follow the last one that a slot heard. Nodes and the conductor use this crate; an `Outbox` is what one event of
//! theirs sends.
#![tactic(auto)]

pub mod laws;
pub mod letter;
pub mod order;
pub mod outbox;
pub mod stamp;
