//! States as bytes, and back: an element's record, the checkpoint of a replica, and a node's piece of it.
//!
//! A checkpoint is a mark, the number of elements, and the records of all elements in element order; every number in
//! it has a fixed width, the lowest byte first. `specs/Spelling` is the format. A piece is the records of one node's
//! elements alone.
//!
//! What the layer promises:
//! - `pack_element` and `pack_all` write the format. For one plan a state has one spelling and a spelling one state
//!   (`laws::one_spelling`, `laws::one_state`), so two replicas agree exactly where their bytes do.
//! - `unpack_all` takes exactly the checkpoints of states that a job can have (`specs/Packs`), and `unpack_element`
//!   exactly the records. Other bytes get the one fault whose cause stands in them, at its place (`specs/Faults`), and a
//!   fault comes whether or not there is memory.
//! - What was packed reads back: `laws::pieces_read_back` for a piece, element by element.
//!
//! Nodes pack their pieces by this crate and go back to an iteration by it, and the report reads the states of the last
//! checkpoint. `Verdict` is what a comparison of two pieces says.
#![tactic(auto)]

pub mod compare;
pub mod fault;
mod get;
pub mod laws;
pub mod pack;
pub mod piece;
mod put;
pub mod unpack;
