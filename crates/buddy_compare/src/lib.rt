//! Comparing a node's piece of a checkpoint with its buddy's, the same node's of the other replica.
//!
//! `compare` says whether two pieces are equal, byte for byte, and where they differ it names the least element whose
//! records do. It takes no memory and goes over the bytes once. `specs/Comparing` is its definition, for any bytes.
//!
//! `laws` says what the verdicts of all nodes tell, however elements are placed: where all are equal so are the
//! checkpoints, and the least element that a node names is the least of all elements that differ. A checkpoint is
//! accepted, or both replicas go back, by that.
#![tactic(auto)]

pub mod compare;
pub mod laws;
