//! Pieces of checkpoints: a store for a node's own, and how those of all nodes make the checkpoint.
//!
//! A node packs its elements into a piece. A `Store` has room for two of them: the base, which is part of the run's
//! base, and a fresh one, which is part of the checkpoint that is being taken.
//! `assemble` puts the pieces of all nodes of a replica together: the checkpoint's bytes in element order, wherever each
//! element lives. Where each piece is the definition's, so is the checkpoint, which is the contract of `assemble`
//! itself. A mark tells which bytes a checkpoint has without holding them: its iteration, its length and its
//! digest. The conductor and the report use this crate.
#![tactic(auto)]

pub mod assemble;
pub mod laws;
pub mod mark;
pub mod pieces;
pub mod store;
