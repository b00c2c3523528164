//! An element's object: its cells, its messages and how far it is; and the contributions to a reduction.
//!
//! An object holds the messages that came for its element, whatever their order and their iteration, and runs the
//! parts of its steps. A part that needs a message waits until it is held, and takes it out; the other parts of its
//! step go on meanwhile. The definitions of `specs/Objects` say what each call makes of an object. The law
//! `objects_follow` says that an object with the definition's cells and messages stays with the definition, in
//! whatever order its messages come and its parts run. A `Partial` gathers the contributions of some elements to a
//! reduction, in any order; the law `nodes_make_whole` says that the totals of nodes make the total of all.
#![tactic(auto)]

pub mod laws;
pub mod object;
pub mod partial;
pub mod ready;
