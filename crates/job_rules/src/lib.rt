//! The rules of the job language, and the plan of a tree that keeps them.
//!
//! Each class of rules is a definition of the fault at the least place that breaks it, as a fold over the tree that
//! passes on what was found before; of all faults the one of the first class is named (`specs/Faults`). Names are
//! looked up in tables, which keep the first declaration of each (`specs/Tables`). A walk over the tree notes faults,
//! uses of states, sends and receipts in text order (`specs/Notes`); the other classes go by what it noted, or by the
//! declarations; `specs/Checked` has all classes together. The plan is defined for any tree (`specs/Planned` and the
//! files beside it), and that of a tree which breaks no rule keeps the rules of a plan's type.
//!
//! Here are the definitions, the types that they speak of, and the `laws`. The code that follows them is
//! `chare_checker`, so the proofs of the laws are no part of its proof.
#![tactic(auto)]

pub mod fault;
pub mod laws;
pub mod names;
pub mod notes;
pub mod tables;
pub mod walk;
