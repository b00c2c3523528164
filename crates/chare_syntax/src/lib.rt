//! The reader of the job language: from a text to its tokens, and from these to the tree.
//!
//! `parse` answers the tree whose words a text's tokens are, exactly where there is one and it opens at most 32
//! levels. What texts mean is defined in `job_tree`, whose modules `fault`, `token` and `tree` this crate re-exports.
//! Each rule of the grammar has a function, which follows the reader of `job_tree/specs/Reading`.
#![tactic(auto)]

pub use job_tree::{fault, token, tree};

mod declarations;
mod expressions;
mod leaves;
pub mod lexer;
mod numbers;
pub mod parse;
pub mod reader;
mod statements;
mod steps;
pub mod words;
