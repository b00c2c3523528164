//! What a text of the job language means: its tokens, its grammar, and the tree that it is read as.
//!
//! The grammar is a function from a tree to the words that it is spelled by (`specs/Spelling`): each says the kind
//! of a token, its place where the tree has it, and the level of nesting that it opens. A text is that of a tree
//! where its tokens (`specs/Tokens`) are the tree's words, and at most 32 levels are open (`specs/Text`). Lists of
//! the tree that the grammar wants non-empty are plain lists, and `specs/Accepted` asks that they have their items.
//!
//! `specs/Reading` is a reader of tokens from the left. That it reads what is spelled, and that it stops where no job
//! goes on, is proved here of the definitions, so that the crate that reads texts has only its functions to prove;
//! that a text is that of one tree at most is one of the `laws`.
#![tactic(auto)]

pub mod fault;
pub mod laws;
pub mod token;
pub mod tree;
