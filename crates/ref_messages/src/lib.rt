//! The messages that one element holds until the step that takes them, whatever order they arrived in.
//!
//! A message is held under a key: the iteration it belongs to, and the port it was sent to. So a message of a
//! later iteration may arrive first, and none is taken in another's place. A `RefQueue` is a finite map from keys
//! to payloads with a number `now`: iterations before it are over, and a message of theirs is refused, as is a
//! second one under a key that is held. Every call says the whole map that it leaves, in the words of
//! `specs/Queue`; a refused message changes nothing. Putting, taking and looking go through the first messages one
//! by one, which are mostly few, and are logarithmic in those behind them. Only putting takes memory.
//!
//! An element's object (`object_steps`) holds its messages so.
#![tactic(auto)]

pub mod fault;
pub mod key;
pub mod laws;
mod messages;
pub mod queue;
