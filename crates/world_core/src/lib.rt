//! The world of a run: all slots of both replicas with their inboxes, the agreement, and the conductor, event by event.
//!
//! Each slot has a node and an inbox, and the conductor an inbox of its own; letters wait in the order in which they
//! came. All that a run does is a list of events: a slot runs a part of one of its elements, hears its first letter or
//! makes a move on the agreement, of which packing is one, and the conductor hears its first letter or makes a move on
//! the agreement. What an event sends is put at the backs of inboxes. `specs/Worlds` says in one equation what an event
//! makes of a world, and `World::step` does that.
//!
//! `worlds_are_sound` is the law: whatever events happen, in whatever order, each node keeps the definition, each letter
//! in an inbox is true, and the conductor tells the definition. So it says of an order of events nothing but that they
//! are a list. A schedule is one way to pick them: `drill` runs a job by the schedule of a number to its ending, which
//! is that of a lawful run under the script. Without a script it always comes to that ending: no world that is reached
//! stands still before (`worlds_stay_afloat`), and no run has more events than a drill has turns (`runs_are_bounded`,
//! `drills_end`).
//!
//! The top call drills through this crate, and tests try schedules with it.
#![tactic(auto)]

mod conducting;
pub mod doing;
pub mod drill;
pub mod event;
pub mod fault;
mod inbox;
pub mod laws;
mod moves;
mod posts;
mod seats;
mod setting;
mod slot;
mod turns;
pub mod world;
