//! The agreement of a run's slots on the iteration of the next checkpoint, while their tasks go on.
//!
//! Nobody is stopped to find that iteration. The conductor opens a round with a floor; each slot reports as its cap the
//! least number that none of its elements has begun; the conductor notes the caps and agrees on the greatest of the floor
//! and all of them; each slot goes on to that iteration, packs there, and waits until it is released. `Cut` has all that is
//! known of the round and of the slots, with a call for each move of a slot and of the conductor; `docs/PROTOCOL.md` has a
//! round in words, with an example.
//!
//! `specs/Cuts` says what each move makes of the whole, as one record, and `specs/Under` what holds after every list of
//! moves; the type of `Cut` keeps that. `laws` tells what follows: what is agreed is the greatest of the floor and the
//! noted caps, no element of a slot that takes part begins it while it stands, and a slot that has packed begins nothing
//! from there on until it is released.
//!
//! `slot` has the same moves on what is known of one slot alone, for a layer that keeps slots elsewhere.
#![tactic(auto)]

pub mod cut;
pub mod laws;
pub mod round;
pub mod slot;
