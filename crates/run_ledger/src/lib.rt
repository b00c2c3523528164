//! What a run may record, and what its records make of the fault script.
//!
//! A run keeps a base: the last checkpoint that both replicas agreed on or that one took over from the other, at first
//! the opening. Its ledger knows the base's iteration, each line of the fault script with whether it is still to strike
//! and whether it shaped the base, of which slots the base's copy stands, and which replicas are down. Each record moves
//! the ledger on, and may be made only where the ledger allows it. `specs/Ledgers` says what a record does,
//! `specs/Conditions` what it needs, and `specs/Lawful` which lists of records are lawful. A run is held to lawful
//! records, and the report is told from them.
//!
//! `laws` has what follows for every lawful run: how lineages change with each record, and that a run in which no
//! flips of the two replicas make equal wrong states accepts the states of the fault-free run alone.
#![tactic(auto)]

mod conditions;
mod copies;
pub mod laws;
pub mod ledger;
pub mod line;
pub mod record;
