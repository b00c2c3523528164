//! A slot's node: the objects of its elements, and the letters that it hears and sends.
//!
//! A node runs its elements turn by turn, hears one letter at a time, and packs its elements' states into its piece of a
//! checkpoint. Contributions to a reduction are gathered: a node's share goes to node 0 with the last of them, and node 0
//! sends the total with the last share. `specs/Nodes` says in one equation for each call what it makes of a node and
//! which letters it sends.
//!
//! The conductor's orders lead a node back to its base, make its fresh piece the base, or make a node of a piece that
//! comes with them. `loading` reads elements out of a piece.
//!
//! Laws over these definitions stand in `laws`. `nodes_keep`: under the flips of its last order's stamp a node's
//! elements, what it gathers and its pieces are the definition's, and each letter that it sends is true. `nodes_move`:
//! as long as no order comes, nothing that is sent is lost; a node has sent whatever it owes. `nodes_cost`: each event
//! but an order leaves less to do. The world of a run, `world_core`, stands on this crate.
#![tactic(auto)]

mod context;
pub mod laws;
mod live;
pub mod loading;
pub mod node;
mod object;
mod orders;
mod passing;
pub mod piece;
mod roster;
pub mod running;
mod tallies;
pub mod turn;
