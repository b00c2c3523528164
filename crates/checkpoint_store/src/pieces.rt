//! The pieces of all nodes of a replica.

ghost use Rattle.std.specs.Prelude.{◌≡◌, ◌<◌, ◌++◌, ◌∷◌, [], length, slice_set, OnOk, OnErr};

use chare_base::memory::Memory;
use pup_state::piece::Piece;
use std::alloc::Global;
use std::marker::Model;

/// Pieces by node, from node 0, which contracts see as a list.
#[derive(Drop)]
pub struct Pieces {
    all: Vec<Piece>,
}

impl Model for Pieces {
    ghost use Rattle.std.specs.Prelude.{List};
    ghost use Rattle.pup_state.specs.declared.piece.Piece.{Piece};

    ghost Value = { List Piece };

    ghost view = { λ p. p.all.items };
}

impl Pieces {
    /// No pieces, which takes no memory.
    pub fn new(alloc: Global) -> Pieces
        ensures { result ≡ [] }
    {
        Pieces {
            all: Vec::new(alloc),
        }
    }

    /// Appends the piece of the next node.
    ///
    /// `Memory`: an allocation was refused, and all is as before.
    pub fn push(&mut self, piece: Piece) -> Result<(), Memory>
        ensures ok { OnOk result (self.new ≡ self.old ++ piece ∷ []) }
        ensures err { OnErr result (self.new ≡ self.old) }
    {
        self.all.push(piece)?;
        Ok(())
    }

    /// Replaces the piece of a node. It takes no memory.
    pub fn set(&mut self, node: usize, piece: Piece)
        requires { node < length self.old }
        ensures { self.new ≡ slice_set self.old node piece }
    {
        self.all[node] = piece;
    }

    /// The pieces, by node.
    pub fn as_slice(&self) -> &[Piece]
        ensures { result.now ≡ self.now }
    {
        self.all.as_slice()
    }
}
