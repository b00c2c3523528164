//! A node's part of a checkpoint.

ghost use Rattle.std.specs.Prelude.{◌≡◌, IfOk};

use chare_base::bytes::Bytes;
use chare_base::memory::Memory;
use std::alloc::Global;

/// The records of one node's elements after `iteration` completed iterations, in element order. What stands before
/// the records of a checkpoint is no part of a piece.
#[derive(Drop)]
pub struct Piece {
    pub node: u16,
    pub iteration: u64,
    pub bytes: Bytes,
}

impl Piece {
    /// An equal value in memory of its own.
    ///
    /// `Memory`: an allocation was refused.
    pub fn copy(&self, alloc: Global) -> Result<Piece, Memory>
        ensures { IfOk result (λ copy. copy ≡ self.now) }
    {
        Ok(Piece {
            node: self.node,
            iteration: self.iteration,
            bytes: Bytes::from_slice(alloc, self.bytes.as_slice())?,
        })
    }
}
