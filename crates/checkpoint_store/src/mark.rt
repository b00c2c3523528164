//! Marks of checkpoints.

ghost use Rattle.std.specs.Prelude.{◌≡◌, ◌==◌, ◌++◌, ◌∷◌, [], length, OnOk, OnErr};
ghost use Rattle.checkpoint_store.specs.Marks.{mark_of};

use chare_base::memory::Memory;
use sha2::{Digest, Sha256};
use std::alloc::Global;
use std::marker::Model;

/// Which bytes a checkpoint has.
#[derive(Clone, Copy, Debug, PartialEq, Eq)]
pub struct Mark {
    /// How many iterations the checkpoint has completed.
    pub k: u64,
    /// How many bytes it has.
    pub length: u64,
    /// The SHA-256 of its bytes.
    pub digest: [u8; 32],
}

/// The mark of a checkpoint after `k` iterations. It takes no memory; its time is linear in the bytes.
pub fn mark_of(k: u64, bytes: &[u8]) -> Mark
    ensures { result ≡ mark_of k bytes.now }
{
    Mark {
        k,
        length: bytes.len() as u64,
        digest: Sha256::digest(bytes),
    }
}

/// Marks in order, which contracts see as a list.
#[derive(Drop)]
pub struct Marks {
    marks: Vec<Mark>,
}

impl Model for Marks {
    ghost use Rattle.std.specs.Prelude.{List};
    ghost use Rattle.checkpoint_store.specs.declared.mark.Mark.{Mark};

    ghost Value = { List Mark };

    ghost view = { λ m. m.marks.items };
}

impl Marks {
    /// No marks. It takes no memory.
    pub fn new(alloc: Global) -> Marks
        ensures { result ≡ [] }
    {
        Marks {
            marks: Vec::new(alloc),
        }
    }

    /// The marks, in order.
    pub fn as_slice(&self) -> &[Mark]
        ensures { result.now ≡ self.now }
    {
        self.marks.as_slice()
    }

    /// How many marks there are.
    pub fn len(&self) -> usize
        ensures { result ≡ length self.now }
    {
        self.marks.len()
    }

    /// Whether there are none.
    pub fn is_empty(&self) -> bool
        ensures { result ≡ (length self.now == 0) }
    {
        self.marks.is_empty()
    }

    /// Appends a mark. Where it runs out of memory the marks stay.
    pub fn push(&mut self, mark: Mark) -> Result<(), Memory>
        ensures ok { OnOk result (self.new ≡ self.old ++ mark ∷ []) }
        ensures err { OnErr result (self.new ≡ self.old) }
    {
        self.marks.push(mark)?;
        Ok(())
    }
}
