//! Verdicts on two replicas' states, and whether two checkpoints are equal.

ghost use Rattle.std.specs.Prelude.{◌≡◌, ◌↔◌, IsTrue};

use chare_base::bytes::Bytes;
use chare_base::plan::ElementId;

/// What the comparison of two pieces of one node says, one piece of each replica.
#[derive(Clone, Copy, Debug, PartialEq, Eq)]
pub enum Verdict {
    /// They are equal, byte for byte.
    Equal,
    /// They differ, and this is the least element whose records differ.
    Differ { element: ElementId },
}

/// Whether two checkpoints are equal, byte for byte. It takes no memory.
pub fn equal(a: &Bytes, b: &Bytes) -> bool
    ensures { IsTrue result ↔ (a.now ≡ b.now) }
{
    a.as_slice() == b.as_slice()
}
