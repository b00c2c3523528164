//! Stamps: under which flips a letter or a node is true.

ghost use Rattle.std.specs.Prelude.{◌≡◌};
ghost use Rattle.letter_post.specs.Stamps.{same_stamp};

use chare_base::slots::LineSet;

/// Of which replica a letter or a node is, since which order to go back or to take a copy, and which flips shaped
/// its state.
#[derive(Clone, Copy, Debug, PartialEq, Eq)]
pub struct Stamp {
    /// 0 or 1.
    pub replica: u8,
    /// From 0; it rises with each order to go back or to take a copy.
    pub epoch: u32,
    /// The fault lines of the replica's lineage.
    pub lines: LineSet,
}

impl Stamp {
    /// Whether two stamps are the same in all three parts.
    pub fn is_same(self, other: Stamp) -> bool
        ensures { result ≡ same_stamp self other }
    {
        self.replica == other.replica && self.epoch == other.epoch && self.lines.0 == other.lines.0
    }
}
