//! How several numbers make one.

ghost use Rattle.std.specs.Prelude.{◌≡◌};
ghost use Rattle.chare_base.specs.Total.{JoinedIsLawful, both, joined};

use crate::plan::How;

impl How {
    /// What two numbers make.
    pub fn joined(self, left: i64, right: i64) -> i64
        ensures { result ≡ joined self left right }
    {
        match self {
            How::Sum => left.wrapping_add(right),
            How::Min => left.min(right),
            How::Max => left.max(right),
        }
    }

    /// What two numbers make that may be missing: the other one where one is, and None where both are.
    pub fn both(self, left: Option<i64>, right: Option<i64>) -> Option<i64>
        ensures { result ≡ both self left right }
    {
        match (left, right) {
            (Some(left), Some(right)) => Some(self.joined(left, right)),
            (Some(_), None) => left,
            (None, _) => right,
        }
    }
}

/// In which order numbers are joined doesn't matter.
pub fn joined_is_lawful()
    ensures { JoinedIsLawful }
{}
