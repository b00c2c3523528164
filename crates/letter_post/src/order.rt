//! Orders to a slot.

ghost use Rattle.std.specs.Prelude.{◌≡◌};
ghost use Rattle.letter_post.specs.Orders.{is_mail, next_order, order_at};

use crate::letter::Letter;
use crate::stamp::Stamp;

/// The last order that a slot heard, or the opening where it had none.
#[derive(Clone, Copy, Debug, PartialEq, Eq)]
pub struct LastOrder {
    pub stamp: Stamp,
    /// The iteration of the slot's base piece since then.
    pub base: u64,
}

impl LastOrder {
    /// The last order once this letter was heard: Restore, Commit and Take give the slot a stamp and a base, all other
    /// letters leave it what it had.
    pub fn after(self, letter: &Letter) -> LastOrder
        ensures { result ≡ next_order self letter.now }
    {
        match letter {
            Letter::Restore {
                stamp,
                iteration,
                ..
            } => order_at(*stamp, *iteration),
            Letter::Commit {
                stamp,
                iteration,
                ..
            } => order_at(*stamp, *iteration),
            Letter::Take {
                stamp,
                iteration,
                ..
            } => order_at(*stamp, *iteration),
            Letter::Parcel { .. } => self,
            Letter::Partial { .. } => self,
            Letter::Total { .. } => self,
            Letter::Piece { .. } => self,
            Letter::VerdictOf { .. } => self,
            Letter::Lend { .. } => self,
            Letter::Resume { .. } => self,
            Letter::Died { .. } => self,
            Letter::Stop => self,
        }
    }
}

fn order_at(stamp: Stamp, base: u64) -> LastOrder
    ensures { result ≡ order_at stamp base }
{
    LastOrder { stamp, base }
}

impl Letter {
    /// Whether it is no order. The orders are Restore, Commit, Resume and Take.
    pub fn is_mail(&self) -> bool
        ensures { result ≡ is_mail self.now }
    {
        match self {
            Letter::Restore { .. } => false,
            Letter::Commit { .. } => false,
            Letter::Resume { .. } => false,
            Letter::Take { .. } => false,
            Letter::Parcel { .. } => true,
            Letter::Partial { .. } => true,
            Letter::Total { .. } => true,
            Letter::Piece { .. } => true,
            Letter::VerdictOf { .. } => true,
            Letter::Lend { .. } => true,
            Letter::Died { .. } => true,
            Letter::Stop => true,
        }
    }
}
