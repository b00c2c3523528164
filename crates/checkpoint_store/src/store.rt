//! The pieces that a node keeps of its own elements.

ghost use Rattle.std.specs.Prelude.{◌≡◌, Some, None, MatchOption};
ghost use Rattle.checkpoint_store.specs.Stored.{HasFreshAt, at_or, piece_at};

use pup_state::piece::Piece;
use std::marker::Model;

/// At most a base piece and a fresh piece. No call takes memory.
#[derive(Drop)]
pub struct Store {
    base: Option<Piece>,
    fresh: Option<Piece>,
}

impl Model for Store {
    ghost use Rattle.checkpoint_store.specs.Stored.{StoreState};

    ghost Value = { StoreState };

    ghost view = { λ s. record { base = s.base; fresh = s.fresh } };
}

impl Store {
    /// A store without pieces.
    pub fn start() -> Store
        ensures { result ≡ record { base = None; fresh = None } }
    {
        Store {
            base: None,
            fresh: None,
        }
    }

    /// Makes a piece the fresh one, and gives back the fresh piece that it replaced, where there was one.
    pub fn keep(&mut self, piece: Piece) -> Option<Piece>
        ensures replaced { result ≡ self.old.fresh }
        ensures kept { self.new ≡ record { base = self.old.base; fresh = Some piece } }
    {
        self.fresh.replace(piece)
    }

    /// Makes the fresh piece, which is at iteration k, the base. The base before is gone, and no piece is fresh.
    pub fn commit(&mut self, k: u64)
        requires { HasFreshAt k self.old }
        ensures { self.new ≡ record { base = self.old.fresh; fresh = None } }
    {
        let _ = k;
        self.base = self.fresh.take();
    }

    /// The piece at iteration k, the base where both are; None exactly where neither is.
    pub fn piece(&self, k: u64) -> Option<&Piece>
        ensures { MatchOption result (piece_at k self.now ≡ None)
            (λ piece. piece_at k self.now ≡ Some piece.now) }
    {
        match at(&self.base, k) {
            Some(piece) => Some(piece),
            None => at(&self.fresh, k),
        }
    }

    /// Takes the fresh piece away, where there is one.
    pub fn drop_fresh(&mut self)
        ensures { self.new ≡ record { base = self.old.base; fresh = None } }
    {
        self.fresh = None;
    }

    /// Takes both pieces away.
    pub fn lose(&mut self)
        ensures { self.new ≡ record { base = None; fresh = None } }
    {
        self.base = None;
        self.fresh = None;
    }
}

// A piece, where it is there and at iteration k.
fn at(kept: &Option<Piece>, k: u64) -> Option<&Piece>
    ensures { MatchOption result (at_or k kept.now None ≡ None)
        (λ piece. at_or k kept.now None ≡ Some piece.now) }
{
    match kept {
        Some(piece) if piece.iteration == k => Some(piece),
        _ => None,
    }
}
