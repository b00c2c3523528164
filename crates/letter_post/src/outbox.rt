//! What one event sends.

ghost use Rattle.std.specs.Prelude.{◌≡◌, ◌++◌, ◌∷◌, [], MatchOption, OnOk, OnErr};

use crate::letter::{BoxId, Letter, Sent};
use chare_base::memory::Memory;
use std::alloc::Global;
use std::collections::VecDeque;
use std::marker::Model;

/// Letters in the order in which they were sent, which contracts see as a list.
#[derive(Drop)]
pub struct Outbox {
    all: VecDeque<Sent>,
}

impl Model for Outbox {
    ghost use Rattle.std.specs.Prelude.{List};
    ghost use Rattle.letter_post.specs.declared.letter.Sent.{Sent};

    ghost Value = { List Sent };

    ghost view = { λ o. o.all.items };
}

impl Outbox {
    /// No letters, which takes no memory.
    pub fn new(alloc: Global) -> Outbox
        ensures { result ≡ [] }
    {
        Outbox {
            all: VecDeque::new(alloc),
        }
    }

    /// Appends a letter.
    ///
    /// `Memory`: an allocation was refused, and all is as before.
    pub fn send(&mut self, to: BoxId, letter: Letter) -> Result<(), Memory>
        ensures ok { OnOk result (self.new ≡ self.old ++ record { to = to; letter = letter } ∷ []) }
        ensures err { OnErr result (self.new ≡ self.old) }
    {
        self.all.push_back(Sent { to, letter })?;
        Ok(())
    }

    /// Takes out the first letter; None exactly where there is none, and then it stays empty. It takes no memory.
    pub fn take(&mut self) -> Option<Sent>
        ensures { MatchOption result ((self.old ≡ []) × (self.new ≡ []))
            (λ sent. self.old ≡ sent ∷ self.new) }
    {
        self.all.pop_front()
    }
}
