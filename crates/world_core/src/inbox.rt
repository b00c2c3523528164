//! An inbox: letters in the order in which they came.

ghost use Rattle.std.specs.Prelude.{◌≡◌, ◌++◌, ◌∷◌, [], drop, MatchOption, OnOk, OnErr};
ghost use Rattle.world_core.specs.Steps.{has_letter};

use chare_base::memory::Memory;
use letter_post::letter::Letter;
use std::alloc::Global;
use std::collections::VecDeque;
use std::marker::Model;

/// Letters in the order in which they came, which contracts see as a list.
#[derive(Drop)]
pub struct Inbox {
    letters: VecDeque<Letter>,
}

impl Model for Inbox {
    ghost use Rattle.std.specs.Prelude.{List};
    ghost use Rattle.letter_post.specs.declared.letter.Letter.{Letter};

    ghost Value = { List Letter };

    ghost view = { λ i. i.letters.items };
}

impl Inbox {
    /// An empty inbox, which takes no memory.
    pub fn new(alloc: Global) -> Inbox
        ensures { result ≡ [] }
    {
        Inbox {
            letters: VecDeque::new(alloc),
        }
    }

    /// Whether a letter is there.
    pub fn has_letter(&self) -> bool
        ensures { result ≡ has_letter self.now }
    {
        !self.letters.is_empty()
    }

    /// Appends a letter.
    ///
    /// `Memory`: an allocation was refused, and all is as before.
    pub fn push(&mut self, letter: Letter) -> Result<(), Memory>
        ensures ok { OnOk result (self.new ≡ self.old ++ letter ∷ []) }
        ensures err { OnErr result (self.new ≡ self.old) }
    {
        self.letters.push_back(letter)?;
        Ok(())
    }

    /// The first letter, which stays; None exactly where there is none.
    pub fn first(&self) -> Option<&Letter>
        ensures { MatchOption result (self.now ≡ [])
            (λ letter. self.now ≡ letter.now ∷ drop 1 self.now) }
    {
        self.letters.front()
    }

    /// Drops the first letter, where there is one.
    pub fn forget_first(&mut self)
        ensures { self.new ≡ drop 1 self.old }
    {
        self.letters.pop_front();
    }

    /// Takes out the first letter; None exactly where there is none. It takes no memory.
    pub fn take(&mut self) -> Option<Letter>
        ensures { MatchOption result ((self.old ≡ []) × (self.new ≡ []))
            (λ letter. self.old ≡ letter ∷ self.new) }
    {
        self.letters.pop_front()
    }
}
