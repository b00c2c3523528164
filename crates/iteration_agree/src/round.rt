//! Rounds of the agreement, who takes part in them, and what calls answer.

ghost use Rattle.std.specs.Prelude.{◌≡◌};
ghost use Rattle.iteration_agree.specs.Rounds.{number, takes_part};

/// Where the agreement stands. Rounds are numbered from 0; each is quiet at first, may then gather caps, and may then be
/// agreed. What follows is the quiet start of the next.
#[derive(Clone, Copy, Debug, PartialEq, Eq)]
pub enum Round {
    /// Nothing is asked of the slots.
    Quiet {
        /// The round's number.
        round: u32,
    },
    /// Slots are to report their tops.
    Gather {
        /// The round's number.
        round: u32,
        /// The iteration that the agreed one is at least.
        floor: u64,
    },
    /// Slots go on to this iteration, and pack there.
    Agreed {
        /// The round's number.
        round: u32,
        /// The agreed iteration.
        k: u64,
    },
}

/// Which replicas take part in a round.
#[derive(Clone, Copy, Debug, PartialEq, Eq)]
pub enum Taking {
    /// Both.
    Both,
    /// This replica alone, 0 or 1.
    Only(u8),
}

/// Whether an iteration may be begun.
#[derive(Clone, Copy, Debug, PartialEq, Eq)]
pub enum Leave {
    /// It may.
    Go,
    /// It may not.
    Hold {
        /// The slot begins iterations below this one alone, for now.
        limit: u64,
    },
}

/// What the conductor sees of a slot.
#[derive(Clone, Copy, Debug, PartialEq, Eq)]
pub struct Sight {
    /// The least number that none of its elements has begun.
    pub top: u64,
    /// Its cap, where it reported one in this round.
    pub cap: Option<u64>,
}

/// How a slot stands: what the conditions of its moves ask.
#[derive(Clone, Copy, Debug, PartialEq, Eq)]
pub struct Standing {
    /// The round that it last saw.
    pub seen: Round,
    /// The least number that none of its elements has begun.
    pub top: u64,
    /// Its cap, where it reported one in the round that it last saw.
    pub cap: Option<u64>,
    /// Whether it is free: it hasn't packed yet, or was released since.
    pub free: bool,
    /// Whether it packed in the round that it last saw, and wasn't rewound since.
    pub packed: bool,
}

/// The number of a round.
pub fn number(round: Round) -> u32
    ensures { result ≡ number round }
{
    match round {
        Round::Quiet { round } => round,
        Round::Gather { round, .. } => round,
        Round::Agreed { round, .. } => round,
    }
}

/// Whether a replica takes part.
pub fn takes_part(taking: Taking, replica: u8) -> bool
    ensures { result ≡ takes_part taking replica }
{
    match taking {
        Taking::Both => true,
        Taking::Only(one) => replica == one,
    }
}
