//! What is known of one slot, and its moves.

ghost use Rattle.std.specs.Prelude.{◌≡◌, ◌<◌, ◌≤◌};
ghost use Rattle.iteration_agree.specs.Rounds.{most_iterations};
ghost use Rattle.iteration_agree.specs.Slots.{cap_in, is_packed, leave, limit, opening_slot, reported, sight_of, slot_begun, slot_noted, slot_packed, slot_released, slot_reported, slot_rewound, slot_saw, standing_of};

use crate::round::{Leave, Round, Sight, Standing, number};

/// The top that a slot reported, and the number of the round in which it did.
#[derive(Clone, Copy, Debug, PartialEq, Eq)]
pub struct Cap {
    /// The slot's top as it reported.
    pub cap: u64,
    /// The round's number.
    pub round: u32,
}

/// What is known of a slot, the conductor's note included.
#[derive(Clone, Copy, Debug, PartialEq, Eq)]
pub struct Slot {
    /// 0 or 1.
    pub replica: u8,
    /// The round that it last saw.
    pub seen: Round,
    /// The least number that none of its elements has begun.
    pub top: u64,
    /// Its last cap.
    pub cap: Option<Cap>,
    /// It hasn't packed yet, or was released since.
    pub free: bool,
    /// The number of the round in which it last packed, if it wasn't rewound since.
    pub packed: Option<u32>,
    /// The cap that the conductor noted in this round.
    pub noted: Option<u64>,
}

/// A slot at the opening.
pub fn opening_slot(replica: u8) -> Slot
    ensures { result ≡ opening_slot replica }
{
    Slot {
        replica,
        seen: Round::Quiet { round: 0 },
        top: 0,
        cap: None,
        free: true,
        packed: None,
        noted: None,
    }
}

/// A cap, if it is one of the round with this number.
pub fn cap_in(round: u32, cap: Option<Cap>) -> Option<u64>
    ensures { result ≡ cap_in round cap }
{
    match cap {
        Some(cap) => {
            if cap.round == round {
                Some(cap.cap)
            } else {
                None
            }
        }
        None => None,
    }
}

/// The slot's cap, where it reported in the round that it last saw.
pub fn reported(slot: &Slot) -> Option<u64>
    ensures { result ≡ reported slot.now }
{
    cap_in(number(slot.seen), slot.cap)
}

/// Whether the slot packed in the round that it last saw, and wasn't rewound since.
pub fn is_packed(slot: &Slot) -> bool
    ensures { result ≡ is_packed slot.now }
{
    match slot.packed {
        Some(round) => round == number(slot.seen),
        None => false,
    }
}

/// How the slot stands.
pub fn standing_of(slot: &Slot) -> Standing
    ensures { result ≡ standing_of slot.now }
{
    Standing {
        seen: slot.seen,
        top: slot.top,
        cap: reported(slot),
        free: slot.free,
        packed: is_packed(slot),
    }
}

/// The iteration from which on the slot begins none for now; None where it may begin any.
pub fn limit(slot: &Slot) -> Option<u64>
    ensures { result ≡ limit slot.now }
{
    let reported = reported(slot);
    if !slot.free && reported.is_none() {
        return Some(slot.top);
    }
    match slot.seen {
        Round::Quiet { .. } => None,
        Round::Gather { .. } => Some(reported.unwrap_or(slot.top)),
        Round::Agreed { k, .. } => Some(k),
    }
}

/// Whether the slot may begin iteration `k`.
pub fn leave(slot: &Slot, k: u64) -> Leave
    ensures { result ≡ leave slot.now k }
{
    match limit(slot) {
        Some(limit) => {
            if limit <= k {
                Leave::Hold { limit }
            } else {
                Leave::Go
            }
        }
        None => Leave::Go,
    }
}

/// The slot sees a round.
pub fn see(round: Round, slot: &mut Slot) -> Round
    ensures round { result ≡ round }
    ensures moved { slot.new ≡ slot_saw round slot.old }
{
    slot.seen = round;
    round
}

/// The slot is about to begin iteration `k`.
pub fn begin(k: u64, slot: &mut Slot) -> Leave
    requires { k < most_iterations }
    ensures answer { result ≡ leave slot.old k }
    ensures moved { slot.new ≡ slot_begun k slot.old }
{
    let leave = leave(slot, k);
    if let Leave::Go = leave {
        slot.top = slot.top.max(k + 1);
    }
    leave
}

/// The slot reports its top as its cap of the round that it last saw.
pub fn report(slot: &mut Slot) -> u64
    ensures cap { result ≡ slot.old.top }
    ensures moved { slot.new ≡ slot_reported slot.old }
{
    slot.cap = Some(Cap {
        cap: slot.top,
        round: number(slot.seen),
    });
    slot.top
}

/// The slot packs in the round that it last saw, and is no longer free.
pub fn pack(slot: &mut Slot)
    ensures { slot.new ≡ slot_packed slot.old }
{
    slot.free = false;
    slot.packed = Some(number(slot.seen));
}

/// The slot's elements go back to a base. Its cap stays.
pub fn rewind(base: u64, slot: &mut Slot)
    ensures { slot.new ≡ slot_rewound base slot.old }
{
    slot.top = base;
    slot.packed = None;
}

/// The slot is free again.
pub fn release(slot: &mut Slot)
    ensures { slot.new ≡ slot_released slot.old }
{
    slot.free = true;
}

/// What the conductor sees of the slot in a round.
pub fn sight_of(round: Round, slot: &Slot) -> Sight
    ensures { result ≡ sight_of round slot.now }
{
    Sight {
        top: slot.top,
        cap: cap_in(number(round), slot.cap),
    }
}

/// What the conductor sees of the slot in a round. A cap of a round that gathers is noted.
pub fn note(round: Round, slot: &mut Slot) -> Sight
    ensures sight { result ≡ sight_of round slot.old }
    ensures moved { slot.new ≡ slot_noted round slot.old }
{
    let cap = cap_in(number(round), slot.cap);
    if let Round::Gather { .. } = round {
        slot.noted = cap;
    }
    Sight { top: slot.top, cap }
}
