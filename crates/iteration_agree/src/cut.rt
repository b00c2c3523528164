//! The agreement.

ghost use Rattle.std.specs.Prelude.{◌≡◌, ◌↔◌, ℕ, ◌+◌, ◌<◌, ◌≤◌, ◌++◌, length, map, replicate, true, Some, None, IfOk, IfSome, OnOk};
ghost use Rattle.std.specs.Option.{ForSome};
ghost use Rattle.iteration_agree.specs.declared.round.Leave.TheVariants.{Hold};
ghost use Rattle.iteration_agree.specs.Rounds.{IsGather, IsQuiet, NamesReplica, last_round, most_iterations, number};
ghost use Rattle.iteration_agree.specs.Slots.{leave, limit, opening_slot, reported, sight_of, slot_unnoted, standing_of};
ghost use Rattle.iteration_agree.specs.Cuts.{HasSlot, agreed, agreement, all_noted, begun_by, greatest, is_noted, noted, opened, opening_cut, packed_by, quieted, released_by, reported_by, rewound_by, seen_by, slot_of, slot_place};
ghost use Rattle.iteration_agree.specs.Laws.{IsGreatest, Misses};
ghost use Rattle.iteration_agree.specs.Under.{BackTo, IsCut, MayPack, Under};

use crate::round::{Leave, Round, Sight, Standing, Taking, number, takes_part};
use crate::slot::{self, Slot, opening_slot, standing_of};
use chare_base::memory::Memory;
use chare_base::slots::SlotId;
use std::alloc::Global;
use std::marker::Model;

/// The agreement of all slots on the iteration of the next checkpoint, while their tasks go on.
///
/// Contracts see a `CutState` of `specs/Cuts`: the conductor's round with its floor and who takes part, and what is
/// known of each slot. What holds after every list of moves is `IsCut` of `specs/Under`. No call but `start` takes memory.
#[derive(Drop)]
pub struct Cut {
    nodes: u16,
    round: Round,
    floor: u64,
    taking: Taking,
    slots: Vec<Slot>,
}

impl Model for Cut {
    ghost use Rattle.iteration_agree.specs.Cuts.{CutState};
    ghost use Rattle.iteration_agree.specs.Under.{IsCut};

    ghost Value = { CutState };

    ghost view = { λ c. record { nodes = c.nodes; round = c.round; floor = c.floor; taking = c.taking; slots = c.slots.items } };

    ghost invariant = { λ c. IsCut (record { nodes = c.nodes; round = c.round; floor = c.floor; taking = c.taking; slots = c.slots.items }) };
}

impl Cut {
    /// The agreement of a run with this many nodes in each replica: the round of number 0 is quiet, and each slot is free
    /// with top 0.
    ///
    /// `Memory`: an allocation was refused.
    #[tactic(auto, unfolding(crate::specs::Cuts::opening_cut))]
    pub fn start(alloc: Global, nodes: u16) -> Result<Cut, Memory>
        requires { nodes ≤ 32 }
        ensures { IfOk result (λ cut. cut ≡ opening_cut nodes) }
    {
        let mut slots = Vec::new(alloc);
        add_slots(&mut slots, 0, nodes)?;
        add_slots(&mut slots, 1, nodes)?;
        Ok(Cut {
            nodes,
            round: Round::Quiet { round: 0 },
            floor: 0,
            taking: Taking::Both,
            slots,
        })
    }

    /// The round. The clauses `under` and `cut` tell what holds of every agreement.
    pub fn round(&self) -> Round
        ensures exact { result ≡ self.now.round }
        ensures under { Under self.now }
        ensures cut { IsCut self.now }
    {
        self.round
    }

    /// How many nodes each replica has.
    pub fn nodes(&self) -> u16
        ensures exact { result ≡ self.now.nodes }
        ensures few { result ≤ 32 }
    {
        self.nodes
    }

    /// How a slot stands to the conductor: its top, and its cap where it reported one in this round. Nothing is noted.
    pub fn sight(&self, slot: SlotId) -> Sight
        requires { HasSlot self.now slot }
        ensures { result ≡ sight_of self.now.round (slot_of self.now slot) }
    {
        slot::sight_of(self.round, &self.slots[slot_place(self.nodes, slot)])
    }

    /// How a slot stands: what the conditions of its moves ask.
    pub fn standing(&self, slot: SlotId) -> Standing
        requires { HasSlot self.now slot }
        ensures { result ≡ standing_of (slot_of self.now slot) }
    {
        standing_of(&self.slots[slot_place(self.nodes, slot)])
    }

    /// The conductor opens a round: slots are to report, and what is agreed will be at least the floor.
    #[tactic(auto, unfolding(crate::specs::Cuts::opened))]
    pub fn open_round(&mut self, floor: u64)
        requires quiet { IsQuiet self.old.round }
        requires few { floor ≤ most_iterations }
        ensures { self.new ≡ opened floor self.old }
    {
        self.round = Round::Gather {
            round: number(self.round),
            floor,
        };
        self.floor = floor;
    }

    /// The conductor ends the round. The next one begins, its number is one more, and it is quiet; what was agreed stands
    /// no longer.
    #[tactic(auto, unfolding(crate::specs::Cuts::quieted))]
    pub fn quiet(&mut self)
        requires stands { IsQuiet self.old.round → ⊥ }
        requires few { number self.old.round < last_round }
        ensures { self.new ≡ quieted self.old }
    {
        self.round = Round::Quiet {
            round: number(self.round) + 1,
        };
        self.floor = 0;
        forget(&mut self.slots);
    }

    /// The slot sees the round.
    #[tactic(auto, unfolding(crate::specs::Cuts::seen_by))]
    pub fn see(&mut self, slot: SlotId) -> Round
        requires { HasSlot self.old slot }
        ensures round { result ≡ self.old.round }
        ensures moved { self.new ≡ seen_by slot self.old }
    {
        let at = slot_place(self.nodes, slot);
        slot::see(self.round, &mut self.slots[at])
    }

    /// An element of the slot is about to begin an iteration. `Hold` exactly where the slot has a limit (`limit` of
    /// `specs/Slots`) and the iteration is at least that; else its top is above the iteration from now on.
    #[tactic(auto, unfolding(crate::specs::Cuts::begun_by))]
    pub fn begin(&mut self, slot: SlotId, k: u64) -> Leave
        requires slot { HasSlot self.old slot }
        requires below { k ≤ (slot_of self.old slot).top }
        requires few { k < most_iterations }
        ensures answer { result ≡ leave (slot_of self.old slot) k }
        ensures hold { (l : ℕ) → (result ≡ Hold l)
            ↔ ((limit (slot_of self.old slot) ≡ Some l) × (l ≤ k)) }
        ensures moved { self.new ≡ begun_by slot k self.old }
    {
        let at = slot_place(self.nodes, slot);
        slot::begin(k, &mut self.slots[at])
    }

    /// The slot, which is free, last saw a round gather and hasn't reported in it, reports its top as its cap.
    #[tactic(auto, unfolding(crate::specs::Cuts::reported_by))]
    pub fn report(&mut self, slot: SlotId) -> u64
        requires slot { HasSlot self.old slot }
        requires gather { IsGather (slot_of self.old slot).seen }
        requires free { (slot_of self.old slot).free ≡ true }
        requires once { reported (slot_of self.old slot) ≡ None }
        ensures cap { result ≡ (slot_of self.old slot).top }
        ensures moved { self.new ≡ reported_by slot self.old }
    {
        let at = slot_place(self.nodes, slot);
        slot::report(&mut self.slots[at])
    }

    /// What the conductor sees of a slot: its top, and its cap where it reported in this round. While the round gathers,
    /// that cap is noted.
    #[tactic(auto, unfolding(crate::specs::Cuts::noted))]
    pub fn note(&mut self, slot: SlotId) -> Sight
        requires { HasSlot self.old slot }
        ensures sight { result ≡ sight_of self.old.round (slot_of self.old slot) }
        ensures moved { self.new ≡ noted slot self.old }
    {
        let at = slot_place(self.nodes, slot);
        slot::note(self.round, &mut self.slots[at])
    }

    /// The conductor agrees on the greatest of the floor and of all noted caps, also those of a replica that doesn't take
    /// part. None exactly where a slot that takes part isn't noted in this round; then all is as before.
    #[tactic(auto, unfolding(crate::specs::Cuts::agreed))]
    pub fn agree(&mut self, taking: Taking) -> Option<u64>
        requires gather { IsGather self.old.round }
        requires names { NamesReplica taking }
        ensures answer { result ≡ agreement taking self.old }
        ensures missing { (result ≡ None) ↔ Misses taking self.old }
        ensures greatest { IfSome result (λ k. IsGreatest k self.old) }
        ensures moved { self.new ≡ agreed taking self.old }
    {
        if all_noted(taking, self.slots.as_slice()) {
            let k = greatest(self.floor, self.slots.as_slice());
            self.round = Round::Agreed {
                round: number(self.round),
                k,
            };
            self.taking = taking;
            Some(k)
        } else {
            None
        }
    }

    /// The slot, which last saw an agreed round and whose top is that iteration, packs. That its elements completed the
    /// iterations before is for the caller to see. It isn't free until it is released.
    #[tactic(auto, unfolding(crate::specs::Cuts::packed_by))]
    pub fn pack(&mut self, slot: SlotId)
        requires slot { HasSlot self.old slot }
        requires agreed { MayPack (slot_of self.old slot) }
        ensures { self.new ≡ packed_by slot self.old }
    {
        let at = slot_place(self.nodes, slot);
        slot::pack(&mut self.slots[at])
    }

    /// The slot's elements go back to a base: its top is that, and its cap stays.
    #[tactic(auto, unfolding(crate::specs::Cuts::rewound_by))]
    pub fn rewind(&mut self, slot: SlotId, base: u64)
        requires slot { HasSlot self.old slot }
        requires few { base ≤ most_iterations }
        // At most the floor, or the agreed iteration, that it saw in the round in which it reported.
        requires back { ForSome (reported (slot_of self.old slot))
            (λ _. BackTo base (slot_of self.old slot).seen) }
        ensures { self.new ≡ rewound_by slot base self.old }
    {
        let at = slot_place(self.nodes, slot);
        slot::rewind(base, &mut self.slots[at])
    }

    /// The slot, which hasn't reported in the round that it last saw, is free again.
    #[tactic(auto, unfolding(crate::specs::Cuts::released_by))]
    pub fn release(&mut self, slot: SlotId)
        requires slot { HasSlot self.old slot }
        requires once { reported (slot_of self.old slot) ≡ None }
        ensures { self.new ≡ released_by slot self.old }
    {
        let at = slot_place(self.nodes, slot);
        slot::release(&mut self.slots[at])
    }
}

// The place of a slot in the list: those of replica 0 stand first.
fn slot_place(nodes: u16, slot: SlotId) -> usize
    requires { slot.node < nodes }
    ensures exact { result ≡ slot_place nodes slot }
    ensures there { result < nodes + nodes }
{
    let node = usize::from(slot.node);
    if slot.replica == 0 {
        node
    } else {
        usize::from(nodes) + node
    }
}

// The slots of a replica at the opening, behind what there is.
fn add_slots(slots: &mut Vec<Slot>, replica: u8, nodes: u16) -> Result<(), Memory>
    ensures { OnOk result (slots.new.items ≡ slots.old.items
        ++ replicate nodes (opening_slot replica)) }
{
    for _ in 0..nodes {
        slots.push(opening_slot(replica))?;
    }
    Ok(())
}

// No cap is noted any more.
fn forget(slots: &mut Vec<Slot>)
    ensures { slots.new.items ≡ map slot_unnoted slots.old.items }
{
    for i in 0..slots.len() {
        slots[i].noted = None;
    }
}

fn all_noted(taking: Taking, slots: &[Slot]) -> bool
    ensures { result ≡ all_noted taking slots.now }
{
    for slot in slots {
        if !is_noted(taking, slot) {
            return false;
        }
    }
    true
}

fn is_noted(taking: Taking, slot: &Slot) -> bool
    ensures { result ≡ is_noted taking slot.now }
{
    !takes_part(taking, slot.replica) || slot.noted.is_some()
}

fn greatest(floor: u64, slots: &[Slot]) -> u64
    ensures { result ≡ greatest floor slots.now }
{
    let mut greatest = floor;
    for slot in slots {
        greatest = greatest.max(slot.noted.unwrap_or(0));
    }
    greatest
}

#[cfg(test)]
mod tests {
    use super::*;
    use std::test::Fail;

    #[test]
    #[tactic(auto, unfolding(crate::specs::Cuts::opening_cut))]
    fn starts_quiet_with_free_slots(rt: HostRuntime) -> Result<(), Fail> {
        let cut = Cut::start(rt.alloc(), 2)?;
        let slot = SlotId {
            replica: 1,
            node: 1,
        };
        assert_eq!(rt; cut.round(), Round::Quiet { round: 0 });
        assert_eq!(rt;
            cut.standing(slot),
            Standing {
                seen: Round::Quiet { round: 0 },
                top: 0,
                cap: None,
                free: true,
                packed: false,
            }
        );
        Ok(())
    }
}
