//! All slots, and the letters that go to them.

ghost use Rattle.std.specs.Prelude.{◌≡◌, ◌≤◌, ◌+◌, ◌*◌, ◌<◌, ◌++◌, ◌∷◌, [], Bool, drop, length, map, MatchOption, OnOk, IfOk, IfSome, None, Some, slice_get};
ghost use Rattle.std.specs.List.{AllByRecursion};
ghost use Rattle.conductor_core.specs.Conductors.{ConductorState};
ghost use Rattle.conductor_core.specs.Openings.{all_lines};
ghost use Rattle.iteration_agree.specs.Cuts.{opening_cut};
ghost use Rattle.world_core.specs.Sound.{Served};
ghost use Rattle.world_core.specs.Steps.{Fresh, Renews, can_act, has_letter, world_of};
ghost use Rattle.world_core.specs.Worlds.{again, by_slot, does, event_of, number_of, opening_posts, opening_slots, posted, put_in, slot_at, slot_event};

use crate::doing::Doing;
use crate::event::Event;
use crate::inbox::Inbox;
use crate::setting::Setting;
use crate::slot::Slot;
use chare_base::memory::Memory;
use chare_base::placement::Placement;
use chare_base::plan::Plan;
use chare_base::slots::SlotId;
use conductor_core::opening::all_lines;
use iteration_agree::cut::Cut;
use letter_post::letter::{BoxId, Letter, Sent};
use letter_post::outbox::Outbox;
use std::alloc::Global;
use std::marker::Model;

/// The slots of both replicas, replica 0's first, and the conductor's inbox. Contracts see a `Posts` of `specs/Worlds`.
#[derive(Drop)]
pub struct Posts {
    slots: Vec<Slot>,
    desk: Inbox,
}

impl Model for Posts {
    ghost use Rattle.world_core.specs.Worlds.{Posts};

    ghost Value = { Posts };

    ghost view = { λ p. record { slots = p.slots.items; desk = p.desk } };
}

impl Posts {
    /// All slots at the opening, and no letter.
    ///
    /// `Memory`: an allocation was refused.
    pub fn start<M: Placement>(
        alloc: Global,
        setting: &Setting<'_, M>,
        cut: &Cut,
    ) -> Result<Posts, Memory>
        requires { cut.now ≡ opening_cut setting.now.nodes }
        ensures { IfOk result (λ posts. posts ≡ opening_posts setting.now) }
    {
        let mut slots = Vec::new(alloc);
        start_slots(alloc, setting, 0, cut, &mut slots)?;
        start_slots(alloc, setting, 1, cut, &mut slots)?;
        Ok(Posts {
            slots,
            desk: Inbox::new(alloc),
        })
    }

    /// Whether the conductor has a letter.
    pub fn desk_has_letter(&self) -> bool
        ensures { result ≡ has_letter self.now.desk }
    {
        self.desk.has_letter()
    }

    /// Takes out the conductor's first letter; None exactly where there is none. It takes no memory.
    pub fn take_from_desk(&mut self) -> Option<Letter>
        ensures letter { MatchOption result (self.old.desk ≡ [])
            (λ letter. self.old.desk ≡ letter ∷ self.new.desk) }
        ensures left { self.new ≡ record self.old { desk = drop 1 self.old.desk } }
    {
        self.desk.take()
    }

    // Puts a letter at the back of its inbox.
    fn put(&mut self, nodes: u16, sent: Sent) -> Result<(), Memory>
        ensures { OnOk result (self.new ≡ put_in nodes sent.to sent.letter self.old) }
    {
        match sent.to {
            BoxId::Slot(slot) => {
                if let Some(i) = find(nodes, self.slots.as_slice(), slot) {
                    self.slots[i].put(sent.letter)?;
                }
                Ok(())
            }
            BoxId::Conductor => self.desk.push(sent.letter),
        }
    }

    /// Puts all letters that were sent at the backs of their inboxes, in the order in which they were sent, and leaves
    /// the outbox empty. A letter to no slot is dropped.
    ///
    /// `Memory`: an allocation was refused; some letters are lost.
    pub fn deliver(&mut self, nodes: u16, out: &mut Outbox) -> Result<(), Memory>
        ensures posted { OnOk result (self.new ≡ posted nodes out.old self.old) }
        ensures empty { OnOk result (out.new ≡ []) }
    {
        while let Some(sent) = out.take() {
            self.put(nodes, sent)?;
        }
        Ok(())
    }

    /// A slot hears, moves or runs an element, and what it sends goes to inboxes. The outbox is empty before and after:
    /// it is lent so that its memory is used again.
    ///
    /// `Memory`: an allocation was refused; the slots are of no further use.
    pub fn act<M: Placement>(
        &mut self,
        alloc: Global,
        setting: &Setting<'_, M>,
        slot: SlotId,
        doing: Doing,
        cut: &mut Cut,
        out: &mut Outbox,
    ) -> Result<(), Memory>
        requires empty { out.old ≡ [] }
        requires served { AllByRecursion (Served setting.now cut.old) self.old.slots }
        ensures empty { OnOk result (out.new ≡ []) }
        ensures acted { (c : ConductorState) (over : Bool)
            → OnOk result (world_of self.new cut.new c over
            ≡ by_slot setting.now slot (world_of self.old cut.old c over)
            (does setting.now cut.old doing) (slot_at setting.now.nodes self.old.slots slot)) }
    {
        let nodes = setting.nodes();
        if let Some(i) = find(nodes, self.slots.as_slice(), slot) {
            self.slots[i].act(alloc, setting, doing, cut, out)?;
            self.deliver(nodes, out)?;
        }
        Ok(())
    }

    /// What every slot would do is worked out again, after the agreement moved.
    ///
    /// `Memory`: an allocation was refused; the slots are of no further use.
    pub fn renew<M: Placement>(&mut self, setting: &Setting<'_, M>, cut: &Cut) -> Result<(), Memory>
        requires { AllByRecursion (Renews setting.now.plan cut.now) self.old.slots }
        ensures { OnOk result (self.new
            ≡ record self.old { slots = map (again setting.now.plan cut.now) self.old.slots }) }
    {
        renew_all(setting.plan, cut, &mut self.slots)
    }

    /// The event that a slot would make.
    pub fn event(&self, plan: &Plan, nodes: u16, cut: &Cut, slot: SlotId) -> Option<Event>
        requires { AllByRecursion (Fresh plan.now cut.now) self.now.slots }
        ensures { result ≡ slot_event plan.now cut.now slot (slot_at nodes self.now.slots slot) }
    {
        let _ = plan;
        let _ = cut;
        match find(nodes, self.slots.as_slice(), slot) {
            Some(i) => event_of(slot, self.slots[i].doing()),
            None => None,
        }
    }

    /// Whether an event of a slot can happen in a run that goes on.
    pub fn can_act(&self, plan: &Plan, nodes: u16, cut: &Cut, slot: SlotId, doing: Doing) -> bool
        requires { AllByRecursion (Fresh plan.now cut.now) self.now.slots }
        ensures { result ≡ can_act plan.now cut.now doing (slot_at nodes self.now.slots slot) }
    {
        match find(nodes, self.slots.as_slice(), slot) {
            Some(i) => slot_can(plan, cut, &self.slots[i], doing),
            None => false,
        }
    }
}

// Appends the slots of a replica at the opening.
fn start_slots<M: Placement>(
    alloc: Global,
    setting: &Setting<'_, M>,
    replica: u8,
    cut: &Cut,
    slots: &mut Vec<Slot>,
) -> Result<(), Memory>
    requires cut { cut.now ≡ opening_cut setting.now.nodes }
    requires replica { replica ≤ 1 }
    ensures { OnOk result (slots.new.items ≡ slots.old.items
        ++ opening_slots setting.now replica setting.now.nodes) }
{
    let live = all_lines(setting.script);
    for node in 0..setting.nodes() {
        let slot = SlotId { replica, node };
        slots.push(Slot::start(alloc, setting, slot, live, cut)?)?;
    }
    Ok(())
}

// A slot's place among all.
fn number_of(nodes: u16, slot: SlotId) -> usize
    ensures { result ≡ number_of nodes slot }
{
    slot.replica as usize * nodes as usize + slot.node as usize
}

// The place of a slot among all; None exactly where no slot has this name.
fn find(nodes: u16, slots: &[Slot], slot: SlotId) -> Option<usize>
    ensures none { result ≡ None → slot_at nodes slots.now slot ≡ None }
    ensures there { IfSome result (λ i. slot_at nodes slots.now slot ≡ slice_get slots.now i) }
    ensures place { IfSome result (λ i. i ≡ number_of nodes slot) }
    ensures within { IfSome result (λ i. i < length slots.now) }
{
    let i = number_of(nodes, slot);
    if i < slots.len() {
        if slots[i].is(slot) {
            return Some(i);
        }
    }
    None
}

// What every slot would do is worked out again.
fn renew_all(plan: &Plan, cut: &Cut, slots: &mut Vec<Slot>) -> Result<(), Memory>
    requires { AllByRecursion (Renews plan.now cut.now) slots.old.items }
    ensures { OnOk result (slots.new.items ≡ map (again plan.now cut.now) slots.old.items) }
{
    for i in 0..slots.len() {
        slots[i].renew(plan, cut)?;
    }
    Ok(())
}

fn event_of(slot: SlotId, doing: Option<Doing>) -> Option<Event>
    ensures { result ≡ event_of slot doing }
{
    match doing {
        None => None,
        Some(Doing::Hear) => Some(Event::Hear { slot }),
        Some(Doing::Move) => Some(Event::Move { slot }),
        Some(Doing::Run(element)) => Some(Event::Run { slot, element }),
    }
}

fn slot_can(plan: &Plan, cut: &Cut, slot: &Slot, doing: Doing) -> bool
    requires { Fresh plan.now cut.now slot.now }
    ensures { result ≡ can_act plan.now cut.now doing (Some slot.now) }
{
    match doing {
        Doing::Hear => slot.can_hear(),
        Doing::Move => slot.due_move(plan, cut).is_some(),
        Doing::Run(e) => slot.can_run(plan, cut, e),
    }
}
