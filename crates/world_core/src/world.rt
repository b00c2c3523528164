//! The world of a run.

ghost use Rattle.std.specs.Prelude.{◌≡◌, ◌≤◌, ◌↔◌, ◌&&◌, ℕ, List, [], length, true, false, Err, OnOk, IfOk, OnErr, MatchOption, is_some, None, Some, IfSome, IsNone};
ghost use Rattle.std.specs.List.{AllByRecursion};
ghost use Rattle.std.specs.Option.{ForSome};
ghost use Rattle.chare_base.specs.Elements.{elements};
ghost use Rattle.conductor_core.specs.Conductors.{IsOf, wanted};
ghost use Rattle.fault_script.specs.Lines.{faults_of};
ghost use Rattle.world_core.specs.declared.doing.Doing.TheVariants.{Move};
ghost use Rattle.world_core.specs.Sound.{Serves};
ghost use Rattle.world_core.specs.Steps.{Fresh, Renews, can_act, is_enabled, is_work, setting};
ghost use Rattle.world_core.specs.Worlds.{by_slot, conductor_due, conductor_moved, desk_event, does, enabled, happens, move_due, opening_world, slot_at, takes_move, told_by};

use crate::conducting::{hear_at_desk, is_due, move_conductor};
use crate::doing::Doing;
use crate::event::{Actor, Event};
use crate::fault::StepFault;
use crate::posts::Posts;
use crate::setting::Setting;
use chare_base::memory::Memory;
use chare_base::options::Options;
use chare_base::placement::Placement;
use chare_base::plan::Plan;
use chare_base::slots::SlotId;
use conductor_core::conductor::Conductor;
use conductor_core::ending::Ending;
use fault_script::script::Script;
use iteration_agree::cut::Cut;
use letter_post::outbox::Outbox;
use std::alloc::Global;
use std::marker::Model;

/// The world of a run: the slots of both replicas with their nodes and inboxes, the agreement, and the conductor with
/// its own inbox.
///
/// Contracts see a `WorldState` of `specs/Worlds`. Each call is given the plan, the script and the placement with which
/// the world was started. `Serves` is what calls ask of a world: it holds of every world that events reach, by the laws
/// `worlds_are_sound` and `sound_worlds_serve`.
#[derive(Drop)]
pub struct World {
    posts: Posts,
    cut: Cut,
    conductor: Conductor,
    over: bool,
    // Whether the conductor's move is due, where that is known: what slots hear and run doesn't change it.
    due: Option<bool>,
    ghost told: { ForSome due (λ d. d ≡ (takes_move cut (wanted conductor) && move_due cut conductor (wanted conductor))) },
}

impl Model for World {
    ghost use Rattle.world_core.specs.Worlds.{WorldState};

    ghost Value = { WorldState };

    ghost view = { λ w. record { posts = w.posts; cut = w.cut; conductor = w.conductor; over = w.over } };
}

impl World {
    /// The world of a run at its start: every element at the opening, in both replicas, and no letter.
    ///
    /// `Memory`: an allocation was refused.
    #[tactic(auto, unfolding(crate::specs::Worlds::opening_world))]
    pub fn start<M: Placement>(
        alloc: Global,
        plan: &Plan,
        script: &Script,
        options: &Options,
        map: &M,
    ) -> Result<World, Memory>
        requires place { length (M.place map.now) ≡ elements plan.now }
        requires nodes { M.count map.now ≡ options.now.nodes }
        requires few { options.now.nodes ≤ 32 }
        ensures { IfOk result (λ w. w
            ≡ opening_world (setting plan.now (faults_of script.now) (M.place map.now)
            (M.count map.now)) options.now) }
    {
        let setting = Setting::new(plan, script, map);
        let cut = Cut::start(alloc, options.nodes)?;
        let posts = Posts::start(alloc, &setting, &cut)?;
        let conductor = Conductor::start(alloc, plan, script, options)?;
        let due = is_due(&cut, &conductor);
        Ok(World {
            posts,
            cut,
            conductor,
            over: false,
            due: Some(due),
        })
    }

    /// The conductor.
    pub fn conductor(&self) -> &Conductor
        ensures { result.now ≡ self.now.conductor }
    {
        &self.conductor
    }

    /// The event that an actor would make: a slot hears before it moves, and moves before it runs its least element that
    /// can run. None exactly where it has none; nobody has one once the run has ended. It takes no memory, and no more
    /// time than finding the slot.
    #[tactic(auto, unfolding(crate::specs::Worlds::enabled))]
    pub fn enabled<M: Placement>(&self, plan: &Plan, map: &M, actor: Actor) -> Option<Event>
        requires { AllByRecursion (Fresh plan.now self.now.cut) self.now.posts.slots }
        ensures { result ≡ enabled plan.now (M.count map.now) self.now actor }
    {
        if self.conductor.ended() {
            return None;
        }
        match actor {
            Actor::Slot(slot) => { self.posts.event(plan, map.nodes(), &self.cut, slot) }
            Actor::Conductor => self.desk_event(),
        }
    }

    /// Whether an event can happen. More events can than those that their actors would make: a slot's elements can run
    /// in any order, whatever lies in its inbox. None can once the run has ended. It takes no memory.
    #[tactic(auto, unfolding(crate::specs::Steps::is_enabled))]
    pub fn is_enabled<M: Placement>(&self, plan: &Plan, map: &M, event: Event) -> bool
        requires { AllByRecursion (Fresh plan.now self.now.cut) self.now.posts.slots }
        ensures { result ≡ is_enabled plan.now (M.count map.now) self.now event }
    {
        if self.conductor.ended() {
            return false;
        }
        match event {
            Event::Run { slot, element } => self.can_act(plan, map, slot, Doing::Run(element)),
            Event::Hear { slot } => self.can_act(plan, map, slot, Doing::Hear),
            Event::Move { slot } => self.can_act(plan, map, slot, Doing::Move),
            Event::ConductorHear => self.posts.desk_has_letter(),
            Event::ConductorMove => self.conductor_due(),
        }
    }

    fn can_act<M: Placement>(&self, plan: &Plan, map: &M, slot: SlotId, doing: Doing) -> bool
        requires { AllByRecursion (Fresh plan.now self.now.cut) self.now.posts.slots }
        ensures { result ≡ can_act plan.now self.now.cut doing
            (slot_at (M.count map.now) self.now.posts.slots slot) }
    {
        self.posts
            .can_act(plan, map.nodes(), &self.cut, slot, doing)
    }

    // The event that the conductor would make.
    fn desk_event(&self) -> Option<Event>
        ensures { result ≡ desk_event self.now self.now.posts.desk }
    {
        if self.posts.desk_has_letter() {
            return Some(Event::ConductorHear);
        }
        if self.conductor_due() {
            Some(Event::ConductorMove)
        } else {
            None
        }
    }

    fn conductor_due(&self) -> bool
        ensures { result ≡ conductor_due self.now }
    {
        match self.due {
            Some(due) => due,
            None => is_due(&self.cut, &self.conductor),
        }
    }

    /// An event happens: what it sends is put at the backs of inboxes.
    ///
    /// `NotEnabled`: exactly where the event can't happen. `Memory`: an allocation was refused; the world is over.
    pub fn step<M: Placement>(
        &mut self,
        alloc: Global,
        plan: &Plan,
        script: &Script,
        map: &M,
        event: Event,
    ) -> Result<(), StepFault>
        requires place { length (M.place map.now) ≡ elements plan.now }
        requires serves { Serves
            (setting plan.now (faults_of script.now) (M.place map.now) (M.count map.now)) self.old }
        requires going { self.old.over ≡ false }
        ensures ok { OnOk result
            (self.new ≡ happens (setting plan.now (faults_of script.now) (M.place map.now)
            (M.count map.now)) self.old event) }
        ensures refused { (result ≡ Err StepFault.NotEnabled)
            ↔ (is_enabled plan.now (M.count map.now) self.old event ≡ false) }
        ensures unchanged { result ≡ Err StepFault.NotEnabled → self.new ≡ self.old }
        ensures over { result ≡ Err StepFault.Memory → self.new.over ≡ true }
    {
        if !self.is_enabled(plan, map, event) {
            return Err(StepFault::NotEnabled);
        }
        let setting = Setting::new(plan, script, map);
        let mut out = Outbox::new(alloc);
        match self.happen(alloc, &setting, event, &mut out) {
            Ok(()) => Ok(()),
            Err(Memory) => {
                self.over = true;
                Err(StepFault::Memory)
            }
        }
    }

    // An event happens, enabled or not. The outbox is lent so that its memory is used again.
    #[tactic(auto, unfolding(crate::specs::Worlds::happens))]
    pub(crate) fn happen<M: Placement>(
        &mut self,
        alloc: Global,
        setting: &Setting<'_, M>,
        event: Event,
        out: &mut Outbox,
    ) -> Result<(), Memory>
        requires serves { Serves setting.now self.old }
        requires empty { out.old ≡ [] }
        ensures happens { OnOk result (self.new ≡ happens setting.now self.old event) }
        ensures empty { OnOk result (out.new ≡ []) }
    {
        match event {
            Event::Run { slot, element } => {
                self.slot_works(alloc, setting, slot, Doing::Run(element), out)
            }
            Event::Hear { slot } => self.slot_works(alloc, setting, slot, Doing::Hear, out),
            Event::Move { slot } => self.slot_moves(alloc, setting, slot, out),
            Event::ConductorHear => self.conductor_hears(alloc, setting),
            Event::ConductorMove => self.conductor_moves(alloc, setting),
        }
    }

    // A slot hears or runs an element, which leaves the agreement and the conductor as they are, and so what is known of
    // the conductor's move.
    fn slot_works<M: Placement>(
        &mut self,
        alloc: Global,
        setting: &Setting<'_, M>,
        slot: SlotId,
        doing: Doing,
        out: &mut Outbox,
    ) -> Result<(), Memory>
        requires serves { Serves setting.now self.old }
        requires works { is_work doing ≡ true }
        requires empty { out.old ≡ [] }
        ensures acted { OnOk result
            (self.new ≡ by_slot setting.now slot self.old (does setting.now self.old.cut doing)
            (slot_at setting.now.nodes self.old.posts.slots slot)) }
        ensures empty { OnOk result (out.new ≡ []) }
    {
        let due = self.due;
        self.slot_acts(alloc, setting, slot, doing, out)?;
        self.due = due;
        Ok(())
    }

    // A slot makes its move on the agreement, after which another move of the conductor may be due.
    fn slot_moves<M: Placement>(
        &mut self,
        alloc: Global,
        setting: &Setting<'_, M>,
        slot: SlotId,
        out: &mut Outbox,
    ) -> Result<(), Memory>
        requires serves { Serves setting.now self.old }
        requires empty { out.old ≡ [] }
        ensures acted { OnOk result
            (self.new ≡ by_slot setting.now slot self.old (does setting.now self.old.cut Move)
            (slot_at setting.now.nodes self.old.posts.slots slot)) }
        ensures empty { OnOk result (out.new ≡ []) }
    {
        self.slot_acts(alloc, setting, slot, Doing::Move, out)?;
        self.due = Some(is_due(&self.cut, &self.conductor));
        Ok(())
    }

    // A slot acts, and what was known of the conductor's move is forgotten.
    fn slot_acts<M: Placement>(
        &mut self,
        alloc: Global,
        setting: &Setting<'_, M>,
        slot: SlotId,
        doing: Doing,
        out: &mut Outbox,
    ) -> Result<(), Memory>
        requires serves { Serves setting.now self.old }
        requires empty { out.old ≡ [] }
        ensures acted { OnOk result
            (self.new ≡ by_slot setting.now slot self.old (does setting.now self.old.cut doing)
            (slot_at setting.now.nodes self.old.posts.slots slot)) }
        ensures empty { OnOk result (out.new ≡ []) }
    {
        self.due = None;
        self.posts
            .act(alloc, setting, slot, doing, &mut self.cut, out)
    }

    fn conductor_hears<M: Placement>(
        &mut self,
        alloc: Global,
        setting: &Setting<'_, M>,
    ) -> Result<(), Memory>
        requires { IsOf setting.now.nodes self.old.conductor }
        ensures { OnOk result (self.new ≡ told_by setting.now self.old self.old.posts.desk) }
    {
        self.due = None;
        hear_at_desk(alloc, setting, &mut self.conductor, &mut self.posts)?;
        self.due = Some(is_due(&self.cut, &self.conductor));
        Ok(())
    }

    fn conductor_moves<M: Placement>(
        &mut self,
        alloc: Global,
        setting: &Setting<'_, M>,
    ) -> Result<(), Memory>
        requires nodes { IsOf setting.now.nodes self.old.conductor }
        requires renews { AllByRecursion (Renews setting.now.plan self.old.cut)
            self.old.posts.slots }
        ensures { OnOk result (self.new
            ≡ conductor_moved setting.now self.old (wanted self.old.conductor)) }
    {
        self.due = None;
        move_conductor(
            alloc,
            setting,
            &mut self.cut,
            &mut self.conductor,
            &mut self.posts,
        )?;
        self.due = Some(is_due(&self.cut, &self.conductor));
        Ok(())
    }

    /// What the run leaves; None exactly where it hasn't ended. The world is given up then too. It takes no memory.
    pub fn end(self) -> Option<Ending>
        ensures none { IsNone result ↔ (self.conductor.outcome ≡ None) }
        ensures outcome { IfSome result (λ ending. self.conductor.outcome ≡ Some ending.outcome) }
        ensures records { IfSome result (λ ending. ending.records.items ≡ self.conductor.records) }
        ensures marks { IfSome result (λ ending. ending.marks ≡ self.conductor.marks) }
        ensures last { IfSome result (λ ending. ending.last ≡ self.conductor.last) }
    {
        self.conductor.end()
    }
}
