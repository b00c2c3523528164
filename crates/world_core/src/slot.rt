//! A slot with its inbox.

ghost use Rattle.std.specs.Prelude.{◌≡◌, ◌==◌, ◌&&◌, ◌∷◌, [], List, length, true, false, Ok, OnOk, IfOk, Some, None};
ghost use Rattle.iteration_agree.specs.Cuts.{HasSlot, packed_by, slot_of};
ghost use Rattle.letter_post.specs.declared.letter.Letter.{Letter};
ghost use Rattle.node_core.specs.Nodes.{first_running};
ghost use Rattle.world_core.specs.declared.doing.Since.TheVariants.{Nothing};
ghost use Rattle.world_core.specs.declared.doing.SlotMove.TheVariants.{Pack};
ghost use Rattle.world_core.specs.Sound.{Served};
ghost use Rattle.world_core.specs.Steps.{FitsAfter, Fresh, ParcelHeard, Renews, can_hear, can_run_on};
ghost use Rattle.world_core.specs.Worlds.{MayMove, back_by, run_due, shifted, with_back, again, back_after, does, doing_of, idle_doing, moved_in, opening_slot, ordered_after, resumed_after, seats_of, since_after, slot_heard, slot_move, slot_moved, slot_moved_by, slot_packed, slot_put, slot_ran, stand};

use crate::doing::{Doing, Since, SlotMove};
use crate::inbox::Inbox;
use crate::moves::move_of;
use crate::seats::{SeatStates, mark, mark_by, reach_of, start_seats, wake};
use crate::setting::Setting;
use chare_base::memory::Memory;
use chare_base::placement::Placement;
use chare_base::plan::{ElementId, Plan};
use chare_base::slots::{LineSet, SlotId};
use iteration_agree::cut::Cut;
use iteration_agree::round::{Round, Standing};
use letter_post::letter::Letter;
use letter_post::outbox::Outbox;
use node_core::laws::nodes_keep;
use node_core::node::Node;
use std::alloc::Global;
use std::marker::Model;

/// A slot: its node, its inbox, what it heard that concerns its place in the agreement, and what it would do next, kept so
/// that it needn't be worked out at each turn.
#[derive(Drop)]
pub struct Slot {
    node: Node,
    inbox: Inbox,
    back: Option<u64>,
    since: Since,
    seats: SeatStates,
    doing: Option<Doing>,
}

impl Model for Slot {
    ghost use Rattle.world_core.specs.Worlds.{SlotState};

    ghost Value = { SlotState };

    ghost view = { λ s. record { node = s.node; box = s.inbox; back = s.back; since = s.since; seats = s.seats; doing = s.doing } };
}

impl Slot {
    /// A slot at the opening, with an empty inbox.
    ///
    /// `Memory`: an allocation was refused.
    pub fn start<M: Placement>(
        alloc: Global,
        setting: &Setting<'_, M>,
        slot: SlotId,
        live: LineSet,
        cut: &Cut,
    ) -> Result<Slot, Memory>
        requires slot { HasSlot cut.now slot }
        ensures { IfOk result (λ x. x ≡ opening_slot setting.now cut.now slot live) }
    {
        nodes_keep();
        let plan = setting.plan;
        let node = Node::start(alloc, plan, setting.script, setting.map, slot, live)?;
        let standing = cut.standing(slot);
        let mut seats = SeatStates::new(alloc);
        start_seats(plan, standing.top, &node, &mut seats)?;
        let doing = idle_doing(
            plan,
            &cut.round(),
            &node,
            &standing,
            None,
            Since::Nothing,
            &mut seats,
        );
        Ok(Slot {
            node,
            inbox: Inbox::new(alloc),
            back: None,
            since: Since::Nothing,
            seats,
            doing,
        })
    }

    /// What it would do next.
    pub fn doing(&self) -> Option<Doing>
        ensures { result ≡ self.now.doing }
    {
        self.doing
    }

    /// Whether this is its name.
    pub fn is(&self, slot: SlotId) -> bool
        ensures { result ≡ (self.now.node.slot.replica == slot.replica && self.now.node.slot.node
            == slot.node) }
    {
        let own = self.node.slot();
        own.replica == slot.replica && own.node == slot.node
    }

    /// Whether this element of it can run.
    pub fn can_run(&self, plan: &Plan, cut: &Cut, e: ElementId) -> bool
        requires { Renews plan.now cut.now self.now }
        ensures { result ≡ can_run_on plan.now cut.now e (Some self.now) }
    {
        let top = cut.standing(self.node.slot()).top;
        !self.node.rests() && self.back.is_none() && self.node.can_run(plan, e, top)
    }

    /// Whether a letter is there.
    pub fn can_hear(&self) -> bool
        ensures { result ≡ can_hear (Some self.now) }
    {
        self.inbox.has_letter()
    }

    /// The first move that is due to it.
    pub fn due_move(&self, plan: &Plan, cut: &Cut) -> Option<SlotMove>
        requires { Fresh plan.now cut.now self.now }
        ensures { result ≡ slot_move plan.now cut.now self.now }
    {
        move_of(
            plan,
            &cut.round(),
            &self.node,
            &cut.standing(self.node.slot()),
            self.back,
            self.since,
            &self.seats,
        )
    }

    /// A letter comes, at the back of its inbox.
    ///
    /// `Memory`: an allocation was refused, and all is as before.
    pub fn put(&mut self, letter: Letter) -> Result<(), Memory>
        ensures { OnOk result (self.new ≡ slot_put letter self.old) }
    {
        self.inbox.push(letter)?;
        self.doing = Some(Doing::Hear);
        Ok(())
    }

    /// What it would do next is worked out again, after the agreement moved.
    ///
    /// `Memory`: an allocation was refused; the slot is of no further use.
    pub fn renew(&mut self, plan: &Plan, cut: &Cut) -> Result<(), Memory>
        requires { Renews plan.now cut.now self.old }
        ensures { OnOk result (self.new ≡ again plan.now cut.now self.old) }
    {
        let standing = cut.standing(self.node.slot());
        self.seats.clear();
        start_seats(plan, standing.top, &self.node, &mut self.seats)?;
        self.doing = doing_of(
            plan,
            &cut.round(),
            &standing,
            &self.node,
            &self.inbox,
            self.back,
            self.since,
            &mut self.seats,
        );
        Ok(())
    }
}

// What a slot would do next.
fn doing_of(
    plan: &Plan,
    round: &Round,
    standing: &Standing,
    node: &Node,
    inbox: &Inbox,
    back: Option<u64>,
    since: Since,
    seats: &mut SeatStates,
) -> Option<Doing>
    requires seats { seats.old ≡ seats_of plan.now standing.now.top node.now }
    requires roster { node.now.roster.iterations ≡ plan.now.iterations }
    ensures doing { result ≡ doing_of plan.now round.now standing.now node.now inbox.now back
        since }
    ensures stays { seats.new ≡ seats.old }
{
    if inbox.has_letter() {
        Some(Doing::Hear)
    } else {
        idle_doing(plan, round, node, standing, back, since, seats)
    }
}

fn idle_doing(
    plan: &Plan,
    round: &Round,
    node: &Node,
    standing: &Standing,
    back: Option<u64>,
    since: Since,
    seats: &mut SeatStates,
) -> Option<Doing>
    requires seats { seats.old ≡ seats_of plan.now standing.now.top node.now }
    requires roster { node.now.roster.iterations ≡ plan.now.iterations }
    ensures doing { result ≡ idle_doing plan.now round.now node.now standing.now back since }
    ensures stays { seats.new ≡ seats.old }
{
    match move_of(plan, round, node, standing, back, since, seats) {
        Some(_) => Some(Doing::Move),
        None => run_due(plan, node, standing.top, back, seats),
    }
}

fn run_due(
    plan: &Plan,
    node: &Node,
    top: u64,
    back: Option<u64>,
    seats: &mut SeatStates,
) -> Option<Doing>
    requires { seats.old ≡ seats_of plan.now top node.now }
    ensures doing { (t : Standing) → t.top ≡ top → result ≡ run_due plan.now node.now t back }
    ensures stays { seats.new ≡ seats.old }
{
    match back {
        Some(_) => None,
        None => match first_running(plan, node, top, seats) {
            Some(e) => Some(Doing::Run(e)),
            None => None,
        },
    }
}

// The least element that can run.
#[tactic(auto, using(crate::proofs::Seating::rests_is, crate::proofs::Seating::none_is, crate::proofs::Seating::some_is))]
fn first_running(plan: &Plan, node: &Node, top: u64, seats: &mut SeatStates) -> Option<ElementId>
    requires { seats.old ≡ seats_of plan.now top node.now }
    ensures first { result ≡ first_running plan.now top node.now }
    ensures stays { seats.new ≡ seats.old }
{
    let _ = plan;
    let _ = top;
    if node.rests() {
        return None;
    }
    match seats.first_able() {
        None => None,
        Some(seat) => node.element_of_seat(seat),
    }
}

// ---- events

impl Slot {
    /// It hears, moves or runs an element. What it sends is put into an outbox, which is empty before.
    ///
    /// `Memory`: an allocation was refused; the slot is of no further use.
    pub fn act<M: Placement>(
        &mut self,
        alloc: Global,
        setting: &Setting<'_, M>,
        doing: Doing,
        cut: &mut Cut,
        out: &mut Outbox,
    ) -> Result<(), Memory>
        requires served { Served setting.now cut.old self.old }
        requires empty { out.old ≡ [] }
        ensures { OnOk result (record { slot = self.new; cut = cut.new; out = out.new }
            ≡ does setting.now cut.old doing self.old) }
    {
        match doing {
            Doing::Hear => self.hear(alloc, setting, cut, out),
            Doing::Move => self.make_move(alloc, setting, cut, out),
            Doing::Run(e) => self.run(alloc, setting, e, cut, out),
        }
    }

    // Runs an element, unless it has to go back.
    fn run<M: Placement>(
        &mut self,
        alloc: Global,
        setting: &Setting<'_, M>,
        e: ElementId,
        cut: &Cut,
        out: &mut Outbox,
    ) -> Result<(), Memory>
        requires served { Served setting.now cut.now self.old }
        requires empty { out.old ≡ [] }
        ensures { OnOk result (record { slot = self.new; cut = cut.now; out = out.new }
            ≡ slot_ran setting.now cut.now e self.old) }
    {
        nodes_keep();
        if self.back.is_some() {
            return Ok(());
        }
        let standing = cut.standing(self.node.slot());
        let top = standing.top;
        let plan = setting.plan;
        self.node
            .run_into(alloc, plan, setting.script, setting.map, e, top, out)?;
        mark(plan, top, &self.node, e, &mut self.seats);
        self.tell(plan, &cut.round(), &standing);
        Ok(())
    }

    // Hears its first letter, where there is one. A message for an element is read where it lies.
    fn hear<M: Placement>(
        &mut self,
        alloc: Global,
        setting: &Setting<'_, M>,
        cut: &Cut,
        out: &mut Outbox,
    ) -> Result<(), Memory>
        requires served { Served setting.now cut.now self.old }
        requires empty { out.old ≡ [] }
        ensures { OnOk result (record { slot = self.new; cut = cut.now; out = out.new }
            ≡ slot_heard setting.now cut.now self.old self.old.box) }
    {
        nodes_keep();
        if hear_parcel(setting, &self.inbox, &mut self.node, &mut self.seats)? {
            self.inbox.forget_first();
            self.tell_in(setting.plan, cut);
            return Ok(());
        }
        self.hear_letter(alloc, setting, cut, out)
    }

    // Hears its first letter, where there is one, whatever it is.
    fn hear_letter<M: Placement>(
        &mut self,
        alloc: Global,
        setting: &Setting<'_, M>,
        cut: &Cut,
        out: &mut Outbox,
    ) -> Result<(), Memory>
        requires served { Served setting.now cut.now self.old }
        requires empty { out.old ≡ [] }
        ensures { OnOk result (record { slot = self.new; cut = cut.now; out = out.new }
            ≡ slot_heard setting.now cut.now self.old self.old.box) }
    {
        nodes_keep();
        match self.inbox.take() {
            Some(letter) => {
                let plan = setting.plan;
                let standing = cut.standing(self.node.slot());
                let reach = reach_of(self.node.stamp(), &letter);
                self.back = back_after(&letter, self.back);
                self.since = since_after(&letter, self.since);
                *out = self
                    .node
                    .hear(alloc, plan, setting.script, setting.map, letter)?;
                mark_by(plan, standing.top, &self.node, reach, &mut self.seats)?;
                self.tell(plan, &cut.round(), &standing);
                Ok(())
            }
            None => Ok(()),
        }
    }

    // What it would do next, after an event that left what it keeps of its objects right.
    fn tell(&mut self, plan: &Plan, round: &Round, standing: &Standing)
        requires seats { self.old.seats ≡ seats_of plan.now standing.now.top self.old.node }
        requires roster { self.old.node.roster.iterations ≡ plan.now.iterations }
        ensures { self.new ≡ record self.old {
          doing = doing_of plan.now round.now standing.now self.old.node self.old.box
              self.old.back self.old.since;
        } }
    {
        self.doing = doing_of(
            plan,
            round,
            standing,
            &self.node,
            &self.inbox,
            self.back,
            self.since,
            &mut self.seats,
        );
    }

    // The same in the agreement as it stands, of which nothing is asked where a letter waits.
    fn tell_in(&mut self, plan: &Plan, cut: &Cut)
        requires slot { HasSlot cut.now self.old.node.slot }
        requires seats { self.old.seats
            ≡ seats_of plan.now (stand cut.now self.old.node.slot).top self.old.node }
        requires roster { self.old.node.roster.iterations ≡ plan.now.iterations }
        ensures { self.new ≡ record self.old {
          doing = doing_of plan.now cut.now.round (stand cut.now self.old.node.slot)
              self.old.node self.old.box self.old.back self.old.since;
        } }
    {
        if self.inbox.has_letter() {
            self.doing = Some(Doing::Hear);
        } else {
            let standing = cut.standing(self.node.slot());
            self.tell(plan, &cut.round(), &standing);
        }
    }

    // Makes the first move that is due.
    fn make_move<M: Placement>(
        &mut self,
        alloc: Global,
        setting: &Setting<'_, M>,
        cut: &mut Cut,
        out: &mut Outbox,
    ) -> Result<(), Memory>
        requires served { Served setting.now cut.old self.old }
        requires empty { out.old ≡ [] }
        ensures { OnOk result (record { slot = self.new; cut = cut.new; out = out.new }
            ≡ slot_moved setting.now cut.old self.old) }
    {
        match self.due_move(setting.plan, cut) {
            None => Ok(()),
            Some(due) => self.make(alloc, setting, due, cut, out),
        }
    }

    // Makes a move that is due.
    fn make<M: Placement>(
        &mut self,
        alloc: Global,
        setting: &Setting<'_, M>,
        due: SlotMove,
        cut: &mut Cut,
        out: &mut Outbox,
    ) -> Result<(), Memory>
        requires served { Served setting.now cut.old self.old }
        requires due { slot_move setting.now.plan cut.old self.old ≡ Some due }
        requires empty { out.old ≡ [] }
        ensures { OnOk result (record { slot = self.new; cut = cut.new; out = out.new }
            ≡ slot_moved_by setting.now cut.old self.old (Some due)) }
    {
        match due {
            SlotMove::See => self.shift(setting.plan, due, cut),
            SlotMove::Rewind { .. } => self.shift(setting.plan, due, cut),
            SlotMove::Release => self.shift(setting.plan, due, cut),
            SlotMove::Report => self.shift(setting.plan, due, cut),
            SlotMove::Pack { k } => self.pack(alloc, setting, k, cut, out),
            SlotMove::Begin { .. } => self.shift(setting.plan, due, cut),
        }
    }
}

impl Slot {
    // Makes a move that touches the agreement alone.
    fn shift(&mut self, plan: &Plan, due: SlotMove, cut: &mut Cut) -> Result<(), Memory>
        requires renews { Renews plan.now cut.old self.old }
        requires may { MayMove due (slot_of cut.old self.old.node.slot) }
        ensures { OnOk result (record { slot = self.new; cut = cut.new; out = [] }
            ≡ moved_in plan.now self.old due cut.old) }
    {
        self.move_in(due, cut);
        self.renew(plan, cut)
    }

    // Makes a move on the agreement that isn't a pack.
    fn move_in(&mut self, due: SlotMove, cut: &mut Cut)
        requires slot { HasSlot cut.old self.old.node.slot }
        requires may { MayMove due (slot_of cut.old self.old.node.slot) }
        ensures cut { cut.new ≡ shifted self.old.node.slot due cut.old }
        ensures slot { self.new ≡ with_back (back_by due self.old.back) self.old }
    {
        let slot = self.node.slot();
        match due {
            SlotMove::See => {
                cut.see(slot);
            }
            SlotMove::Rewind { base } => {
                cut.rewind(slot, base);
                self.back = None;
            }
            SlotMove::Release => cut.release(slot),
            SlotMove::Report => {
                cut.report(slot);
            }
            SlotMove::Pack { .. } => (),
            SlotMove::Begin { k } => {
                cut.begin(slot, k);
            }
        }
    }

    // Packs at an iteration that all its elements have completed.
    fn pack<M: Placement>(
        &mut self,
        alloc: Global,
        setting: &Setting<'_, M>,
        k: u64,
        cut: &mut Cut,
        out: &mut Outbox,
    ) -> Result<(), Memory>
        requires served { Served setting.now cut.old self.old }
        requires due { slot_move setting.now.plan cut.old self.old ≡ Some (Pack k) }
        requires empty { out.old ≡ [] }
        ensures { OnOk result (record { slot = self.new; cut = cut.new; out = out.new }
            ≡ slot_packed setting.now cut.old k self.old) }
    {
        nodes_keep();
        let plan = setting.plan;
        let slot = self.node.slot();
        *out = self.node.pack(alloc, plan, setting.script, k)?;
        cut.pack(slot);
        self.since = Since::Nothing;
        self.renew(plan, cut)
    }
}

// Hears the first letter where that is a message for an element, and answers whether it is. The letter stays.
fn hear_parcel<M: Placement>(
    setting: &Setting<'_, M>,
    inbox: &Inbox,
    node: &mut Node,
    seats: &mut SeatStates,
) -> Result<bool, Memory>
    requires fits { (letter : Letter) (more : List Letter) → inbox.now ≡ letter ∷ more
        → FitsAfter setting.now letter node.old }
    ensures heard { result ≡ Ok true
        → ParcelHeard setting.now inbox.now node.old seats.old node.new seats.new }
    ensures stays { result ≡ Ok false → (node.new ≡ node.old) × (seats.new ≡ seats.old) }
{
    match inbox.first() {
        Some(
            Letter::Parcel {
                stamp,
                entry,
                iteration,
                to,
                payload,
            },
        ) => {
            let own = stamp.is_same(node.stamp());
            node.hear_parcel(*stamp, *entry, *iteration, *to, payload)?;
            if own {
                wake(setting.plan, node, *to, *iteration, *entry, seats);
            }
            Ok(true)
        }
        _ => Ok(false),
    }
}

// The base to which a slot has to go back, after a letter.
fn back_after(letter: &Letter, back: Option<u64>) -> Option<u64>
    ensures { result ≡ back_after letter.now back }
{
    match letter {
        Letter::Parcel { .. } => back,
        Letter::Partial { .. } => back,
        Letter::Total { .. } => back,
        Letter::Piece { .. } => back,
        Letter::VerdictOf { .. } => back,
        Letter::Lend { .. } => back,
        Letter::Take { iteration, .. } => Some(*iteration),
        Letter::Restore { iteration, .. } => Some(*iteration),
        Letter::Commit { .. } => back,
        Letter::Resume { .. } => back,
        Letter::Died { .. } => back,
        Letter::Stop => back,
    }
}

// Which orders a slot heard since it last packed, after a letter.
fn since_after(letter: &Letter, since: Since) -> Since
    ensures { result ≡ since_after letter.now since }
{
    match letter {
        Letter::Parcel { .. } => since,
        Letter::Partial { .. } => since,
        Letter::Total { .. } => since,
        Letter::Piece { .. } => since,
        Letter::VerdictOf { .. } => since,
        Letter::Lend { .. } => since,
        Letter::Take { .. } => ordered_after(since),
        Letter::Restore { .. } => ordered_after(since),
        Letter::Commit { .. } => ordered_after(since),
        Letter::Resume { .. } => resumed_after(since),
        Letter::Died { .. } => since,
        Letter::Stop => since,
    }
}

fn ordered_after(since: Since) -> Since
    ensures { result ≡ ordered_after since }
{
    match since {
        Since::Nothing => Since::Ordered,
        Since::Ordered => Since::Ordered,
        Since::Resumed => Since::Resumed,
    }
}

fn resumed_after(since: Since) -> Since
    ensures { result ≡ resumed_after since }
{
    match since {
        Since::Nothing => Since::Nothing,
        Since::Ordered => Since::Resumed,
        Since::Resumed => Since::Resumed,
    }
}
