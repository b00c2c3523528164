//! A slot's node.

ghost use Rattle.std.specs.Prelude.{◌≡◌, ◌≤◌, ◌<◌, ◌*◌, ◌+◌, ◌^◌, ◌++◌, ◌&&◌, if◌then◌else◌, ℕ, Bool, true, false, List, [], length, map, is_none, IfOk, IfSome, MatchOption, None, OnErr, OnOk, IsErr, Some};
ghost use Rattle.std.specs.List.{AllByRecursion};
ghost use Rattle.chare_base.specs.declared.plan.Plan.{Plan};
ghost use Rattle.chare_base.specs.declared.slots.SlotId.{SlotId};
ghost use Rattle.chare_base.specs.Elements.{elements};
ghost use Rattle.chare_base.specs.Placing.{members};
ghost use Rattle.fault_script.specs.declared.fault.Fault.{Fault};
ghost use Rattle.fault_script.specs.Lines.{faults_of};
ghost use Rattle.letter_post.specs.declared.letter.Letter.TheVariants as letters;
ghost use Rattle.letter_post.specs.Orders.{next_order, order_of};
ghost use Rattle.object_steps.specs.Objects.{Fits};
ghost use Rattle.node_core.specs.Keeps.{Fitted, FittedBody};
ghost use Rattle.node_core.specs.Nodes.{all_at, can_run_by, first_running, has_packed, next_begin, node_can_run, node_from, node_heard, node_heard_as, node_heard_by, node_packed, node_packed_by, node_ran, node_ran_by, node_turned, out_of, rests, seated_in, turn_with};
ghost use Rattle.node_core.specs.Rosters.{Roster};
ghost use Rattle.node_core.specs.Starts.{flips_replica, replica_flips, start_state, started_if, starts};

use crate::context::{Context, Here};
use crate::live::{Live, all_at, first_running, idle, next_begin};
use crate::object::can_run;
use crate::orders::obey;
use crate::piece::pack_objects;
use crate::roster::Seats;
use crate::turn::{Turn, TurnKind};
use chare_base::memory::Memory;
use chare_base::message::{EntryId, Payload};
use chare_base::placement::Placement;
use chare_base::plan::{ElementId, Plan};
use chare_base::slots::{LineSet, SlotId};
use chare_eval::effects::Effects;
use chare_eval::start::start_cells;
use fault_script::fault::{Fault, FaultLine};
use fault_script::script::Script;
use letter_post::letter::Letter;
use letter_post::order::LastOrder;
use letter_post::outbox::Outbox;
use letter_post::stamp::Stamp;
use object_steps::laws::objects_follow;
use object_steps::object::Object;
use std::alloc::Global;
use std::marker::Model;

/// A slot's node: its elements' objects, what it gathers of their contributions, and its pieces of checkpoints.
///
/// Contracts see a `NodeState` of `specs/Nodes`. Each call that takes a plan, a script and a placement is given the ones
/// that the node was started with; `Fitted` is what holds of the node by the plan, and the law `nodes_keep` says what
/// holds of it by all three. After `Memory` a node answers `Memory` to every later call that takes memory.
#[derive(Drop)]
pub struct Node {
    slot: SlotId,
    last: LastOrder,
    roster: Seats,
    body: Option<Live>,
    // What the element that ran last sent, to use its memory again.
    effects: Effects,
    over: bool,
}

impl Model for Node {
    ghost use Rattle.node_core.specs.Nodes.{NodeState};

    ghost Value = { NodeState };

    ghost view = { λ n. record { slot = n.slot; last = n.last; roster = n.roster; body = n.body; over = n.over } };
}

impl Node {
    /// A slot's node at the opening: its elements before iteration 0, and their piece of the checkpoint as its base.
    /// Its stamp has epoch 0 and those lines of `live` that are flips of its replica.
    ///
    /// `Memory`: an allocation was refused.
    #[tactic(auto, unfolding(crate::specs::Starts::start_state))]
    pub fn start<M: Placement>(
        alloc: Global,
        plan: &Plan,
        script: &Script,
        map: &M,
        slot: SlotId,
        live: LineSet,
    ) -> Result<Node, Memory>
        requires { length (M.place map.now) ≡ elements plan.now }
        ensures { IfOk result (λ node. node
            ≡ start_state plan.now (faults_of script.now) (M.place map.now) slot live) }
    {
        let roster = Seats::start(alloc, plan, map, slot.node)?;
        let objects = start_objects(alloc, plan, map, slot.node)?;
        let base = pack_objects(alloc, plan, 0, slot.node, objects.as_slice())?;
        let stamp = Stamp {
            replica: slot.replica,
            epoch: 0,
            lines: LineSet(replica_flips(script.as_slice(), slot.replica, live.0)),
        };
        let body = Live {
            objects,
            gatherings: Vec::new(alloc),
            totals: Vec::new(alloc),
            base,
            fresh: None,
            other: None,
            live,
            loan: None,
            waits: false,
        };
        Ok(Node {
            slot,
            last: LastOrder { stamp, base: 0 },
            roster,
            body: Some(body),
            effects: Effects::new(alloc),
            over: false,
        })
    }

    /// Its slot.
    pub fn slot(&self) -> SlotId
        ensures { result ≡ self.now.slot }
    {
        self.slot
    }

    /// The stamp of its last order, or of the opening where it had none. A spent node keeps it.
    pub fn stamp(&self) -> Stamp
        ensures { result ≡ self.now.last.stamp }
    {
        self.last.stamp
    }

    pub(crate) fn live(&self) -> Option<&Live>
        ensures { MatchOption result (self.now.body ≡ None)
            (λ body. self.now.body ≡ Some body.now) }
    {
        self.body.as_ref()
    }

    pub(crate) fn seats(&self) -> &Seats
        ensures { result.now ≡ self.now.roster }
    {
        &self.roster
    }

    /// Whether it is spent.
    pub fn spent(&self) -> bool
        ensures { result ≡ is_none self.now.body }
    {
        self.body.is_none()
    }

    /// Whether it is spent or waits for Resume.
    pub fn rests(&self) -> bool
        ensures { result ≡ rests self.now }
    {
        match &self.body {
            None => true,
            Some(body) => body.waits,
        }
    }
}

impl Node {
    /// A turn of one of its elements: it runs its ready part, or between two iterations it begins one below the limit,
    /// with its flips, and runs the first part of that. What it sent is in the turn's outbox. `Held` and `Awaits` are
    /// said of that element alone. A node that rests runs nothing, and answers `Awaits`.
    ///
    /// `Memory`: an allocation was refused; the node is over.
    pub fn run_element<M: Placement>(
        &mut self,
        alloc: Global,
        plan: &Plan,
        script: &Script,
        map: &M,
        e: ElementId,
        limit: u64,
    ) -> Result<Turn, Memory>
        requires fits { Fitted plan.now self.old }
        requires place { length (M.place map.now) ≡ elements plan.now }
        ensures ok { IfOk result
            (λ turn. record { node = self.new; turn = turn }
            ≡ node_ran plan.now (faults_of script.now) (M.place map.now) limit e.0 self.old) }
        ensures err { OnErr result (self.new.over ≡ true) }
        ensures over { self.old.over ≡ true → IsErr result }
    {
        let mut outbox = Outbox::new(alloc);
        let kind = self.run_into(alloc, plan, script, map, e, limit, &mut outbox)?;
        Ok(turn_with(kind, outbox))
    }

    /// A turn of one of its elements, as `run_element` does it. What it sent is put into the caller's outbox, which is
    /// empty before, so that its memory is used again.
    ///
    /// `Memory`: an allocation was refused; the node is over.
    #[tactic(auto, unfolding(crate::specs::Nodes::node_ran))]
    pub fn run_into<M: Placement>(
        &mut self,
        alloc: Global,
        plan: &Plan,
        script: &Script,
        map: &M,
        e: ElementId,
        limit: u64,
        out: &mut Outbox,
    ) -> Result<TurnKind, Memory>
        requires fits { Fitted plan.now self.old }
        requires place { length (M.place map.now) ≡ elements plan.now }
        requires empty { out.old ≡ [] }
        ensures ok { IfOk result
            (λ kind. record { node = self.new; turn = turn_with kind out.new }
            ≡ node_ran plan.now (faults_of script.now) (M.place map.now) limit e.0 self.old) }
        ensures sent { IfOk result
            (λ kind. out.new ≡ out_of (node_ran plan.now (faults_of script.now) (M.place map.now)
            limit e.0 self.old).turn) }
        ensures err { OnErr result (self.new.over ≡ true) }
        ensures over { self.old.over ≡ true → IsErr result }
    {
        if self.over {
            return Err(Memory);
        }
        let roster = &self.roster;
        let body = &mut self.body;
        let effects = &mut self.effects;
        let context = Context { plan, script, map };
        match run_body(
            alloc, &context, self.slot, self.last, roster, e, limit, body, effects, out,
        ) {
            Ok(kind) => Ok(kind),
            Err(Memory) => {
                self.over = true;
                Err(Memory)
            }
        }
    }

    /// A turn of the least element that can run below the limit. `Held`: none can, and some element is before an
    /// iteration of the plan, which is the limit or a later one for each that is. `Awaits`: none can, and no element is
    /// before an iteration of the plan. A node that waits for Resume runs nothing, and answers `Held` where some
    /// element is before an iteration of the plan, also below the limit.
    ///
    /// `Memory`: an allocation was refused; the node is over.
    #[tactic(auto, unfolding(crate::specs::Nodes::node_turned))]
    pub fn turn<M: Placement>(
        &mut self,
        alloc: Global,
        plan: &Plan,
        script: &Script,
        map: &M,
        limit: u64,
    ) -> Result<Turn, Memory>
        requires fits { Fitted plan.now self.old }
        requires place { length (M.place map.now) ≡ elements plan.now }
        ensures ok { IfOk result
            (λ turn. record { node = self.new; turn = turn }
            ≡ node_turned plan.now (faults_of script.now) (M.place map.now) limit self.old) }
        ensures err { OnErr result (self.new.over ≡ true) }
        ensures over { self.old.over ≡ true → IsErr result }
    {
        if self.over {
            return Err(Memory);
        }
        match self.first_running(plan, limit) {
            Some(e) => self.run_element(alloc, plan, script, map, e, limit),
            None => {
                let kind = idle(self.next_begin().is_some());
                Ok(turn_with(kind, Outbox::new(alloc)))
            }
        }
    }

    /// Hears a letter. A Parcel, a Partial or a Total counts where its whole stamp is the node's own, and is dropped
    /// elsewhere; an element's queue drops a message whose iteration is over and one that it holds already. A buddy's
    /// Piece is kept where it takes the place of none, of one of an older epoch or of one at another iteration, and is
    /// then compared where the own piece at its iteration is there.
    ///
    /// Restore, Commit, Take and Resume are orders: the last one's stamp is the node's from then on, also of a spent one.
    /// Restore leads the elements back to the base; Commit makes the fresh piece the base, where it and all elements are
    /// at the order's iteration; Take makes a node of the piece that it brings, also of a spent one. After each of them
    /// the node waits, and Resume ends that; a node of replica 1 then sends a piece that it holds fresh to its buddy
    /// again. An order that it can't obey leaves it spent: it drops what it hears but a Take.
    ///
    /// `Memory`: an allocation was refused; the node is over.
    #[tactic(auto, unfolding(crate::specs::Nodes::node_heard))]
    pub fn hear<M: Placement>(
        &mut self,
        alloc: Global,
        plan: &Plan,
        script: &Script,
        map: &M,
        letter: Letter,
    ) -> Result<Outbox, Memory>
        requires { length (M.place map.now) ≡ elements plan.now }
        ensures ok { IfOk result
            (λ out. record { node = self.new; out = out }
            ≡ node_heard plan.now (faults_of script.now) (M.place map.now) letter self.old) }
        ensures err { OnErr result (self.new.over ≡ true) }
        ensures over { self.old.over ≡ true → IsErr result }
    {
        if self.over {
            return Err(Memory);
        }
        let _ = script;
        let last = self.last.after(&letter);
        let roster = &self.roster;
        let body = &mut self.body;
        match hear_body(alloc, plan, map, self.slot, self.last, roster, letter, body) {
            Ok(out) => {
                self.last = last;
                Ok(out)
            }
            Err(Memory) => {
                self.over = true;
                Err(Memory)
            }
        }
    }

    /// Hears a message for one of its elements, as `hear` does a Parcel, without taking it from where it lies. Nothing
    /// is sent.
    ///
    /// `Memory`: an allocation was refused; the node is over.
    #[tactic(auto, unfolding(crate::specs::Nodes::node_heard))]
    pub fn hear_parcel(
        &mut self,
        sent_under: Stamp,
        entry: EntryId,
        iteration: u64,
        to: ElementId,
        payload: &Payload,
    ) -> Result<(), Memory>
        ensures ok { (p : Plan) (script : List Fault) (place : List ℕ)
            → OnOk result (record { node = self.new; out = [] }
            ≡ node_heard p script place (letters.Parcel sent_under entry iteration to payload.now)
            self.old) }
        ensures err { OnErr result (self.new.over ≡ true) }
        ensures over { self.old.over ≡ true → IsErr result }
    {
        if self.over {
            return Err(Memory);
        }
        let last = self.last;
        let roster = &self.roster;
        let body = &mut self.body;
        match take_parcel(
            last, roster, sent_under, entry, iteration, to, payload, body,
        ) {
            Ok(()) => Ok(()),
            Err(Memory) => {
                self.over = true;
                Err(Memory)
            }
        }
    }

    /// Packs: its elements have completed k iterations and none has begun the next. The piece is kept fresh. Replica 1
    /// sends it to its buddy; replica 0 compares it where it holds its buddy's piece at k.
    ///
    /// `Memory`: an allocation was refused; the node is over.
    #[tactic(auto, unfolding(crate::specs::Nodes::node_packed))]
    pub fn pack(
        &mut self,
        alloc: Global,
        plan: &Plan,
        script: &Script,
        k: u64,
    ) -> Result<Outbox, Memory>
        requires { Fitted plan.now self.old }
        ensures ok { IfOk result
            (λ out. record { node = self.new; out = out }
            ≡ node_packed plan.now (faults_of script.now) k self.old) }
        ensures err { OnErr result (self.new.over ≡ true) }
        ensures over { self.old.over ≡ true → IsErr result }
    {
        let _ = script;
        if self.over {
            return Err(Memory);
        }
        match pack_body(alloc, plan, k, self.slot, self.last, &mut self.body) {
            Ok(out) => Ok(out),
            Err(Memory) => {
                self.over = true;
                Err(Memory)
            }
        }
    }

    /// The least iteration that an element would begin; None exactly where no element is before an iteration of the
    /// plan.
    #[tactic(auto, unfolding(crate::specs::Nodes::next_begin))]
    pub fn next_begin(&self) -> Option<u64>
        ensures { result ≡ next_begin self.now }
    {
        match &self.body {
            None => None,
            Some(body) => next_begin(self.roster.iterations(), body.objects.as_slice()),
        }
    }

    /// Whether one of its elements has a ready part, or would begin an iteration below the limit and of the plan; false
    /// where it lives elsewhere. A node that waits for Resume runs nothing, whatever this says.
    #[tactic(auto, unfolding(crate::specs::Nodes::node_can_run))]
    pub fn can_run(&self, plan: &Plan, e: ElementId, limit: u64) -> bool
        requires { Fitted plan.now self.now }
        ensures { result ≡ node_can_run plan.now limit self.now e.0 }
    {
        match &self.body {
            None => false,
            Some(body) => can_run_at(plan, limit, body.objects.as_slice(), self.roster.seat(e)),
        }
    }

    /// The least element that has a ready part or would begin an iteration below the limit and of the plan; None where
    /// there is none, and where the node rests.
    #[tactic(auto, unfolding(crate::specs::Nodes::first_running))]
    pub fn first_running(&self, plan: &Plan, limit: u64) -> Option<ElementId>
        requires { Fitted plan.now self.now }
        ensures { result ≡ first_running plan.now limit self.now }
    {
        match &self.body {
            None => None,
            Some(body) => {
                if body.waits {
                    return None;
                }
                first_running(plan, limit, body.objects.as_slice())
            }
        }
    }

    /// Whether every element has completed k iterations and none has begun the next. A spent node has no elements, and
    /// answers false.
    #[tactic(auto, unfolding(crate::specs::Nodes::all_at))]
    pub fn all_at(&self, k: u64) -> bool
        ensures { result ≡ all_at k self.now }
    {
        match &self.body {
            None => false,
            Some(body) => all_at(k, body.objects.as_slice()),
        }
    }

    /// Whether it holds a piece of a checkpoint that isn't its base yet.
    #[tactic(auto, unfolding(crate::specs::Nodes::has_packed))]
    pub fn has_packed(&self) -> bool
        ensures { result ≡ has_packed self.now }
    {
        match &self.body {
            None => false,
            Some(body) => body.fresh.is_some(),
        }
    }
}

fn can_run_at(plan: &Plan, limit: u64, objects: &[Object], seat: Option<u32>) -> bool
    requires { AllByRecursion (Fits plan.now) objects.now }
    ensures { result ≡ can_run_by plan.now limit (seated_in objects.now seat) }
{
    match seat {
        None => false,
        Some(i) => match objects.get(i as usize) {
            None => false,
            Some(object) => can_run(plan, limit, object),
        },
    }
}

fn run_body<M: Placement>(
    alloc: Global,
    context: &Context<'_, M>,
    slot: SlotId,
    last: LastOrder,
    roster: &Seats,
    e: ElementId,
    limit: u64,
    body: &mut Option<Live>,
    effects: &mut Effects,
    out: &mut Outbox,
) -> Result<TurnKind, Memory>
    requires fits { FittedBody context.now.plan.now body.old }
    requires empty { out.old ≡ [] }
    ensures told { (over : Bool)
        → IfOk result (λ kind. record {
          node = node_from slot last roster.now over body.new;
          turn = turn_with kind out.new;
        }
        ≡ node_ran_by context.now.plan.now (faults_of context.now.script.now)
        (M.place context.now.map.now) limit e.0 (node_from slot last roster.now over body.old)
        body.old) }
    ensures sent { IfOk result (λ kind. out.new ≡ out_of (turn_with kind out.new)) }
{
    match body {
        None => Ok(TurnKind::Awaits),
        Some(live) => {
            let here = Here {
                slot,
                stamp: last.stamp,
                roster,
            };
            let kind = live.run(alloc, context, &here, e, limit, effects, out)?;
            Ok(kind)
        }
    }
}

// A turn with the letters that it sent.
fn turn_with(kind: TurnKind, outbox: Outbox) -> Turn
    ensures { result ≡ turn_with kind outbox }
{
    match kind {
        TurnKind::Ran { element, spot } => Turn::Ran {
            element,
            spot,
            outbox,
        },
        TurnKind::Held => Turn::Held,
        TurnKind::Awaits => Turn::Awaits,
        TurnKind::Dies { line } => Turn::Dies { line },
    }
}

fn hear_body<M: Placement>(
    alloc: Global,
    plan: &Plan,
    map: &M,
    slot: SlotId,
    last: LastOrder,
    roster: &Seats,
    letter: Letter,
    body: &mut Option<Live>,
) -> Result<Outbox, Memory>
    requires { length (M.place map.now) ≡ elements plan.now }
    ensures { (script : List Fault) (over : Bool)
        → IfOk result (λ out. record {
          node = node_from slot (next_order last letter) roster.now
              over body.new;
          out = out;
        } ≡ node_heard_as plan.now script (M.place map.now) letter
        (node_from slot last roster.now over body.old) (order_of letter)) }
{
    if letter.is_mail() {
        let out = hear_mail(alloc, plan, slot, last, roster, letter, body)?;
        Ok(out)
    } else {
        let out = obey(alloc, plan, map, slot, last.stamp, letter, body)?;
        Ok(out)
    }
}

fn hear_mail(
    alloc: Global,
    plan: &Plan,
    slot: SlotId,
    last: LastOrder,
    roster: &Seats,
    letter: Letter,
    body: &mut Option<Live>,
) -> Result<Outbox, Memory>
    ensures { (script : List Fault) (place : List ℕ) (over : Bool)
        → IfOk result (λ out. record {
          node = node_from slot last roster.now over body.new;
          out = out;
        } ≡ node_heard_by plan.now script place letter
        (node_from slot last roster.now over body.old) body.old) }
{
    match body {
        None => Ok(Outbox::new(alloc)),
        Some(live) => {
            let out = live.hear(alloc, plan, slot, last.stamp, roster, letter)?;
            Ok(out)
        }
    }
}

// A message comes for an element. A spent node drops it.
fn take_parcel(
    last: LastOrder,
    roster: &Seats,
    sent_under: Stamp,
    entry: EntryId,
    iteration: u64,
    to: ElementId,
    payload: &Payload,
    body: &mut Option<Live>,
) -> Result<(), Memory>
    ensures { (p : Plan) (script : List Fault) (place : List ℕ) (slot : SlotId) (over : Bool)
        → OnOk result (record { node = node_from slot last roster.now over body.new; out = [] }
        ≡ node_heard_by p script place (letters.Parcel sent_under entry iteration to payload.now)
        (node_from slot last roster.now over body.old) body.old) }
{
    match body {
        None => Ok(()),
        Some(live) => {
            live.hear_parcel(
                last.stamp, roster, sent_under, entry, iteration, to, payload,
            )?;
            Ok(())
        }
    }
}

fn pack_body(
    alloc: Global,
    plan: &Plan,
    k: u64,
    slot: SlotId,
    last: LastOrder,
    body: &mut Option<Live>,
) -> Result<Outbox, Memory>
    requires { FittedBody plan.now body.old }
    ensures { (script : List Fault) (roster : Roster) (over : Bool) → IfOk result
        (λ out. record { node = node_from slot last roster over body.new; out = out }
        ≡ node_packed_by plan.now script k (node_from slot last roster over body.old) body.old) }
{
    match body {
        None => Ok(Outbox::new(alloc)),
        Some(live) => {
            let out = live.pack(alloc, plan, slot, last.stamp, k)?;
            Ok(out)
        }
    }
}

// The objects of a node's elements at the opening.
fn start_objects<M: Placement>(
    alloc: Global,
    plan: &Plan,
    map: &M,
    node: u16,
) -> Result<Vec<Object>, Memory>
    requires { length (M.place map.now) ≡ elements plan.now }
    ensures exact { IfOk result
        (λ all. all.items ≡ starts plan.now (members (M.place map.now) node)) }
    ensures fits { IfOk result (λ all. AllByRecursion (Fits plan.now) all.items) }
{
    let mut all = Vec::new(alloc);
    for e in 0..plan.elements() {
        let here = map.node_of(ElementId(e)) == node;
        start_if(alloc, plan, ElementId(e), here, &mut all)?;
    }
    Ok(all)
}

fn start_if(
    alloc: Global,
    plan: &Plan,
    e: ElementId,
    here: bool,
    all: &mut Vec<Object>,
) -> Result<(), Memory>
    requires element { e.0 < elements plan.now }
    requires fits { AllByRecursion (Fits plan.now) all.old.items }
    ensures exact { OnOk result (all.new.items ≡ all.old.items ++ started_if plan.now e.0 here) }
    ensures fits { OnOk result (AllByRecursion (Fits plan.now) all.new.items) }
{
    objects_follow();
    if here {
        let cells = start_cells(alloc, plan, e)?;
        all.push(Object::start(alloc, plan, e, cells, 0))?;
    }
    Ok(())
}

// Those lines of a set that are flips of a replica.
fn replica_flips(lines: &[FaultLine], replica: u8, set: u64) -> u64
    requires { length lines.now ≤ 64 }
    ensures exact { result ≡ replica_flips replica (faults_of lines.now) set }
    ensures small { (n : ℕ) → length lines.now ≤ n → result < 2 ^ n }
{
    match lines.split_first() {
        None => 0,
        Some((line, more)) => {
            let on = flips_if(set % 2 == 1, line.fault, replica);
            with_bit(on, replica_flips(more, replica, set / 2))
        }
    }
}

fn flips_if(on: bool, fault: Fault, replica: u8) -> bool
    ensures { result ≡ (on && flips_replica replica fault) }
{
    match fault {
        Fault::Flip { replica: r, .. } => on && r == replica,
        Fault::Crash { .. } => false,
    }
}

fn with_bit(on: bool, set: u64) -> u64
    requires { set < 2 ^ 63 }
    ensures { result ≡ (if on then 1 else 0) + 2 * set }
{
    if on { 1 + 2 * set } else { 2 * set }
}
